//! Claims of nodes, each in a folder of its own in the folder for temporary files. What a file system does is known to
//! no contract. A second open of a file in one process doesn't have the first one's lock, so a claim that stands is
//! refused to this very process too. A scenario is `None` where the system refuses something that it has to do.

use crate::support::{assert_prints, assert_same, joined};
use iceoryx2_file_log::error::FileFault;
use iceoryx2_file_log::options::Sharing;
use iceoryx2_monitoring::error::{MonitoringError, MonitoringFault};
use iceoryx2_monitoring::path::{node_of, token_path};
use iceoryx2_monitoring::state::{NodeState, NodeStatus, list, state};
use iceoryx2_monitoring::token::{Token, claim, claim_free};
use std::fs::File;
use std::io::ErrorKind;
use std::os::unix::fs::{MetadataExt, symlink};
use std::random::RandomSource;
use std::{env, fs};

/// A new folder, and the path of a log in it that has no file.
struct Place {
    folder: String,
    log: String,
}

// Written out, so that a proof of what lets one go doesn't take its fields apart.
impl Drop for Place {
    fn drop(self) {
        let Place { folder: _, log: _ } = self;
    }
}

fn new_place(rt: &HostRuntime) -> Option<Place> {
    let mut bytes = [0; 8];
    let temporary = env::temp_dir(rt).ok()?;
    rt.fill_bytes(&mut bytes).ok()?;
    let number = u64::from_be_bytes(bytes);
    let folder = format!(in rt.alloc();
        "{}/iceoryx2_monitoring-{number:016x}",
        temporary.as_str()
    ).ok()?;
    fs::create_dir(rt, folder.as_str()).ok()?;
    let log = format!(in rt.alloc(); "{folder}/log").ok()?;
    Some(Place { folder, log })
}

/// Makes a file of no bytes that has this name beside the log.
fn make(rt: &HostRuntime, place: &Place, name: &str) -> Option<()> {
    let path = format!(in rt.alloc(); "{}/{name}", place.folder).ok()?;
    fs::write(rt, path.as_str(), "").ok()
}

/// Makes a folder that has the path of the node's file.
fn make_folder(rt: &HostRuntime, place: &Place, node: u64) -> Option<()> {
    let path = token_path(rt.alloc(), &place.log, node).ok()?;
    fs::create_dir(rt, path.as_str()).ok()
}

/// Makes a symbolic link to a file that has the path of the node's file.
fn make_link(rt: &HostRuntime, place: &Place, node: u64) -> Option<()> {
    let path = token_path(rt.alloc(), &place.log, node).ok()?;
    make(rt, place, "linked")?;
    symlink(rt, "linked", path.as_str()).ok()
}

/// The number of the token, or why there is none.
fn number(claimed: Result<Token, MonitoringError>) -> Result<u64, MonitoringFault> {
    match claimed {
        Ok(token) => Ok(token.node()),
        Err(error) => Err(error.fault()),
    }
}

/// What a claim comes to that is let go of at once.
fn try_claim(rt: &HostRuntime, place: &Place, node: u64) -> Result<u64, MonitoringFault> {
    number(claim(rt, &place.log, node, Sharing::User))
}

fn try_free(rt: &HostRuntime, place: &Place) -> Result<u64, MonitoringFault> {
    number(claim_free(rt, &place.log, Sharing::User))
}

fn look(rt: &HostRuntime, place: &Place, node: u64) -> Result<NodeState, MonitoringFault> {
    match state(rt, &place.log, node) {
        Ok(state) => Ok(state),
        Err(error) => Err(error.fault()),
    }
}

// ---- names

/// The name of a file, the name of a log, and the node whose file it is.
const NAMES: [(&str, &str, Option<u64>); 16] = [
    ("log.node-0", "log", Some(0)),
    ("log.node-10", "log", Some(10)),
    ("log.node-18446744073709551615", "log", Some(u64::MAX)),
    (".node-7", "", Some(7)),
    ("log.node-3.node-7", "log.node-3", Some(7)),
    ("log.node-18446744073709551616", "log", None),
    ("log.node-007", "log", None),
    ("log.node-00", "log", None),
    ("log.node-+7", "log", None),
    ("log.node--7", "log", None),
    ("log.node-", "log", None),
    ("log.node-7 ", "log", None),
    ("log.node-7.new-0123456789abcdef", "log", None),
    ("logs.node-7", "log", None),
    ("og.node-7", "log", None),
    ("log", "log", None),
];

#[test]
fn a_name_is_a_nodes_as_it_is_printed(rt: HostRuntime) {
    for (file, log, wanted) in NAMES {
        assert_same(&rt, node_of(file, log), wanted);
    }
}

#[test]
fn a_nodes_file_stands_beside_the_log(rt: HostRuntime) {
    let path = token_path(rt.alloc(), "/run/log", 12);
    assert_same(&rt, path, String::from_str(rt.alloc(), "/run/log.node-12"));
}

// ---- claims

/// What a second claim of a node and a look at it come to while its token stands, and after that; and the same of a
/// node that was never claimed.
fn claimed(
    rt: &HostRuntime,
) -> Option<
    [(
        Result<NodeState, MonitoringFault>,
        Result<u64, MonitoringFault>,
    ); 3],
> {
    let place = new_place(rt)?;
    let token = claim(rt, &place.log, 3, Sharing::User).ok()?;
    let standing = (look(rt, &place, 3), try_claim(rt, &place, token.node()));
    drop(token);
    let then = (look(rt, &place, 3), try_claim(rt, &place, 3));
    let never = (look(rt, &place, 4), try_claim(rt, &place, 4));
    fs::remove_dir_all(rt, place.folder.as_str()).ok()?;
    Some([standing, then, never])
}

#[test]
fn a_node_is_claimed_once(rt: HostRuntime) {
    let refused = Err(MonitoringFault::NodeIsAlive { node: 3 });
    let wanted = [
        (Ok(NodeState::Alive), refused),
        (Ok(NodeState::Dead), Ok(3)),
        (Ok(NodeState::DoesNotExist), Ok(4)),
    ];
    assert_same(&rt, claimed(&rt), Some(wanted));
}

/// What a look and a claim come to while another look has its lock.
fn looked(
    rt: &HostRuntime,
) -> Option<
    (
        Result<NodeState, MonitoringFault>,
        Result<u64, MonitoringFault>,
    ),
> {
    let place = new_place(rt)?;
    let _ = try_claim(rt, &place, 3);
    let path = token_path(rt.alloc(), &place.log, 3).ok()?;
    let file = File::open(rt, path.as_str()).ok()?;
    file.try_lock_shared().ok()?;
    let found = (look(rt, &place, 3), try_claim(rt, &place, 3));
    fs::remove_dir_all(rt, place.folder.as_str()).ok()?;
    Some(found)
}

#[test]
fn a_look_hinders_claims_and_no_looks(rt: HostRuntime) {
    let refused = Err(MonitoringFault::NodeIsAlive { node: 3 });
    assert_same(&rt, looked(&rt), Some((Ok(NodeState::Dead), refused)));
}

/// The bits of the mode of the file that a claim makes, and how many bytes it has.
fn made(rt: &HostRuntime, sharing: Sharing) -> Option<(u32, u64)> {
    let place = new_place(rt)?;
    let token = claim(rt, &place.log, 7, sharing).ok()?;
    let path = token_path(rt.alloc(), &place.log, token.node()).ok()?;
    let metadata = fs::metadata(rt, path.as_str()).ok()?;
    fs::remove_dir_all(rt, place.folder.as_str()).ok()?;
    Some((metadata.mode() & 0o777, metadata.len()))
}

#[test]
fn a_claims_file_is_for_its_user_or_group(rt: HostRuntime) {
    let found = [made(&rt, Sharing::User), made(&rt, Sharing::Group)];
    assert_same(&rt, found, [Some((0o600, 0)), Some((0o660, 0))]);
}

/// The free node while 0, 1 and 3 are alive and a folder has the path of 2's file, and after 1 is let go of.
fn freed(rt: &HostRuntime) -> Option<[Result<u64, MonitoringFault>; 2]> {
    let place = new_place(rt)?;
    let _zero = claim_free(rt, &place.log, Sharing::User).ok()?;
    let one = claim_free(rt, &place.log, Sharing::User).ok()?;
    make_folder(rt, &place, 2)?;
    let _three = claim(rt, &place.log, 3, Sharing::User).ok()?;
    let next = try_free(rt, &place);
    drop(one);
    let then = try_free(rt, &place);
    fs::remove_dir_all(rt, place.folder.as_str()).ok()?;
    Some([next, then])
}

#[test]
fn the_lowest_free_node_is_given(rt: HostRuntime) {
    assert_same(&rt, freed(&rt), Some([Ok(4), Ok(1)]));
}

/// What a claim and a look come to where a folder has the path of node 5's file, and a link that of 6's.
fn refused(
    rt: &HostRuntime,
) -> Option<
    [(
        Result<NodeState, MonitoringFault>,
        Result<u64, MonitoringFault>,
    ); 2],
> {
    let place = new_place(rt)?;
    make_folder(rt, &place, 5)?;
    make_link(rt, &place, 6)?;
    let folder = (look(rt, &place, 5), try_claim(rt, &place, 5));
    let link = (look(rt, &place, 6), try_claim(rt, &place, 6));
    fs::remove_dir_all(rt, place.folder.as_str()).ok()?;
    Some([folder, link])
}

#[test]
fn what_is_no_file_is_no_nodes(rt: HostRuntime) {
    let folder = MonitoringFault::File(FileFault::IsAFolder);
    let link = MonitoringFault::File(FileFault::IsALink);
    let wanted = [(Err(folder), Err(folder)), (Err(link), Err(link))];
    assert_same(&rt, refused(&rt), Some(wanted));
}

// ---- lists

/// Whether these are listed beside the log, in this order.
fn lists(rt: &HostRuntime, place: &Place, wanted: &[NodeStatus]) -> Option<bool> {
    let found = list(rt, &place.log).ok()?;
    Some(found.as_slice() == wanted)
}

/// Whether nothing is listed of an empty folder, and afterwards the nodes 2 and 10 alone, beside files that are no
/// node's, a folder and a link.
fn listed(rt: &HostRuntime) -> Option<[bool; 2]> {
    let place = new_place(rt)?;
    let none = lists(rt, &place, &[])?;
    for name in ["log", "log.node-007", "log.node-x", "other.node-1"] {
        make(rt, &place, name)?;
    }
    make_folder(rt, &place, 5)?;
    make_link(rt, &place, 6)?;
    let _ten = claim(rt, &place.log, 10, Sharing::User).ok()?;
    let _ = try_claim(rt, &place, 2);
    let two = NodeStatus {
        node: 2,
        state: NodeState::Dead,
    };
    let ten = NodeStatus {
        node: 10,
        state: NodeState::Alive,
    };
    let some = lists(rt, &place, &[two, ten])?;
    fs::remove_dir_all(rt, place.folder.as_str()).ok()?;
    Some([none, some])
}

#[test]
fn nodes_are_listed_by_number(rt: HostRuntime) {
    assert_same(&rt, listed(&rt), Some([true, true]));
}

/// What the calls answer where there is no folder, and which path the refusal of a list has.
fn lost(
    rt: &HostRuntime,
) -> Option<
    (
        Result<NodeState, MonitoringFault>,
        [MonitoringFault; 2],
        bool,
    ),
> {
    let place = new_place(rt)?;
    fs::remove_dir_all(rt, place.folder.as_str()).ok()?;
    let looked = look(rt, &place, 1);
    let claimed = try_claim(rt, &place, 1).err()?;
    let error = list(rt, &place.log).err()?;
    Some((
        looked,
        [claimed, error.fault()],
        error.path() == place.folder.as_str(),
    ))
}

#[test]
fn without_a_folder_no_node_is_claimed(rt: HostRuntime) {
    let kind = ErrorKind::NotFound;
    let fault = MonitoringFault::File(FileFault::Failed { kind });
    let wanted = (Ok(NodeState::DoesNotExist), [fault, fault], true);
    assert_same(&rt, lost(&rt), Some(wanted));
}

#[test]
fn a_refused_claim_is_printed_with_its_path(rt: HostRuntime) {
    let rows = [
        (
            MonitoringFault::NodeIsAlive { node: 3 },
            "/run/log: node 3 is alive",
        ),
        (
            MonitoringFault::NoFreeNode,
            "/run/log: no node up to 65535 is free",
        ),
        (
            MonitoringFault::File(FileFault::IsAFolder),
            "/run/log: is a folder",
        ),
    ];
    for (fault, text) in rows {
        let path = joined(&rt, rt.alloc(), &["/run/log"]);
        assert_prints(&rt, rt.alloc(), &MonitoringError::new(path, fault), text);
    }
}
