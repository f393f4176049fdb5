//! The file of a node, which is beside the log.

ghost use Rattle.std.specs.Prelude.{◌≡◌, IfOk, string_bytes};
ghost use Rattle.iceoryx2_monitoring.specs.Paths.{token_of, IsNumberOf, IsNodeOf, StandsBeside, OneFileEach};

use itoa::Buffer;
use std::alloc::{AllocError, Global};

/// Returns the path of a node's file: the log's path, `.node-`, and the node's number in decimal.
pub fn token_path(alloc: Global, log_path: &str, node: u64) -> Result<String, AllocError>
    ensures { IfOk result (λ path. string_bytes path ≡ token_of log_path.now node) }
{
    format!(in alloc; "{log_path}.node-{node}")
}

/// Returns the number that these digits write, if they are as a number is printed: no leading zero, no
/// sign.
fn number_of(digits: &str) -> Option<u64>
    ensures { IsNumberOf digits.now result }
{
    match digits.parse::<u64>() {
        Ok(number) => {
            let mut buffer = Buffer::new();
            if buffer.format(number) == digits {
                Some(number)
            } else {
                None
            }
        }
        Err(_) => None,
    }
}

/// Returns the node whose file has this name beside a log of that name. `None` if the name is no node's.
/// The names of nodes are exactly the names that `token_path` makes.
pub fn node_of(file_name: &str, log_name: &str) -> Option<u64>
    ensures { IsNodeOf file_name.now log_name.now result }
{
    let behind_log = file_name.strip_prefix(log_name)?;
    number_of(behind_log.strip_prefix(".node-")?)
}

/// - `beside`: a node's file is in the log's folder. Its name there is the log's name and the node's
///   suffix, as `node_of` reads it.
/// - `one`: no two nodes have one file.
pub fn laws_of_paths()
    ensures beside { StandsBeside }
    ensures one { OneFileEach }
{}
