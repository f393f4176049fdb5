//! What entries change of services.

ghost use Rattle.std.specs.Prelude.{◌≡◌, ◌++◌, ℕ, List, Some, IfOk, OnOk, is_some, string_bytes};
ghost use Rattle.std.specs.Option.{option_copied};
ghost use Rattle.iceoryx2_world.specs.declared.world.Row.TheVariants as row;
ghost use Rattle.iceoryx2_world.specs.World.{World, joined_number};
ghost use Rattle.wulameron_trail.specs.Changes.{IsChangeOf, IsPublishedIn, IsStanding};
ghost use Rattle.wulameron_trail.specs.Changes.{change_in, change_line, json_line, with_entry, word_of};
ghost use Rattle.wulameron_trail.specs.Changes.{happened as happened_spec};
ghost use Rattle.wulameron_trail.specs.Changes.{change_data as data_of};
ghost use Rattle.serde_json.specs.Data.{put as with_member, string};
ghost use Rattle.serde_json.specs.View.{members_view, view};

use crate::descriptions::read;
use crate::entries::pattern_and_name;
use iceoryx2_description::description::{ServiceHash, StaticConfig};
use iceoryx2_log::entry::Entry;
use iceoryx2_table::rows::{RowState, StoredRow};
use iceoryx2_table::table::stored::StoredWorld;
use iceoryx2_world::world::Phase;
use serde_json::{Map, Value, put};
use std::alloc::{AllocError, Global};
use wulameron_view::list_text::term_of;

/// A service that is published.
pub struct Published {
    pub number: u64,
    pub description: StaticConfig,
}

// It is written out, so that proofs of what lets one go don't pay for each field.
impl Drop for Published {
    fn drop(self) {
        let Published {
            number: _,
            description: _,
        } = self;
    }
}

/// What there is of an entry's service.
#[derive(Drop)]
pub struct Standing {
    /// `None` if it isn't published.
    pub published: Option<Published>,
    /// Whether the entry's node has a factory of it.
    pub is_in: bool,
}

/// What happens to a service.
#[derive(Clone, Copy)]
pub enum Happening {
    /// The service is published. Its creator is in it.
    Created,
    /// A node has its first factory of it.
    Opened,
    /// A node's last factory of it is gone.
    Left,
    /// Its description is gone.
    Removed,
}

/// What an entry changes.
pub struct Change {
    pub happening: Happening,
    pub published: Published,
    pub hash: ServiceHash,
    /// The node whose entry it is.
    pub node: u64,
}

// It is written out, so that proofs of what lets one go don't pay for each field.
impl Drop for Change {
    fn drop(self) {
        let Change {
            happening: _,
            published: _,
            hash: _,
            node: _,
        } = self;
    }
}

/// Returns what there is of an entry's service in a world, before the entry or after it. `AllocError` if there is no
/// memory for the description.
pub fn standing_of(
    alloc: Global,
    world: &StoredWorld,
    entry: &Entry,
) -> Result<Standing, AllocError>
    ensures { IfOk result (IsStanding world.now entry.now.node entry.now.hash) }
{
    let is_in = is_joined(world.phase(entry.node, &entry.hash));
    let published = published_in(alloc, world.row(&entry.hash))?;
    Ok(Standing { published, is_in })
}

/// Returns whether a node of this phase has a factory.
fn is_joined(phase: Phase) -> bool
    ensures { result ≡ is_some (joined_number phase) }
{
    match phase {
        Phase::Joined(_, _) => true,
        _ => false,
    }
}

/// Returns the service that is published in a row.
fn published_in(alloc: Global, held: Option<&StoredRow>) -> Result<Option<Published>, AllocError>
    ensures { IfOk result (IsPublishedIn (option_copied held.entry)) }
{
    let Some(stored) = held else {
        return Ok(None);
    };
    match stored.state() {
        RowState::Locked(_) => Ok(None),
        RowState::Published(number) => described(alloc, number, stored),
    }
}

/// Returns the service of this number that is published in a row.
fn described(
    alloc: Global,
    number: u64,
    stored: &StoredRow,
) -> Result<Option<Published>, AllocError>
    requires { (bytes : List ℕ) × (stored.now ≡ row.Published number bytes) }
    ensures { IfOk result (IsPublishedIn (Some stored.now)) }
{
    match read(alloc, stored.bytes().as_slice())? {
        None => Ok(None),
        Some(description) => Ok(Some(Published {
            number,
            description,
        })),
    }
}

/// Returns what an entry changes of its service: at most one change, and none if nobody has to know. It is given what
/// there was of the service before the entry, and the world after it. A node's further openings, and the end of one of
/// several factories, are no changes. `AllocError` if there is no memory for the description.
pub fn change_of(
    alloc: Global,
    before: Standing,
    entry: &Entry,
    after: &StoredWorld,
) -> Result<Option<Change>, AllocError>
    ensures { IfOk result (λ change. (w : World) → IsStanding w entry.now.node entry.now.hash before
        → IsChangeOf w entry.now after.now change) }
{
    let standing = standing_of(alloc, after, entry)?;
    Ok(change_between(before, entry, standing))
}

/// Returns what an entry changes of its service, by what there was before it and what there is after it.
pub fn change_between(before: Standing, entry: &Entry, after: Standing) -> Option<Change>
    ensures { result ≡ change_in before entry.now after }
{
    let Standing {
        published: was,
        is_in: was_in,
    } = before;
    let Standing {
        published: stands,
        is_in,
    } = after;
    match was {
        None => match stands {
            None => None,
            Some(new) => Some(made_by(Happening::Created, new, entry)),
        },
        Some(old) => match stands {
            None => Some(made_by(Happening::Removed, old, entry)),
            Some(new) => passage(was_in, is_in, new, entry),
        },
    }
}

/// Returns what a node changes of a service that remains.
fn passage(was_in: bool, is_in: bool, published: Published, entry: &Entry) -> Option<Change>
    ensures { result ≡ with_entry entry.now (happened_spec (Some published) (Some published) was_in is_in) }
{
    if !was_in && is_in {
        return Some(made_by(Happening::Opened, published, entry));
    }
    if was_in && !is_in {
        return Some(made_by(Happening::Left, published, entry));
    }
    None
}

/// Returns a change with its entry's service and node.
fn made_by(happening: Happening, published: Published, entry: &Entry) -> Change
    ensures { Some result ≡ with_entry entry.now (Some (happening, published)) }
{
    Change {
        happening,
        published,
        hash: entry.hash,
        node: entry.node,
    }
}

/// Returns the word for what happens.
fn word(happening: Happening) -> &'static str
    ensures { result.now ≡ word_of happening }
{
    match happening {
        Happening::Created => "created",
        Happening::Opened => "opened",
        Happening::Left => "left",
        Happening::Removed => "removed",
    }
}

/// Writes a change as a line for people: what happens, the service's pattern, its name without control characters, and
/// the node. `AllocError` if there is no memory.
pub fn change_text(change: &Change, text: &mut String) -> Result<(), AllocError>
    ensures { OnOk result (string_bytes text.new ≡ string_bytes text.old ++ change_line change.now) }
{
    let word = word(change.happening);
    let service = pattern_and_name(*text.allocator(), &change.published.description)?;
    let node = change.node;
    writeln!(text, "{word} {service} by node {node}")
}

/// Returns the value of a change's line for programs.
fn change_value(alloc: Global, change: &Change) -> Result<Value, AllocError>
    ensures { IfOk result (λ value. view value ≡ data_of change.now) }
{
    let description = &change.published.description;
    let mut members = Map::new(alloc);
    put_text(&mut members, alloc, "change", word(change.happening))?;
    put(
        &mut members,
        alloc,
        "hash",
        Value::String(change.hash.to_text(alloc)?),
    )?;
    put_text(&mut members, alloc, "name", description.name().as_str())?;
    put(&mut members, alloc, "node", Value::from(change.node))?;
    put(
        &mut members,
        alloc,
        "number",
        Value::from(change.published.number),
    )?;
    put_text(
        &mut members,
        alloc,
        "pattern",
        term_of(description.messaging_pattern()),
    )?;
    Ok(Value::Object(members))
}

/// Puts a text under a key.
fn put_text(
    members: &mut Map<String, Value>,
    alloc: Global,
    key: &str,
    text: &str,
) -> Result<(), AllocError>
    ensures { OnOk result (members_view members.new.entries
        ≡ with_member key.now (string text.now) (members_view members.old.entries)) }
{
    put(members, alloc, key, Value::try_from_str(alloc, text)?)
}

/// Writes a change as a line for programs: an object of JSON whose keys are `change`, `hash`, `name`, `node`, `number`
/// and `pattern`. `AllocError` if there is no memory.
pub fn change_json(change: &Change, text: &mut String) -> Result<(), AllocError>
    ensures { OnOk result (string_bytes text.new ≡ string_bytes text.old ++ json_line change.now) }
{
    let value = change_value(*text.allocator(), change)?;
    let line = value.to_string(*text.allocator())?;
    writeln!(text, "{line}")
}
