//! The accesses that a builder makes of a storage, and the answers that a storage may give.

ghost use Rattle.std.specs.Prelude.{◌≡◌, ◌∷◌, ℕ, List};
ghost use Rattle.iceoryx2_access.specs.Letter.{Letter, fetch_answer};
ghost use Rattle.iceoryx2_access.specs.Letter as letter;
ghost use Rattle.sha1.specs.Sha1.{sha1};

use iceoryx2_description::description::{ServiceHash, ServiceName, StaticConfig};
use sha1::Sha1;

/// The answers to whether there is a service.
#[derive(Clone, Copy, Debug, PartialEq, Eq)]
pub enum Existence {
    No,
    Yes,
    /// Somebody is creating the service.
    BeingSetUp,
    /// The general fault.
    Fault,
}

/// Why a description isn't fetched.
#[derive(Clone, Copy, Debug, PartialEq, Eq)]
pub enum FetchError {
    DoesNotExist,
    /// Somebody is creating the service.
    NotFinalized,
    /// The general fault.
    OpenFault,
    ReadFault,
    OutOfMemory,
}

/// The way in which a node got its tag.
#[derive(Clone, Copy, Debug, PartialEq, Eq)]
pub enum Tag {
    /// This access made the tag.
    Made,
    /// The tag was there already.
    Found,
}

/// Why a tag isn't made.
#[derive(Clone, Copy, Debug, PartialEq, Eq)]
pub enum TagError {
    /// The general fault.
    Fault,
    OutOfMemory,
}

/// Why something isn't removed.
#[derive(Clone, Copy, Debug, PartialEq, Eq)]
pub enum RemoveError {
    InsufficientPermissions,
    /// The general fault.
    Other,
}

/// Why a service isn't locked.
#[derive(Clone, Copy, Debug, PartialEq, Eq)]
pub enum LockError {
    /// The service has been created.
    AlreadyExists,
    /// Somebody is creating the service.
    Creation,
    InsufficientPermissions,
    /// The general fault.
    Other,
    OutOfMemory,
}

/// Why a segment isn't made.
#[derive(Clone, Copy, Debug, PartialEq, Eq)]
pub enum MakeSegmentError {
    /// A segment is there already.
    AlreadyExists,
    InsufficientPermissions,
    /// The general fault.
    Other,
    OutOfMemory,
}

/// Why a description isn't published.
#[derive(Clone, Copy, Debug, PartialEq, Eq)]
pub enum PublishError {
    /// The general fault.
    Other,
    OutOfMemory,
}

/// Why a segment isn't opened.
#[derive(Clone, Copy, Debug, PartialEq, Eq)]
pub enum OpenSegmentError {
    DoesNotExist,
    /// The segment's last participant has left.
    Marked,
    /// The segment has no room for another node.
    Full,
    /// The general fault, as when the segment has another number.
    Failed,
    /// There is no ticket left.
    OutOfNumbers,
    OutOfMemory,
}

/// The state of a service after a node's release.
#[derive(Clone, Copy, Debug, PartialEq, Eq)]
pub enum Release {
    /// The node still has other tickets for the service.
    StillCounted,
    /// Other nodes have the service.
    Left,
    /// Nobody has the service: this node is to remove it.
    Last,
}

/// Why a ticket isn't released.
#[derive(Clone, Copy, Debug, PartialEq, Eq)]
pub enum ReleaseError {
    /// The general fault: there is no such ticket of this node for this service and number.
    NoSuchTicket,
}

/// A storage, in which nodes leave the settings that they agreed on.
///
/// Each access is one step of the implementation's own step relation, under the access's letter:
/// its arguments with its answer. The builders use nothing else of a storage.
pub trait Storage {
    /// The steps of a storage: its state before an access, the access with its answer, and its state
    /// after the access.
    ghost step: { Self → Letter → Self → Type 0 };

    /// Returns whether there is a service of this hash.
    fn exists(&mut self, hash: &ServiceHash) -> Existence
        ensures { step self.old (letter.Exists hash.now result) self.new };

    /// Returns the service's number and the bytes of its description.
    fn fetch(&mut self, node: u64, hash: &ServiceHash) -> Result<(u64, Vec<u8>), FetchError>
        ensures { step self.old (letter.Fetch node hash.now (fetch_answer result)) self.new };

    /// Returns whether the node is registered at the service already.
    fn counts(&mut self, node: u64, hash: &ServiceHash) -> bool
        ensures { step self.old (letter.Counts node hash.now result) self.new };

    /// Tags the node as one that uses the service.
    fn make_tag(&mut self, node: u64, hash: &ServiceHash) -> Result<Tag, TagError>
        ensures { step self.old (letter.MakeTag node hash.now result) self.new };

    /// Removes the node's tag.
    fn remove_tag(&mut self, node: u64, hash: &ServiceHash) -> Result<(), RemoveError>
        ensures { step self.old (letter.RemoveTag node hash.now result) self.new };

    /// Locks the hash for a new service, and returns that service's number.
    fn lock(&mut self, node: u64, hash: &ServiceHash) -> Result<u64, LockError>
        ensures { step self.old (letter.Lock node hash.now result) self.new };

    /// Makes the locked service's segment, with the node in it.
    fn make_segment(
        &mut self,
        node: u64,
        hash: &ServiceHash,
        number: u64,
        max_nodes: u64,
    ) -> Result<(), MakeSegmentError>
        ensures { step self.old (letter.MakeSegment node hash.now number max_nodes result) self.new };

    /// Removes the segment.
    fn remove_segment(&mut self, node: u64, hash: &ServiceHash) -> Result<(), RemoveError>
        ensures { step self.old (letter.RemoveSegment node hash.now result) self.new };

    /// Removes the description, or the lock that is in its place.
    fn remove_description(&mut self, node: u64, hash: &ServiceHash) -> Result<(), RemoveError>
        ensures { step self.old (letter.RemoveDescription node hash.now result) self.new };

    /// Puts the description in the lock's place, and returns a ticket for the node.
    fn publish(
        &mut self,
        node: u64,
        hash: &ServiceHash,
        number: u64,
        description: &StaticConfig,
    ) -> Result<u64, PublishError>
        ensures { step self.old (letter.Publish node hash.now number description.now result) self.new };

    /// Registers the node in the segment of this number, and returns a ticket.
    fn open_segment(
        &mut self,
        node: u64,
        hash: &ServiceHash,
        number: u64,
    ) -> Result<u64, OpenSegmentError>
        ensures { step self.old (letter.OpenSegment node hash.now number result) self.new };

    /// Spends the ticket.
    fn release(
        &mut self,
        ticket: u64,
        node: u64,
        hash: &ServiceHash,
        number: u64,
    ) -> Result<Release, ReleaseError>
        ensures { step self.old (letter.Release ticket node hash.now number result) self.new };
}

/// A function that makes a service's hash of its pattern's prefix and its name.
pub trait ServiceNameHasher {
    ghost use Rattle.iceoryx2_description.specs.declared.description.ServiceHash.{ServiceHash};

    /// The hash of a prefix and a name's bytes.
    ghost hash_of: { ℕ → List ℕ → ServiceHash };

    /// Returns the hash of a service. The prefix is `e` for events, `p` for publish-subscribe, `r` for
    /// request-response and `b` for a blackboard.
    fn hash(prefix: u8, name: &ServiceName) -> ServiceHash
        ensures { result ≡ hash_of prefix name.now };
}

/// Makes hashes by SHA-1 of the prefix and the name's bytes.
#[derive(Clone, Copy, Debug, PartialEq, Eq)]
pub struct Sha1Hasher;

impl ServiceNameHasher for Sha1Hasher {
    ghost use Rattle.iceoryx2_description.specs.declared.description.ServiceHash.{ServiceHash};

    ghost hash_of = { λ prefix name. record { 0 = sha1 (prefix ∷ name) } };

    fn hash(prefix: u8, name: &ServiceName) -> ServiceHash {
        let mut hasher = Sha1::new();
        hasher.update(&[prefix]);
        hasher.update(name.as_str().as_bytes());
        ServiceHash(hasher.finalize())
    }
}

/// A storage, and the function that makes the hashes of the services in it.
pub trait Service {
    type Storage: Storage;

    type ServiceNameHasher: ServiceNameHasher;
}
