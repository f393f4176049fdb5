//! The registration that holds an opened service, and its closing.

ghost use Rattle.std.specs.Prelude.{◌≡◌};
ghost use Rattle.iceoryx2_access.specs.Run.{Joins};
ghost use Rattle.iceoryx2_rounds.specs.Closes.{IsCloseWord, first_refused};

pub mod event;
pub mod factory;
pub mod publish_subscribe;
pub mod request_response;

use iceoryx2_access::storage::{Release, ReleaseError, RemoveError, Storage};
use iceoryx2_description::description::StaticConfig;
pub use iceoryx2_errors::error::CloseError;
use std::marker::Model;

/// A node's registration at a service. It has to be spent, by `close` or `abandon`.
pub struct Registration {
    node: u64,
    number: u64,
    ticket: u64,
    description: StaticConfig,
}

impl Model for Registration {
    ghost use Rattle.iceoryx2_access.specs.Registered.{Registered};

    ghost Value = { Registered };

    ghost view = { λ r. record { node = r.node; number = r.number; ticket = r.ticket; description = r.description } };
}

/// Returns the first removal that was refused.
fn answer<F>(
    tag: Result<(), RemoveError>,
    segment: Result<(), RemoveError>,
    description: Result<(), RemoveError>,
) -> Result<(), CloseError<F>>
    ensures { result ≡ first_refused tag segment description }
{
    if tag.is_err() {
        return Err(CloseError::TagNotRemoved);
    }
    if segment.is_err() {
        return Err(CloseError::SegmentNotRemoved);
    }
    if description.is_err() {
        return Err(CloseError::DescriptionNotRemoved);
    }
    Ok(())
}

impl Registration {
    pub fn new(node: u64, number: u64, ticket: u64, description: StaticConfig) -> Registration
        ensures { result ≡ (record { node = node; number = number; ticket = ticket; description = description }) }
    {
        Registration {
            node,
            number,
            ticket,
            description,
        }
    }

    /// Returns the node that is registered.
    pub fn node(&self) -> u64
        ensures { result ≡ self.now.node }
    {
        self.node
    }

    /// Returns the service's number.
    pub fn number(&self) -> u64
        ensures { result ≡ self.now.number }
    {
        self.number
    }

    /// Returns the node's ticket for the service.
    pub fn ticket(&self) -> u64
        ensures { result ≡ self.now.ticket }
    {
        self.ticket
    }

    /// Returns the service's description.
    pub fn description(&self) -> &StaticConfig
        ensures { result.now ≡ self.now.description }
    {
        &self.description
    }

    /// Gives the ticket back. The last node removes the service: its own tag, the segment, and the
    /// description. It tries each removal, and the error names the first refused one.
    pub fn close<S: Storage>(self, storage: &mut S) -> Result<(), CloseError<Registration>>
        ensures { Joins S.step storage.old (λ word. IsCloseWord self word result) storage.new }
    {
        let hash = *self.description.service_hash();
        let left = match storage.release(self.ticket, self.node, &hash, self.number) {
            Err(ReleaseError::NoSuchTicket) => return Err(CloseError::NotHere(self)),
            Ok(left) => left,
        };
        let node = self.node;
        self.abandon();
        match left {
            Release::StillCounted => Ok(()),
            Release::Left => {
                let tag = storage.remove_tag(node, &hash);
                answer(tag, Ok(()), Ok(()))
            }
            Release::Last => {
                let tag = storage.remove_tag(node, &hash);
                let segment = storage.remove_segment(node, &hash);
                let description = storage.remove_description(node, &hash);
                answer(tag, segment, description)
            }
        }
    }

    /// Spends the registration without any access. The ticket stays, and so does the node's
    /// registration.
    pub fn abandon(self) {
        let Registration {
            node: _,
            number: _,
            ticket: _,
            description: _,
        } = self;
    }
}
