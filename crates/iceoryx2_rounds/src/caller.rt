//! The caller: a node, the service that it calls for, and the time.

ghost use Rattle.std.specs.Prelude.{◌≡◌};

use iceoryx2_description::description::{ServiceHash, ServiceName};
use iceoryx2_description::time::{ClockFault, Time};
use std::alloc::AllocError;

/// The caller that creates or opens a service: the node, the service and the time.
pub struct Caller {
    /// The node.
    pub node: u64,
    /// The hash of the service's name after its pattern's prefix.
    pub hash: ServiceHash,
    /// The service's name, under which a create publishes it.
    pub name: ServiceName,
    /// The clock's answer. Only a create asks for it, and only if its pattern publishes when the
    /// service was created.
    pub clock: Result<Time, ClockFault>,
}

impl Caller {
    /// The service's name.
    pub(crate) fn into_name(self) -> ServiceName
        ensures { result ≡ self.name }
    {
        let Caller {
            node: _,
            hash: _,
            name,
            clock: _,
        } = self;
        name
    }
}

// Written out, so that a proof of what lets one go doesn't take its fields apart.
impl Drop for Caller {
    fn drop(self) {
        let Caller {
            node: _,
            hash: _,
            name: _,
            clock: _,
        } = self;
    }
}

impl Clone for Caller {
    ghost use Rattle.std.specs.Prelude.{◌≡◌};

    ghost is_clone = { λ caller copy. copy ≡ caller };

    /// Returns `AllocError` if there was no memory for the name.
    fn clone(&self) -> Result<Caller, AllocError> {
        Ok(Caller {
            node: self.node,
            hash: self.hash,
            name: self.name.clone()?,
            clock: self.clock,
        })
    }
}
