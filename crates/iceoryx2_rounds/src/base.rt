//! The parts of a builder once its pattern is chosen.

ghost use Rattle.std.specs.Prelude.{◌≡◌};
ghost use Rattle.iceoryx2_rounds.specs.Facts.{caller_of};

use crate::caller::Caller;
use iceoryx2_access::storage::{Service, ServiceNameHasher};
use iceoryx2_description::description::ServiceName;
use iceoryx2_description::time::{ClockFault, Time};
use std::alloc::AllocError;
use std::marker::{Model, PhantomData};

/// The parts of a builder once its pattern is chosen, whatever the pattern is: the node and the
/// name.
/// Hidden in iceoryx2.
pub struct BuilderWithServiceType<S: Service> {
    node: u64,
    name: ServiceName,
    service: PhantomData<S>,
}

impl<S: Service> Model for BuilderWithServiceType<S> {
    ghost use Rattle.iceoryx2_rounds.specs.Facts.{ServiceFacts};

    ghost Value = { ServiceFacts };

    ghost view = { λ base. record { node = base.node; name = base.name } };
}

impl<S: Service> Drop for BuilderWithServiceType<S> {
    fn drop(self) {
        let BuilderWithServiceType {
            node: _,
            name: _,
            service: _,
        } = self;
    }
}

impl<S: Service> Clone for BuilderWithServiceType<S> {
    ghost use Rattle.std.specs.Prelude.{◌≡◌};

    ghost is_clone = { λ base copy. copy ≡ base };

    /// Returns `AllocError` if there was no memory for the name.
    fn clone(&self) -> Result<BuilderWithServiceType<S>, AllocError> {
        Ok(BuilderWithServiceType {
            node: self.node,
            name: self.name.clone()?,
            service: PhantomData,
        })
    }
}

impl<S: Service> BuilderWithServiceType<S> {
    /// Returns the parts of a builder of this node, for the service of this name.
    pub fn new(node: u64, name: ServiceName) -> Self
        ensures { result ≡ record { node = node; name = name } }
    {
        BuilderWithServiceType {
            node,
            name,
            service: PhantomData,
        }
    }

    /// Returns the service's name.
    pub fn name(&self) -> &ServiceName
        ensures { result.now ≡ self.now.name }
    {
        &self.name
    }

    /// Returns the node as the caller for the service of this name, of the pattern with this
    /// prefix.
    pub fn into_caller(self, prefix: u8, clock: Result<Time, ClockFault>) -> Caller
        ensures { result ≡ caller_of S.ServiceNameHasher.hash_of prefix self clock }
    {
        let BuilderWithServiceType {
            node,
            name,
            service: _,
        } = self;
        let hash = S::ServiceNameHasher::hash(prefix, &name);
        Caller {
            node,
            hash,
            name,
            clock,
        }
    }
}
