//! The factory of a service, whatever its pattern.

ghost use Rattle.std.specs.Prelude.{◌≡◌, Bool, true};
ghost use Rattle.iceoryx2_description.specs.declared.description.MessagingPattern.{MessagingPattern};
ghost use Rattle.iceoryx2_access.specs.Run.{Joins};
ghost use Rattle.iceoryx2_rounds.specs.Closes.{IsCloseWord};

use crate::port_factory::{CloseError, Registration};
use iceoryx2_access::storage::Service;
use iceoryx2_attribute::attribute::AttributeSet;
use iceoryx2_description::description::{MessagingPattern, ServiceHash, ServiceName};
use std::marker::{Model, PhantomData};

/// The kind of one pattern's services: how they differ from those of others.
pub trait Kind {
    /// The settings of its services.
    type StaticConfig;

    /// True if a description is of this pattern.
    ghost is_of: { MessagingPattern → Bool };

    /// The description's part with these settings.
    ghost of_settings: { Self.StaticConfig → MessagingPattern };

    /// Returns the settings of a description that is of this pattern.
    fn settings(pattern: &MessagingPattern) -> &Self::StaticConfig
        requires { is_of pattern.now ≡ true }
        ensures { of_settings result.now ≡ pattern.now };
}

/// An opened service of one pattern. It has to be spent, by `close` or `abandon`.
pub struct PortFactory<S: Service, K: Kind> {
    registration: Registration,
    service: PhantomData<S>,
    kind: PhantomData<K>,
}

impl<S: Service, K: Kind> Model for PortFactory<S, K> {
    ghost use Rattle.std.specs.Prelude.{◌≡◌, true};
    ghost use Rattle.iceoryx2_access.specs.Registered.{Registered};

    ghost Value = { Registered };

    ghost view = { λ factory. factory.registration };

    ghost invariant = { λ factory. K.is_of factory.registration.description.pattern ≡ true };
}

impl<S: Service, K: Kind> PortFactory<S, K> {
    /// Returns the factory of a registration at a service of the pattern.
    pub fn new(registration: Registration) -> PortFactory<S, K>
        requires { K.is_of registration.description.pattern ≡ true }
        ensures { result ≡ registration }
    {
        PortFactory {
            registration,
            service: PhantomData,
            kind: PhantomData,
        }
    }

    /// Returns the service's name.
    pub fn name(&self) -> &ServiceName
        ensures { result.now ≡ self.now.description.name }
    {
        self.registration.description().name()
    }

    /// Returns the service's hash.
    pub fn service_hash(&self) -> &ServiceHash
        ensures { result.now ≡ self.now.description.hash }
    {
        self.registration.description().service_hash()
    }

    /// Returns the service's attributes.
    pub fn attributes(&self) -> &AttributeSet
        ensures { result.now ≡ self.now.description.attributes }
    {
        self.registration.description().attributes()
    }

    /// Returns the id of the node that created the service, if its description tells it.
    pub fn creator(&self) -> Option<u64>
        ensures { result ≡ self.now.description.creator }
    {
        self.registration.description().creator()
    }

    /// Returns the service's settings.
    pub fn static_config(&self) -> &K::StaticConfig
        ensures { K.of_settings result.now ≡ self.now.description.pattern }
    {
        K::settings(self.registration.description().messaging_pattern())
    }

    /// Returns the service's number.
    pub fn number(&self) -> u64
        ensures { result ≡ self.now.number }
    {
        self.registration.number()
    }

    /// Returns the node that opened the service.
    pub fn node(&self) -> u64
        ensures { result ≡ self.now.node }
    {
        self.registration.node()
    }

    /// Closes the factory at its storage. `NotHere` gives it back unchanged, and nothing changes at
    /// the storage.
    pub fn close(self, storage: &mut S::Storage) -> Result<(), CloseError<PortFactory<S, K>>>
        ensures { Joins S.Storage.step storage.old (λ word. IsCloseWord self word result) storage.new }
    {
        match self.into_registration().close(storage) {
            Ok(()) => Ok(()),
            Err(error) => Err(match error {
                CloseError::NotHere(registration) => {
                    CloseError::NotHere(PortFactory::new(registration))
                }
                CloseError::TagNotRemoved => CloseError::TagNotRemoved,
                CloseError::SegmentNotRemoved => CloseError::SegmentNotRemoved,
                CloseError::DescriptionNotRemoved => CloseError::DescriptionNotRemoved,
            }),
        }
    }

    /// Returns its registration alone, which knows no pattern.
    pub fn into_registration(self) -> Registration
        ensures value { result ≡ self }
        ensures pattern { K.is_of self.description.pattern ≡ true }
    {
        let PortFactory {
            registration,
            service: _,
            kind: _,
        } = self;
        registration
    }

    /// Spends the factory without any access: its ticket and its registration stay.
    pub fn abandon(self) {
        self.into_registration().abandon();
    }
}
