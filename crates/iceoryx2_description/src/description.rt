//! The description that nodes that share a service agree on.

ghost use Rattle.std.specs.Prelude.{◌≡◌, ◌<◌, ◌≤◌, ◌↔◌, ◌⊎◌, Err, IfOk, OnOk, IsTrue, All, length, string_bytes};
ghost use Rattle.std.specs.Prelude.{Some, None};
ghost use Rattle.hex.specs.Hex.{encode_lower};
ghost use Rattle.iceoryx2_description.specs.Names.{IsName};
ghost use Rattle.iceoryx2_description.specs.Description.{IsHash, IsPattern};

use crate::{event, publish_subscribe, request_response};
use iceoryx2_attribute::attribute::AttributeSet;
use std::alloc::{AllocError, Global};
use std::error::Error;
use std::fmt;
use std::marker::Model;

/// The length of a hash, in bytes.
pub const HASH_LENGTH: usize = 20;

/// The length of the shortest name, in bytes.
pub const MIN_NAME_LENGTH: usize = 1;

/// The length of the longest name, in bytes.
pub const MAX_NAME_LENGTH: usize = 255;

/// States the limits as numbers, because a wrong constant would also change the definitions that cite
/// it.
pub fn limits_of_names()
    ensures hash { HASH_LENGTH ≡ 20 }
    ensures min_name { MIN_NAME_LENGTH ≡ 1 }
    ensures max_name { MAX_NAME_LENGTH ≡ 255 }
{}

/// A service's name: 1 to 255 bytes of UTF-8.
#[derive(Debug)]
pub struct ServiceName {
    text: String,
}

// Written out, so that a proof of what lets one go doesn't take its fields apart.
impl Drop for ServiceName {
    fn drop(self) {
        let ServiceName { text: _ } = self;
    }
}

impl Model for ServiceName {
    ghost use Rattle.std.specs.Prelude.{List, ℕ, string_bytes};
    ghost use Rattle.iceoryx2_description.specs.Names.{IsName};

    ghost Value = { List ℕ };

    ghost view = { λ name. string_bytes name.text };

    ghost invariant = { λ name. IsName (string_bytes name.text) };
}

/// Why a text is not a service's name.
#[derive(Clone, Copy, Debug, PartialEq, Eq)]
pub enum ServiceNameError {
    /// The text is empty, or longer than 255 bytes.
    Length,
    /// There was no memory for a copy of the text.
    OutOfMemory,
}

impl fmt::Display for ServiceNameError {
    ghost use Rattle.std.specs.Prelude.{Some};
    ghost use Rattle.iceoryx2_description.specs.Errors.{service_name_error_text};

    ghost output = { λ error. Some (service_name_error_text error) };

    fn fmt<W: fmt::Write>(&self, f: &mut fmt::Formatter<W>) -> fmt::Result {
        match self {
            ServiceNameError::Length => write!(f, "a service's name has 1 to 255 bytes"),
            ServiceNameError::OutOfMemory => write!(f, "out of memory"),
        }
    }
}

impl Error for ServiceNameError {}

impl ServiceName {
    /// Returns a copy of the text as a name. The errors, tested in this order: `Length` if the text
    /// does not have 1 to 255 bytes, and `OutOfMemory` if there was no memory for the copy.
    #[tactic(auto, using(crate::proofs::Utf8::is_text))]
    pub fn new(alloc: Global, text: &str) -> Result<ServiceName, ServiceNameError>
        ensures name { IfOk result (λ name. name ≡ text.now) }
        ensures length { (result ≡ Err ServiceNameError.Length)
            ↔ ((length text.now < MIN_NAME_LENGTH) ⊎ (MAX_NAME_LENGTH < length text.now)) }
    {
        if text.len() < MIN_NAME_LENGTH || text.len() > MAX_NAME_LENGTH {
            return Err(ServiceNameError::Length);
        }
        match String::from_str(alloc, text) {
            Ok(text) => Ok(ServiceName::from_text(text)),
            Err(_) => Err(ServiceNameError::OutOfMemory),
        }
    }

    /// Returns the text as a name. The text's length is already within the limits.
    pub fn from_text(text: String) -> ServiceName
        requires { IsName (string_bytes text) }
        ensures { result ≡ string_bytes text }
    {
        ServiceName { text }
    }

    /// Returns the allocator that the name's memory comes from.
    pub fn allocator(&self) -> Global {
        *self.text.allocator()
    }

    /// Returns the name as a text.
    pub fn as_str(&self) -> &str
        ensures value { result.now ≡ self.now }
        ensures text { IsName self.now }
    {
        &self.text
    }
}

impl PartialEq for ServiceName {
    ghost use Rattle.std.specs.Prelude.{bytes_eq};
    ghost use Rattle.std.proofs.Common.{rules};
    ghost use Rattle.std.specs.Cmp.Rules.{comparing};

    ghost eq = { bytes_eq };

    ghost laws = { Prim.search (comparing, rules) };

    fn eq(&self, other: &ServiceName) -> bool {
        self.as_str() == other.as_str()
    }
}

impl Eq for ServiceName {
    ghost use Rattle.std.proofs.Common.{rules};
    ghost use Rattle.std.specs.Cmp.Rules.{comparing};

    ghost laws = { Prim.search (comparing, rules) };
}

impl fmt::Display for ServiceName {
    ghost use Rattle.std.specs.Prelude.{Some};

    ghost output = { λ name. Some name };

    fn fmt<W: fmt::Write>(&self, f: &mut fmt::Formatter<W>) -> fmt::Result {
        write!(f, "{}", self.as_str())
    }
}

impl Clone for ServiceName {
    ghost use Rattle.std.specs.Prelude.{◌≡◌};

    ghost is_clone = { λ name copy. copy ≡ name };

    fn clone(&self) -> Result<ServiceName, AllocError> {
        Ok(ServiceName {
            text: self.text.clone()?,
        })
    }
}

/// The hash by which a service is found.
#[derive(Clone, Copy, Debug, PartialEq, Eq, PartialOrd, Ord)]
pub struct ServiceHash(pub [u8; HASH_LENGTH]);

impl ServiceHash {
    /// Returns the hash in 40 hexadecimal digits, in lower case.
    pub fn to_text(&self, alloc: Global) -> Result<String, AllocError>
        ensures { IfOk result (λ text. string_bytes text ≡ encode_lower self.now.0) }
    {
        hex::encode(alloc, self.as_bytes())
    }

    pub fn as_bytes(&self) -> &[u8]
        ensures value { result.now ≡ self.now.0 }
        ensures limits { IsHash self.now }
    {
        let bytes = self.0.as_slice();
        are_bytes(bytes);
        bytes
    }
}

/// A service's pattern with its settings.
#[derive(Debug, PartialEq, Eq)]
pub enum MessagingPattern {
    /// A service of events.
    Event(event::StaticConfig),
    /// A service of publish-subscribe.
    PublishSubscribe(publish_subscribe::StaticConfig),
    /// A service of request-response.
    RequestResponse(request_response::StaticConfig),
}

// Written out, so that a proof of what lets one go doesn't take its fields apart.
impl Drop for MessagingPattern {
    fn drop(self) {
        match self {
            MessagingPattern::Event(_) => {}
            MessagingPattern::PublishSubscribe(_) => {}
            MessagingPattern::RequestResponse(_) => {}
        }
    }
}

impl MessagingPattern {
    ghost use Rattle.iceoryx2_description.specs.Description.{IsSamePattern};

    /// Returns whether both are of the same pattern, whatever their settings.
    pub fn is_same_pattern(&self, other: &MessagingPattern) -> bool
        ensures { IsTrue result ↔ IsSamePattern self.now other.now }
    {
        match (self, other) {
            (MessagingPattern::Event(_), MessagingPattern::Event(_)) => true,
            (MessagingPattern::PublishSubscribe(_), MessagingPattern::PublishSubscribe(_)) => true,
            (MessagingPattern::RequestResponse(_), MessagingPattern::RequestResponse(_)) => true,
            (MessagingPattern::Event(_), MessagingPattern::PublishSubscribe(_)) => false,
            (MessagingPattern::Event(_), MessagingPattern::RequestResponse(_)) => false,
            (MessagingPattern::PublishSubscribe(_), MessagingPattern::Event(_)) => false,
            (MessagingPattern::PublishSubscribe(_), MessagingPattern::RequestResponse(_)) => false,
            (MessagingPattern::RequestResponse(_), MessagingPattern::Event(_)) => false,
            (MessagingPattern::RequestResponse(_), MessagingPattern::PublishSubscribe(_)) => false,
        }
    }
}

/// Each of these numbers is a byte.
fn are_bytes(bytes: &[u8])
    ensures { All (λ b. b < 256) bytes.now }
{
    let _length = bytes.len();
}

/// The numbers are within the limits of their types.
fn pattern_fits(pattern: &MessagingPattern)
    ensures { IsPattern pattern.now }
{
    match pattern {
        MessagingPattern::Event(settings) => settings.fits(),
        MessagingPattern::PublishSubscribe(settings) => settings.fits(),
        MessagingPattern::RequestResponse(settings) => settings.fits(),
    }
}

/// The description that nodes that share a service agree on: its hash, its name, its attributes, and
/// its pattern with the settings. It may also tell which node created the service.
#[derive(Debug, PartialEq, Eq)]
pub struct StaticConfig {
    hash: ServiceHash,
    name: ServiceName,
    attributes: AttributeSet,
    pattern: MessagingPattern,
    creator: Option<u64>,
}

// Written out, so that a proof of what lets one go doesn't take its fields apart.
impl Drop for StaticConfig {
    fn drop(self) {
        let StaticConfig {
            hash: _,
            name: _,
            attributes: _,
            pattern: _,
            creator: _,
        } = self;
    }
}

impl Model for StaticConfig {
    ghost use Rattle.iceoryx2_description.specs.Description.{Description};

    ghost Value = { Description };

    ghost view = { λ d. record {
      hash = d.hash;
      name = d.name;
      attributes = d.attributes;
      pattern = d.pattern;
      creator = d.creator;
    } };

    ghost use Rattle.iceoryx2_description.specs.Description.{IsDescription};

    ghost invariant = { λ d. IsDescription (record {
      hash = d.hash;
      name = d.name;
      attributes = d.attributes;
      pattern = d.pattern;
      creator = d.creator;
    }) };

    ghost inverse = { λ d. record {
      hash = d.hash;
      name = d.name;
      attributes = d.attributes;
      pattern = d.pattern;
      creator = d.creator;
    } };
}

impl StaticConfig {
    ghost use Rattle.iceoryx2_description.specs.Description.{IsDescription, max_nodes_of};

    /// Returns the description of these parts, without a creator.
    pub fn new(
        hash: ServiceHash,
        name: ServiceName,
        attributes: AttributeSet,
        pattern: MessagingPattern,
    ) -> StaticConfig
        ensures value { result ≡ (record {
          hash = hash;
          name = name;
          attributes = attributes;
          pattern = pattern;
          creator = None;
        }) }
        ensures limits { IsDescription result }
    {
        let _bytes = hash.as_bytes();
        let _text = name.as_str();
        let _pairs = attributes.pairs();
        pattern_fits(&pattern);
        StaticConfig {
            hash,
            name,
            attributes,
            pattern,
            creator: None,
        }
    }

    /// Returns the same description with this node as its creator, instead of any that it had before.
    pub fn with_creator(self, creator: u64) -> StaticConfig
        ensures value { result ≡ record self { creator = Some creator } }
        ensures limits { IsDescription result }
    {
        let StaticConfig {
            hash,
            name,
            attributes,
            pattern,
            creator: _,
        } = self;
        let creator = Some(creator);
        StaticConfig {
            hash,
            name,
            attributes,
            pattern,
            creator,
        }
    }

    /// Returns the hash by which the service is found.
    pub fn service_hash(&self) -> &ServiceHash
        ensures value { result.now ≡ self.now.hash }
        ensures limits { IsDescription self.now }
    {
        &self.hash
    }

    /// Returns the service's name.
    pub fn name(&self) -> &ServiceName
        ensures value { result.now ≡ self.now.name }
        ensures limits { IsDescription self.now }
    {
        &self.name
    }

    /// Returns the service's attributes.
    pub fn attributes(&self) -> &AttributeSet
        ensures value { result.now ≡ self.now.attributes }
        ensures limits { IsDescription self.now }
    {
        &self.attributes
    }

    /// Returns the service's pattern with its settings.
    pub fn messaging_pattern(&self) -> &MessagingPattern
        ensures value { result.now ≡ self.now.pattern }
        ensures limits { IsDescription self.now }
    {
        &self.pattern
    }

    /// Returns the id of the node that created the service, if the description lists it.
    pub fn creator(&self) -> Option<u64>
        ensures value { result ≡ self.now.creator }
        ensures limits { IsDescription self.now }
    {
        self.creator
    }

    /// Returns the number of nodes that the service has room for.
    pub fn max_nodes(&self) -> u64
        ensures value { result ≡ max_nodes_of self.now.pattern }
        ensures limits { IsDescription self.now }
    {
        match &self.pattern {
            MessagingPattern::Event(settings) => settings.max_nodes,
            MessagingPattern::PublishSubscribe(settings) => settings.max_nodes,
            MessagingPattern::RequestResponse(settings) => settings.max_nodes,
        }
    }
}
