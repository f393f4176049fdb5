//! The services and nodes that a run named.

use crate::case_error::CaseError;
use crate::words::{first_word, named};
use iceoryx2_access::storage::{ServiceNameHasher, Sha1Hasher};
use iceoryx2_description::description::{ServiceHash, ServiceName};
use std::alloc::{AllocError, Global};

/// Services and nodes, each once, in the order in which they were named. A service has its pattern and name, and its
/// hash.
#[derive(Drop)]
pub struct Known {
    pub services: Vec<(String, ServiceHash)>,
    pub nodes: Vec<u64>,
}

/// The byte that is hashed before the name.
const PREFIXES: [(&str, u8); 3] = [("event", b'e'), ("pubsub", b'p'), ("rr", b'r')];

/// Returns the hash of the service `PATTERN NAME`.
pub fn hash_of(alloc: Global, service: &str) -> Result<ServiceHash, CaseError> {
    let (pattern, name) = first_word(service);
    let prefix = named(&PREFIXES, pattern)?;
    match ServiceName::new(alloc, name) {
        Ok(name) => Ok(Sha1Hasher::hash(prefix, &name)),
        Err(_) => Err(CaseError),
    }
}

impl Known {
    /// Returns whether a service of this hash was named.
    pub fn has(&self, hash: &ServiceHash) -> bool {
        self.services.iter().any(|service| service.1 == *hash)
    }

    /// Returns the pattern and name of the service of this hash, if it was named.
    pub fn title(&self, hash: &ServiceHash) -> Option<&str> {
        for (title, named) in &self.services {
            if named == hash {
                return Some(title.as_str());
            }
        }
        None
    }

    /// Adds the service `PATTERN NAME` if it is new, and returns its hash.
    pub fn add_service(&mut self, alloc: Global, service: &str) -> Result<ServiceHash, CaseError> {
        let hash = hash_of(alloc, service)?;
        if !self.has(&hash) {
            self.services
                .push((String::from_str(alloc, service)?, hash))?;
        }
        Ok(hash)
    }

    /// Adds a node if it is new.
    pub fn add_node(&mut self, node: u64) -> Result<(), AllocError> {
        if !self.nodes.iter().any(|other| *other == node) {
            self.nodes.push(node)?;
        }
        Ok(())
    }
}
