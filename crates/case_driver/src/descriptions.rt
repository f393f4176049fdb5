//! The bytes of descriptions that have names.

use crate::case_error::CaseError;
use crate::words::{first_word, number};
use iceoryx2_builder::command::{Call, Command};
use iceoryx2_data::bytes::decode;
use iceoryx2_description::description::StaticConfig;
use std::alloc::{AllocError, Global};
use test_support::lines::{command_in, created};

/// The bytes of descriptions, with their names.
#[derive(Drop)]
pub struct Descriptions {
    pub all: Vec<(String, Vec<u8>)>,
}

/// Returns the call that a line states.
pub fn call_in(alloc: Global, line: &str) -> Result<Call, CaseError> {
    match command_in(alloc, line) {
        Some(Command::Call(call)) => Ok(call),
        _ => Err(CaseError),
    }
}

/// Returns the bytes that hexadecimal digits encode.
pub fn bytes_in(alloc: Global, digits: &str) -> Result<Vec<u8>, CaseError> {
    match hex::decode(alloc, digits) {
        Ok(bytes) => Ok(bytes),
        Err(_) => Err(CaseError),
    }
}

/// Returns the bytes of the same description without a creator: in version 1, no number follows the version.
fn without_creator(alloc: Global, bytes: &[u8]) -> Result<Vec<u8>, AllocError> {
    let mut all = Vec::new(alloc);
    all.extend_from_slice(b"IOX2\x01")?;
    all.extend_from_slice(bytes.get(13..).unwrap_or(&[]))?;
    Ok(all)
}

/// Returns the bytes of a service with its terms and with this creator, or with none.
fn described(alloc: Global, text: &str, creator: &str) -> Result<Vec<u8>, CaseError> {
    let (pattern, rest) = first_word(text);
    match first_word(creator) {
        ("by", node) => {
            let node = number(node)?;
            let line = format!(in alloc; "{pattern} create {node} 0 {rest}")?;
            created(alloc, line.as_str()).ok_or(CaseError)
        }
        _ => {
            let line = format!(in alloc; "{pattern} create 0 0 {rest}")?;
            let bytes = created(alloc, line.as_str()).ok_or(CaseError)?;
            Ok(without_creator(alloc, &bytes)?)
        }
    }
}

impl Descriptions {
    /// Adds the description of `NAME [by NODE] = PATTERN SERVICE [TERM ..]` or `NAME = hex DIGITS`.
    pub fn add(&mut self, alloc: Global, text: &str) -> Result<(), CaseError> {
        let Some((front, meant)) = text.split_once('=') else {
            return Err(CaseError);
        };
        let (name, creator) = first_word(front);
        let bytes = match first_word(meant) {
            ("hex", digits) => bytes_in(alloc, digits)?,
            _ => described(alloc, meant.trim(), creator)?,
        };
        Ok(self.all.push((String::from_str(alloc, name)?, bytes))?)
    }

    /// Returns the bytes of the last description with this name.
    pub fn bytes(&self, name: &str) -> Result<&[u8], CaseError> {
        for (known, bytes) in self.all.iter().rev() {
            if known.as_str() == name {
                return Ok(bytes.as_slice());
            }
        }
        Err(CaseError)
    }

    /// Returns the last description with this name.
    pub fn description(&self, alloc: Global, name: &str) -> Result<StaticConfig, CaseError> {
        match decode(alloc, self.bytes(name)?) {
            Ok(description) => Ok(description),
            Err(_) => Err(CaseError),
        }
    }

    /// Writes the first name of these bytes, or their digits if they have no name.
    pub fn write_name(
        &self,
        alloc: Global,
        bytes: &[u8],
        text: &mut String,
    ) -> Result<(), AllocError> {
        for (name, known) in &self.all {
            if known.as_slice() == bytes {
                return text.push_str(name.as_str());
            }
        }
        text.push_str(hex::encode(alloc, bytes)?.as_str())
    }
}
