//! Questions about attributes and types.

use crate::case_error::CaseError;
use crate::known::hash_of;
use crate::words::{first_word, named, number};
use iceoryx2_attribute::attribute::{AttributeError, AttributeSpecifier, AttributeVerifier};
use iceoryx2_builder::command::{Refusal, Reply};
use iceoryx2_description::description::{ServiceName, ServiceNameError};
use iceoryx2_types::types::{MessageTypeDetails, TypeDetail, TypeDetailError, TypeVariant};
use negotiate_serve::reply::describe;
use std::alloc::Global;
use test_support::terms::variant_word;

const VARIANTS: [(&str, TypeVariant); 2] = [
    ("fixed", TypeVariant::FixedSize),
    ("dynamic", TypeVariant::Dynamic),
];

/// Returns the name of an error of attributes.
fn name_of(error: AttributeError) -> &'static str {
    match error {
        AttributeError::KeyLength => "KeyLength",
        AttributeError::ValueLength => "ValueLength",
        AttributeError::TooMany => "TooMany",
        AttributeError::OutOfMemory => "OutOfMemory",
    }
}

/// Writes the text of the refusal of this number, or `none`.
pub fn write_refusal(number: u64, text: &mut String) -> Result<(), CaseError> {
    match Refusal::from_number(number) {
        Some(refusal) => Ok(describe(&Reply::Refused(refusal), 0, text)?),
        None => Ok(text.push_str("none")?),
    }
}

/// Returns the text of a word. Two quotes state an empty text.
fn text_in(word: &str) -> &str {
    if word == "\"\"" { "" } else { word }
}

/// Defines the pairs `K V; K V; ..`, or returns the place of the first pair that is refused, and why.
fn define(specifier: &mut AttributeSpecifier, pairs: &str) -> Result<(), (u64, AttributeError)> {
    let mut place = 0u64;
    for pair in pairs.split(';') {
        let (key, value) = first_word(pair);
        place = place.saturating_add(1);
        match specifier.define(text_in(key), text_in(value)) {
            Ok(()) => {}
            Err(error) => return Err((place, error)),
        }
    }
    Ok(())
}

/// Defines pairs, and writes all pairs in their order, or the first refusal with its place.
pub fn write_defined(alloc: Global, pairs: &str, text: &mut String) -> Result<(), CaseError> {
    let mut specifier = AttributeSpecifier::new(alloc);
    if let Err((place, error)) = define(&mut specifier, pairs) {
        let name = name_of(error);
        return Ok(write!(text, "{name} at {place}")?);
    }
    for pair in specifier.attributes().pairs() {
        let (key, value) = (pair.key(), pair.value());
        write!(text, "{key}={value} ")?;
    }
    Ok(())
}

/// Requires the pairs and keys of `K:V .. | K ..`, or defines the pairs in a set if `are_had`.
fn require(
    verifier: &mut AttributeVerifier,
    set: &mut AttributeSpecifier,
    (words, are_had): (&str, bool),
) -> Result<(), AttributeError> {
    for word in words.split_whitespace() {
        match word.split_once(':') {
            Some((key, value)) if are_had => set.define(key, value)?,
            Some((key, value)) => verifier.require(key, value)?,
            None if word == "|" => {}
            None => verifier.require_key(word)?,
        }
    }
    Ok(())
}

/// Writes the first key of `PAIRS | KEYS` that the set of `PAIRS | KEYS | SET` lacks, or `met`.
pub fn write_required(alloc: Global, text: &str, answer: &mut String) -> Result<(), CaseError> {
    let Some((required, had)) = text.rsplit_once('|') else {
        return Err(CaseError);
    };
    let mut verifier = AttributeVerifier::new(alloc);
    let mut set = AttributeSpecifier::new(alloc);
    for (words, are_had) in [(required, false), (had, true)] {
        if require(&mut verifier, &mut set, (words, are_had)).is_err() {
            return Err(CaseError);
        }
    }
    match verifier.verify_requirements(set.attributes()) {
        Ok(()) => Ok(answer.push_str("met")?),
        Err(key) => Ok(answer.push_str(key)?),
    }
}

/// Returns the parts of a type `VARIANT NAME SIZE ALIGNMENT`, which this character separates.
fn parts_of(text: &str, separator: char) -> Option<(&str, &str, &str, &str)> {
    let (variant, rest) = text.trim().split_once(separator)?;
    let (rest, alignment) = rest.rsplit_once(separator)?;
    let (name, size) = rest.rsplit_once(separator)?;
    Some((variant, name, size, alignment))
}

/// Returns the type of these parts, or why there is none.
fn detail_in(
    alloc: Global,
    text: &str,
    separator: char,
) -> Result<Result<TypeDetail, TypeDetailError>, CaseError> {
    let Some((variant, name, size, alignment)) = parts_of(text, separator) else {
        return Err(CaseError);
    };
    let variant = named(&VARIANTS, variant)?;
    let (size, alignment) = (number(size)?, number(alignment)?);
    Ok(TypeDetail::new(alloc, variant, text_in(name), size, alignment))
}

/// Writes a type as it states itself, or why there is none.
pub fn write_type(alloc: Global, text: &str, answer: &mut String) -> Result<(), CaseError> {
    match detail_in(alloc, text, ' ')? {
        Ok(detail) => {
            let (variant, name) = (variant_word(&detail), detail.type_name());
            let (size, alignment) = (detail.size(), detail.alignment());
            Ok(write!(answer, "{variant} {name} {size} {alignment}")?)
        }
        Err(TypeDetailError::OutOfMemory) => Err(CaseError),
        Err(error) => Ok(write!(answer, "{error}")?),
    }
}

/// Returns a type of a message, `VARIANT:NAME:SIZE:ALIGNMENT`.
fn part_in(alloc: Global, part: Option<&str>) -> Result<TypeDetail, CaseError> {
    match detail_in(alloc, part.unwrap_or(""), ':')? {
        Ok(detail) => Ok(detail),
        Err(_) => Err(CaseError),
    }
}

/// Returns the message that has these types, with commas between them: the header's, the user header's, the payload's.
fn message_in(alloc: Global, text: &str) -> Result<MessageTypeDetails, CaseError> {
    let mut parts = text.split(',');
    Ok(MessageTypeDetails {
        header: part_in(alloc, parts.next())?,
        user_header: part_in(alloc, parts.next())?,
        payload: part_in(alloc, parts.next())?,
    })
}

/// Writes whether the first of `MESSAGE | MESSAGE` is compatible with the second.
pub fn write_compatible(alloc: Global, text: &str, answer: &mut String) -> Result<(), CaseError> {
    let Some((message, other)) = text.split_once('|') else {
        return Err(CaseError);
    };
    let is_compatible = message_in(alloc, message)?.is_compatible_to(&message_in(alloc, other)?);
    Ok(write!(answer, "{is_compatible}")?)
}

/// Writes the hash of the service `PATTERN NAME`, or why it can't have that name.
pub fn write_hash(alloc: Global, service: &str, answer: &mut String) -> Result<(), CaseError> {
    let (_pattern, name) = first_word(service);
    match ServiceName::new(alloc, text_in(name)) {
        Ok(_name) => {
            let hash = hash_of(alloc, service)?.to_text(alloc)?;
            Ok(answer.push_str(hash.as_str())?)
        }
        Err(ServiceNameError::OutOfMemory) => Err(CaseError),
        Err(error) => Ok(write!(answer, "{error}")?),
    }
}
