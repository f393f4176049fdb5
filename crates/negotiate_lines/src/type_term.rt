//! What a value means as a type.

ghost use Rattle.std.specs.Prelude.{ℕ, List, MatchOption};
ghost use Rattle.negotiate_lines.specs.Terms.{Finds, Reads};
ghost use Rattle.negotiate_lines.specs.Values.{AreParts, IsAlignmentTerm, IsDetailTerm, IsVariantTerm};

use crate::leaf::{Form, text_of_leaf};
use crate::term::{TermError, around, number};
use iceoryx2_types::types::{Alignment, TypeDetail, TypeDetailError, TypeVariant};
use std::alloc::Global;

/// Reads an alignment: a power of two.
pub fn alignment(value: &str) -> Result<Alignment, TermError>
    ensures { Finds (IsAlignmentTerm value.now) result }
{
    match Alignment::new(number(value)?) {
        Some(alignment) => Ok(alignment),
        None => Err(TermError::Malformed),
    }
}

/// Reads the term `fixed` or `dynamic`.
fn type_variant(value: &str) -> Result<TypeVariant, TermError>
    ensures { Finds (IsVariantTerm value.now) result }
{
    match value {
        "fixed" => Ok(TypeVariant::FixedSize),
        "dynamic" => Ok(TypeVariant::Dynamic),
        _ => Err(TermError::Malformed),
    }
}

/// Returns the four parts of a value around its first three commas.
fn parts(value: &str) -> Option<(&str, &str, &str, &str)>
    ensures { MatchOption result
        ((first second third fourth : List ℕ) → AreParts value.now first second third fourth → ⊥)
        (λ found. AreParts value.now found.0.now found.1.now found.2.now found.3.now) }
{
    let Some((first, rest)) = around(value, ',') else {
        return None;
    };
    let Some((second, rest)) = around(rest, ',') else {
        return None;
    };
    let Some((third, fourth)) = around(rest, ',') else {
        return None;
    };
    Some((first, second, third, fourth))
}

/// Reads a type: `fixed` or `dynamic`, its name, its size and its alignment in bytes, with three commas between them.
/// The name is a leaf. `OutOfMemory` if its text or its copy finds no memory.
pub fn type_detail(alloc: Global, form: Form, value: &str) -> Result<TypeDetail, TermError>
    ensures { Reads (IsDetailTerm form value.now) result }
{
    let Some((variant, name, size, alignment)) = parts(value) else {
        return Err(TermError::Malformed);
    };
    let variant = type_variant(variant)?;
    let size = number(size)?;
    let alignment = number(alignment)?;
    let name = text_of_leaf(alloc, form, name)?;
    match TypeDetail::new(alloc, variant, &name, size, alignment) {
        Ok(detail) => Ok(detail),
        Err(error) => match error {
            TypeDetailError::NameLength => Err(TermError::Malformed),
            TypeDetailError::Alignment => Err(TermError::Malformed),
            TypeDetailError::OutOfMemory => Err(TermError::OutOfMemory),
        },
    }
}
