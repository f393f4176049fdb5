//! The types that a refused call required, beside those that the service offers.

ghost use Rattle.std.specs.Prelude.{◌≡◌, ◌++◌, OnOk, string_bytes};
ghost use Rattle.explain_serve.specs.Messages.{detail_text, message_lines, part_line, variant_text};

use iceoryx2_types::types::{MessageTypeDetails, TypeDetail, TypeVariant};
use std::alloc::AllocError;

/// Writes for each part of a message what is required and what is offered, by the names of the terms of its user header
/// and of its payload. `AllocError` if the text finds no memory.
#[tactic(auto, unfolding(crate::specs::Messages::message_lines))]
pub(super) fn describe_message(
    user_header: &str,
    payload: &str,
    required: &MessageTypeDetails,
    offered: &MessageTypeDetails,
    text: &mut String,
) -> Result<(), AllocError>
    ensures { OnOk result (string_bytes text.new ≡ string_bytes text.old
        ++ message_lines user_header.now payload.now required.now offered.now) }
{
    describe_part("header", &required.header, &offered.header, text)?;
    describe_part(
        user_header,
        &required.user_header,
        &offered.user_header,
        text,
    )?;
    describe_part(payload, &required.payload, &offered.payload, text)
}

/// Writes for one part of a message what is required and what is offered.
fn describe_part(
    name: &str,
    required: &TypeDetail,
    offered: &TypeDetail,
    text: &mut String,
) -> Result<(), AllocError>
    ensures { OnOk result (string_bytes text.new ≡ string_bytes text.old
        ++ part_line name.now required.now offered.now) }
{
    write!(text, "  required {name} ")?;
    describe_type(required, text)?;
    write!(text, ", offered ")?;
    describe_type(offered, text)?;
    writeln!(text)
}

/// Writes the value of a term that means this type.
fn describe_type(detail: &TypeDetail, text: &mut String) -> Result<(), AllocError>
    ensures { OnOk result (string_bytes text.new ≡ string_bytes text.old ++ detail_text detail.now) }
{
    let variant = variant_term(detail.variant());
    let name = detail.type_name();
    let size = detail.size();
    let alignment = detail.alignment();
    write!(text, "{variant},{name},{size},{alignment}")
}

/// Returns the term of a variant.
fn variant_term(variant: TypeVariant) -> &'static str
    ensures { result.now ≡ variant_text variant }
{
    match variant {
        TypeVariant::FixedSize => "fixed",
        TypeVariant::Dynamic => "dynamic",
    }
}
