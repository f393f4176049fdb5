//! Writes single parts after the bytes that were written before. Each function fails if there was no
//! memory for the part.

ghost use Rattle.std.specs.Prelude.{◌≡◌, ◌<◌, ◌^◌, ◌++◌, length, OnOk};
ghost use Rattle.iceoryx2_data.specs.PartForm as form;

use iceoryx2_description::event::{Deadline, EventId};
use iceoryx2_description::time::{Duration, Time};
use iceoryx2_types::types::{MessageTypeDetails, TypeDetail, TypeVariant};
use std::alloc::AllocError;

/// Writes a number as eight bytes.
pub fn put_number(out: &mut Vec<u8>, number: u64) -> Result<(), AllocError>
    ensures { OnOk result (out.new.items ≡ out.old.items ++ form.number number) }
{
    out.extend_from_slice(&number.to_be_bytes())
}

/// Writes the text's length as two bytes, and then its bytes.
pub fn put_text(out: &mut Vec<u8>, text: &str) -> Result<(), AllocError>
    requires { length text.now < 2 ^ 16 }
    ensures { OnOk result (out.new.items ≡ out.old.items ++ form.text text.now) }
{
    out.extend_from_slice(&(text.len() as u16).to_be_bytes())?;
    out.extend_from_slice(text.as_bytes())?;
    Ok(())
}

/// Writes a byte that is 0 or 1.
pub fn put_truth(out: &mut Vec<u8>, truth: bool) -> Result<(), AllocError>
    ensures { OnOk result (out.new.items ≡ out.old.items ++ form.truth truth) }
{
    out.push(if truth { 1 } else { 0 })?;
    Ok(())
}

/// Writes a flag, and the number if there is one.
pub fn put_id(out: &mut Vec<u8>, id: Option<EventId>) -> Result<(), AllocError>
    ensures { OnOk result (out.new.items ≡ out.old.items ++ form.option form.number id) }
{
    match id {
        None => out.push(0)?,
        Some(id) => {
            out.push(1)?;
            put_number(out, id.as_value())?;
        }
    }
    Ok(())
}

fn put_duration(out: &mut Vec<u8>, duration: Duration) -> Result<(), AllocError>
    ensures { OnOk result (out.new.items ≡ out.old.items ++ form.span duration) }
{
    put_number(out, duration.seconds())?;
    out.extend_from_slice(&duration.nanoseconds().to_be_bytes())?;
    Ok(())
}

fn put_time(out: &mut Vec<u8>, time: Time) -> Result<(), AllocError>
    ensures { OnOk result (out.new.items ≡ out.old.items ++ form.span time) }
{
    put_number(out, time.seconds())?;
    out.extend_from_slice(&time.nanoseconds().to_be_bytes())?;
    Ok(())
}

fn put_deadline(out: &mut Vec<u8>, deadline: Deadline) -> Result<(), AllocError>
    ensures { OnOk result (out.new.items ≡ out.old.items ++ form.deadline deadline) }
{
    put_duration(out, deadline.value)?;
    put_time(out, deadline.creation_time)?;
    Ok(())
}

/// Writes a flag, and the deadline if there is one.
pub fn put_optional_deadline(
    out: &mut Vec<u8>,
    deadline: Option<Deadline>,
) -> Result<(), AllocError>
    ensures { OnOk result (out.new.items ≡ out.old.items ++ form.option form.deadline deadline) }
{
    match deadline {
        None => out.push(0)?,
        Some(value) => {
            out.push(1)?;
            put_deadline(out, value)?;
        }
    }
    Ok(())
}

fn put_variant(out: &mut Vec<u8>, variant: TypeVariant) -> Result<(), AllocError>
    ensures { OnOk result (out.new.items ≡ out.old.items ++ form.variant variant) }
{
    match variant {
        TypeVariant::FixedSize => out.push(0)?,
        TypeVariant::Dynamic => out.push(1)?,
    }
    Ok(())
}

fn put_detail(out: &mut Vec<u8>, detail: &TypeDetail) -> Result<(), AllocError>
    ensures { OnOk result (out.new.items ≡ out.old.items ++ form.detail detail.now) }
{
    put_variant(out, detail.variant())?;
    put_text(out, detail.type_name())?;
    put_number(out, detail.size())?;
    put_number(out, detail.alignment())?;
    Ok(())
}

/// Writes the three types of a message: header, user header and payload.
pub fn put_message(out: &mut Vec<u8>, message: &MessageTypeDetails) -> Result<(), AllocError>
    ensures { OnOk result (out.new.items ≡ out.old.items ++ form.message message.now) }
{
    put_detail(out, &message.header)?;
    put_detail(out, &message.user_header)?;
    put_detail(out, &message.payload)?;
    Ok(())
}
