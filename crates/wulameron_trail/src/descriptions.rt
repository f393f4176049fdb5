//! Reading descriptions that are published.

ghost use Rattle.std.specs.Prelude.{IfOk};
ghost use Rattle.wulameron_trail.specs.Descriptions.{IsRead};

use iceoryx2_data::bytes::{DecodeError, decode};
use iceoryx2_description::description::StaticConfig;
use std::alloc::{AllocError, Global};

/// Returns the description whose byte form the bytes are. `None` if they are no description's. `AllocError` if there is
/// no memory for it.
pub(crate) fn read(alloc: Global, bytes: &[u8]) -> Result<Option<StaticConfig>, AllocError>
    ensures { IfOk result (IsRead bytes.now) }
{
    match decode(alloc, bytes) {
        Ok(description) => Ok(Some(description)),
        Err(DecodeError::Malformed) => Ok(None),
        Err(DecodeError::OutOfMemory) => Err(AllocError),
    }
}
