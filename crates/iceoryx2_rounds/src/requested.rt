//! A builder's demand of a message's types, whatever its pattern.

ghost use Rattle.std.specs.Prelude.{◌≡◌, IfOk};
ghost use Rattle.iceoryx2_rounds.specs.Requested.{no_types, requested_message};

use iceoryx2_types::types::{Alignment, MessageTypeDetails, TypeDetail, ZeroCopySend};
use std::alloc::{AllocError, Global};

/// The types that are given instead of a message's own, and the least alignment of its payload.
#[derive(Debug, Drop, PartialEq, Eq)]
pub struct RequestedTypes {
    /// The type that is given instead of the user header's own.
    pub user_header: Option<TypeDetail>,
    /// The type that is given instead of the payload's own.
    pub payload: Option<TypeDetail>,
    /// The least alignment of the payload, in bytes.
    pub alignment: Option<Alignment>,
}

impl Clone for RequestedTypes {
    ghost use Rattle.std.specs.Prelude.{◌≡◌};

    ghost is_clone = { λ types copy. copy ≡ types };

    /// Returns `AllocError` if there was no memory for the names of types.
    fn clone(&self) -> Result<RequestedTypes, AllocError> {
        Ok(RequestedTypes {
            user_header: copy_of(&self.user_header)?,
            payload: copy_of(&self.payload)?,
            alignment: self.alignment,
        })
    }
}

/// Returns a copy of what is given instead of a type, if something is. `AllocError` if there was no
/// memory for its name.
fn copy_of(told: &Option<TypeDetail>) -> Result<Option<TypeDetail>, AllocError>
    ensures { IfOk result (λ copy. copy ≡ told.now) }
{
    match told {
        Some(detail) => Ok(Some(detail.clone()?)),
        None => Ok(None),
    }
}

impl RequestedTypes {
    /// Returns no other types: each type is the message's own, and aligned as it is.
    pub fn none() -> RequestedTypes
        ensures { result ≡ no_types }
    {
        RequestedTypes {
            user_header: None,
            payload: None,
            alignment: None,
        }
    }

    /// Returns the types of a message with this header, this payload and this user header.
    /// `AllocError` if there was no memory for their names.
    pub fn prepare<H: ZeroCopySend, P: ZeroCopySend, U: ZeroCopySend>(
        self,
        alloc: Global,
    ) -> Result<MessageTypeDetails, AllocError>
        ensures { IfOk result (λ message. message ≡ requested_message H.detail P.detail U.detail self) }
    {
        let own = MessageTypeDetails::from::<H, U, P>(alloc, P::variant())?;
        Ok(own.with_overrides(self.user_header, self.payload, self.alignment))
    }
}
