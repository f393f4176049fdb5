//! The types of a message.

ghost use Rattle.std.specs.Prelude.{◌≡◌, ◌↔◌, IfOk, IsTrue};
ghost use Rattle.iceoryx2_types.specs.Types.{IsCompatible, IsDetail, IsMessage};
ghost use Rattle.iceoryx2_types.specs.Types.{compatible, message_of, with_overrides as overridden_by, with_variant};
ghost use Rattle.iceoryx2_types.specs.declared.types.TypeVariant.TheVariants.{FixedSize};

use super::{Alignment, TypeDetail, TypeVariant, ZeroCopySend};
use std::alloc::{AllocError, Global};
use std::marker::Model;

/// The types of a message: of its header, of its user header and of its payload.
#[derive(Debug, PartialEq, Eq)]
pub struct MessageTypeDetails {
    /// The header's type.
    pub header: TypeDetail,
    /// The user header's type.
    pub user_header: TypeDetail,
    /// The payload's type.
    pub payload: TypeDetail,
}

// Written out, so that a proof of what lets one go doesn't take its fields apart.
impl Drop for MessageTypeDetails {
    fn drop(self) {
        let MessageTypeDetails {
            header: _,
            user_header: _,
            payload: _,
        } = self;
    }
}

impl Model for MessageTypeDetails {
    ghost use Rattle.iceoryx2_types.specs.Types.{Message, IsMessage, message_of};

    ghost Value = { Message };

    ghost view = { λ m. message_of m.header m.user_header m.payload };

    ghost invariant = { λ m. IsMessage (message_of m.header m.user_header m.payload) };

    ghost inverse = { λ m. record {
      header = m.header;
      user_header = m.user_header;
      payload = m.payload;
    } };
}

impl MessageTypeDetails {
    /// Returns the details that the three types state: one header, one user header, and a payload of
    /// one value or a number of them. `AllocError` if there was no memory for their names.
    pub fn from<H: ZeroCopySend, U: ZeroCopySend, P: ZeroCopySend>(
        alloc: Global,
        variant: TypeVariant,
    ) -> Result<MessageTypeDetails, AllocError>
        ensures header { IfOk result (λ made. made.header ≡ with_variant H.detail FixedSize) }
        ensures user_header { IfOk result (λ made. made.user_header ≡ with_variant U.detail FixedSize) }
        ensures payload { IfOk result (λ made. made.payload ≡ with_variant P.detail variant) }
    {
        let header = TypeDetail::from_type::<H>(alloc, TypeVariant::FixedSize)?;
        let user_header = TypeDetail::from_type::<U>(alloc, TypeVariant::FixedSize)?;
        let payload = TypeDetail::from_type::<P>(alloc, variant)?;
        Ok(MessageTypeDetails {
            header,
            user_header,
            payload,
        })
    }

    /// Returns these types as a call asks for them. A user header or a payload that is given replaces
    /// the message's own. Then the payload gets at least the alignment that is asked for. So the order
    /// in which a payload is given and an alignment is asked for makes no difference.
    #[tactic(auto, unfolding(crate::specs::Types::with_overrides))]
    pub fn with_overrides(
        self,
        user_header: Option<TypeDetail>,
        payload: Option<TypeDetail>,
        alignment: Option<Alignment>,
    ) -> MessageTypeDetails
        ensures value { result ≡ overridden_by self user_header payload alignment }
        ensures limits { IsMessage result }
    {
        let MessageTypeDetails {
            header,
            user_header: own_user_header,
            payload: own_payload,
        } = self;
        let user_header = user_header.unwrap_or(own_user_header);
        let payload = payload.unwrap_or(own_payload).with_alignment(alignment);
        MessageTypeDetails {
            header,
            user_header,
            payload,
        }
    }

    /// Returns whether messages of these types may be sent instead of messages of the other types. They
    /// may if the headers are the same, and the user header and the payload are each the same except
    /// for the alignment. The alignment of each is at most the other's.
    #[tactic(auto, unfolding(crate::specs::Types::compatible))]
    pub fn is_compatible_to(&self, other: &MessageTypeDetails) -> bool
        ensures exact { IsTrue result ↔ IsCompatible self.now other.now }
        ensures value { result ≡ compatible self.now other.now }
    {
        self.header.is_same(&other.header)
            && self.user_header.fits(&other.user_header)
            && self.payload.fits(&other.payload)
    }
}

impl Clone for MessageTypeDetails {
    ghost use Rattle.std.specs.Prelude.{◌≡◌};

    ghost is_clone = { λ message copy. copy ≡ message };

    fn clone(&self) -> Result<MessageTypeDetails, AllocError> {
        Ok(MessageTypeDetails {
            header: self.header.clone()?,
            user_header: self.user_header.clone()?,
            payload: self.payload.clone()?,
        })
    }
}
