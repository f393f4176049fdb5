//! The parts of a description that are about messages.

ghost use Rattle.iceoryx2_description.specs.Messages.{IsMeasured, IsMeasuredMessage};

use iceoryx2_types::types::{MessageTypeDetails, TypeDetail};

/// The numbers are within the limits of their types.
pub(crate) fn message_fits(message: &MessageTypeDetails)
    ensures { IsMeasuredMessage message.now }
{
    detail_fits(&message.header);
    detail_fits(&message.user_header);
    detail_fits(&message.payload);
}

fn detail_fits(detail: &TypeDetail)
    ensures { IsMeasured detail.now }
{
    let _size = detail.size();
    let _alignment = detail.alignment();
}
