//! What opens of publish-subscribe require, beside what is there.

ghost use Rattle.std.specs.Prelude.{◌≡◌, ◌++◌, IfOk, OnOk, string_bytes};
ghost use Rattle.iceoryx2_publish_subscribe_builder.specs.Builder.{with_setting};
ghost use Rattle.explain_serve.specs.Messages.{asked_message, sample_builder};
ghost use Rattle.explain_serve.specs.Offers.{publish_subscribe_required};

use super::messages::describe_message;
use super::value::Value;
use super::{Compare, Comparison, describe_required};
use iceoryx2_description::publish_subscribe::StaticConfig;
use iceoryx2_errors::refusal::Reason;
use iceoryx2_publish_subscribe_builder::publish_subscribe::PublishSubscribeSetter;
use iceoryx2_rounds::requested::RequestedTypes;
use iceoryx2_types::types::publish_subscribe::Header;
use iceoryx2_types::types::{CustomHeaderMarker, CustomPayloadMarker, MessageTypeDetails, Slice};
use std::alloc::{AllocError, Global};

impl Compare for PublishSubscribeSetter {
    ghost use Rattle.explain_serve.specs.Comparisons.{publish_subscribe_compared};

    type Existing = StaticConfig;

    ghost compared = { publish_subscribe_compared };

    fn compare(&self, existing: &StaticConfig) -> Option<Comparison> {
        comparison_of!(self, existing, PublishSubscribeSetter;
        settings {
            Number MaxPublishers max_publishers DoesNotSupportRequestedAmountOfPublishers;
            Number MaxSubscribers max_subscribers DoesNotSupportRequestedAmountOfSubscribers;
            Number SubscriberMaxBufferSize subscriber_max_buffer_size DoesNotSupportRequestedMinBufferSize;
            Number HistorySize history_size DoesNotSupportRequestedMinHistorySize;
            Number SubscriberMaxBorrowedSamples subscriber_max_borrowed_samples DoesNotSupportRequestedMinSubscriberBorrowedSamples;
            Truth EnableSafeOverflow enable_safe_overflow IncompatibleOverflowBehavior;
            Number MaxNodes max_nodes DoesNotSupportRequestedAmountOfNodes;
        }
        types { PayloadType UserHeaderType PayloadAlignment })
    }
}

/// Writes what it required of types or of settings, and what is there.
pub(super) fn describe_required_of(
    reason: Reason,
    setters: &[PublishSubscribeSetter],
    there: &StaticConfig,
    text: &mut String,
) -> Result<(), AllocError>
    ensures { OnOk result (string_bytes text.new ≡ string_bytes text.old
        ++ publish_subscribe_required reason setters.now there.now) }
{
    if reason != Reason::IncompatibleTypes {
        return describe_required(reason, setters, there, text);
    }
    let asked = asked_message(*text.allocator(), setters)?;
    describe_message(
        "user_header",
        "payload",
        &asked,
        &there.message_type_details,
        text,
    )
}

/// Returns the message that a call asks for after these setters. `AllocError` if there was no memory for the names of
/// its types.
fn asked_message(
    alloc: Global,
    setters: &[PublishSubscribeSetter],
) -> Result<MessageTypeDetails, AllocError>
    ensures { IfOk result (λ message. message ≡ asked_message setters.now) }
{
    let mut types = RequestedTypes::none();
    let mut left = setters;
    while let Some((setter, later)) = left.split_first() {
        types = with_types(types, setter)?;
        left = later;
    }
    types.prepare::<Header, Slice<CustomPayloadMarker>, CustomHeaderMarker>(alloc)
}

/// Returns the types after one setter. `AllocError` if there was no memory for the name of a type.
fn with_types(
    types: RequestedTypes,
    setter: &PublishSubscribeSetter,
) -> Result<RequestedTypes, AllocError>
    ensures { IfOk result (λ after. after ≡ (with_setting (sample_builder types) setter.now).types) }
{
    let RequestedTypes {
        user_header,
        payload,
        alignment,
    } = types;
    match setter {
        PublishSubscribeSetter::PayloadType(detail) => Ok(RequestedTypes {
            user_header,
            payload: Some(detail.clone()?),
            alignment,
        }),
        PublishSubscribeSetter::UserHeaderType(detail) => Ok(RequestedTypes {
            user_header: Some(detail.clone()?),
            payload,
            alignment,
        }),
        PublishSubscribeSetter::PayloadAlignment(asked) => Ok(RequestedTypes {
            user_header,
            payload,
            alignment: Some(*asked),
        }),
        _ => Ok(RequestedTypes {
            user_header,
            payload,
            alignment,
        }),
    }
}
