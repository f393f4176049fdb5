//! What a builder of publish-subscribe asks, as the rounds see it.

ghost use Rattle.std.specs.Prelude.{◌≡◌};
ghost use Rattle.iceoryx2_rounds.specs.Verdict.{verdict};
ghost use Rattle.iceoryx2_rounds.specs.Rows.{row_clauses};
ghost use Rattle.iceoryx2_publish_subscribe_builder.specs.PublishSubscribe.{publish_subscribe_refusal, setting_rows};
ghost use Rattle.iceoryx2_publish_subscribe_builder.specs.Builder.{fresh_demand};

use iceoryx2_description::description::{MessagingPattern, StaticConfig};
use iceoryx2_description::time::Time;
use iceoryx2_description::{config, publish_subscribe};
use iceoryx2_errors::error::publish_subscribe::ServiceAvailabilityState;
use iceoryx2_errors::error::{
    PublishSubscribeCreateError, PublishSubscribeOpenError, PublishSubscribeOpenOrCreateError,
    ServiceState,
};
use iceoryx2_rounds::open_or_create::OpenOrCreateRefusal;
use iceoryx2_rounds::pattern::{CreateRefusal, OpenRefusal, Pattern};
use iceoryx2_rounds::retries::Retries;
use iceoryx2_rounds::verdict::{need_at_least, need_flag};
use iceoryx2_rounds::zeros::raise_zero;
use iceoryx2_rounds::{
    create_error_of_refusal, open_error_of_refusal, settings_of, verdict_of_rows,
};
use iceoryx2_types::types::MessageTypeDetails;
use std::alloc::AllocError;

/// The settings that a builder of publish-subscribe requires.
#[derive(Clone, Copy, Debug, Default, PartialEq, Eq)]
pub struct Marks {
    pub max_publishers: bool,
    pub max_subscribers: bool,
    pub subscriber_max_buffer_size: bool,
    pub history_size: bool,
    pub subscriber_max_borrowed_samples: bool,
    pub enable_safe_overflow: bool,
    pub max_nodes: bool,
}

/// The demand of a builder of publish-subscribe: settings, and a mark for each setting that the
/// builder requires.
#[derive(Clone, Copy, Debug, PartialEq, Eq)]
pub struct PublishSubscribeDemand {
    pub settings: config::PublishSubscribe,
    pub marks: Marks,
}

impl PublishSubscribeDemand {
    /// Returns the configured settings. None of them is required.
    pub(crate) fn start(defaults: config::PublishSubscribe) -> PublishSubscribeDemand
        ensures { result ≡ fresh_demand defaults }
    {
        PublishSubscribeDemand {
            settings: defaults,
            marks: Marks::default(),
        }
    }
}

/// The demand of one call: settings, a mark for each setting that is required, and the types of its
/// messages as they were prepared.
#[derive(Debug, Drop, PartialEq, Eq)]
pub struct PreparedDemand {
    pub demand: PublishSubscribeDemand,
    pub message: MessageTypeDetails,
}

/// Tests whether the existing settings offer what is marked.
fn verify_settings(
    demand: &PublishSubscribeDemand,
    existing: &publish_subscribe::StaticConfig,
) -> Result<(), PublishSubscribeOpenError>
    ensures { result ≡ verdict (row_clauses (setting_rows demand.now.settings demand.now.marks existing.now)) }
{
    verdict_of_rows!(demand, existing, PublishSubscribeOpenError;
        need_at_least max_publishers DoesNotSupportRequestedAmountOfPublishers;
        need_at_least max_subscribers DoesNotSupportRequestedAmountOfSubscribers;
        need_at_least subscriber_max_buffer_size DoesNotSupportRequestedMinBufferSize;
        need_at_least history_size DoesNotSupportRequestedMinHistorySize;
        need_at_least subscriber_max_borrowed_samples DoesNotSupportRequestedMinSubscriberBorrowedSamples;
        need_flag enable_safe_overflow IncompatibleOverflowBehavior;
        need_at_least max_nodes DoesNotSupportRequestedAmountOfNodes;)
}

impl Pattern for PreparedDemand {
    ghost use Rattle.iceoryx2_publish_subscribe_builder.specs.PublishSubscribe.{prepared_adjusted, prepared_meaning};

    type OpenError = PublishSubscribeOpenError;

    type CreateError = PublishSubscribeCreateError;

    ghost meaning = { prepared_meaning };

    ghost adjusted = { prepared_adjusted };

    fn adjust(&mut self) {
        let settings = &mut self.demand.settings;
        settings.max_publishers = raise_zero(settings.max_publishers);
        settings.max_subscribers = raise_zero(settings.max_subscribers);
        settings.subscriber_max_buffer_size = raise_zero(settings.subscriber_max_buffer_size);
        settings.subscriber_max_borrowed_samples = raise_zero(
            settings.subscriber_max_borrowed_samples,
        );
        settings.max_nodes = raise_zero(settings.max_nodes);
    }

    fn misfit(&self, existing: &StaticConfig) -> Option<PublishSubscribeOpenError> {
        match existing.messaging_pattern() {
            MessagingPattern::PublishSubscribe(settings) => {
                if self
                    .message
                    .is_compatible_to(&settings.message_type_details)
                {
                    None
                } else {
                    Some(PublishSubscribeOpenError::from(
                        ServiceAvailabilityState::IncompatibleTypes,
                    ))
                }
            }
            MessagingPattern::Event(_) | MessagingPattern::RequestResponse(_) => {
                Some(PublishSubscribeOpenError::from(ServiceAvailabilityState::ServiceState(
                    ServiceState::IncompatibleMessagingPattern,
                )))
            }
        }
    }

    fn verify(&self, existing: &StaticConfig) -> Result<(), PublishSubscribeOpenError> {
        match existing.messaging_pattern() {
            MessagingPattern::PublishSubscribe(settings) => verify_settings(&self.demand, settings),
            MessagingPattern::Event(_) => Ok(()),
            MessagingPattern::RequestResponse(_) => Ok(()),
        }
    }

    fn open_refusal(&self, refusal: OpenRefusal) -> PublishSubscribeOpenError {
        open_error_of_refusal!(refusal, PublishSubscribeOpenError)
    }

    fn create_error(refusal: CreateRefusal) -> PublishSubscribeCreateError {
        create_error_of_refusal!(refusal, PublishSubscribeCreateError)
    }

    fn settings_refusal(&self) -> Option<PublishSubscribeCreateError> {
        let settings = &self.demand.settings;
        if !settings.enable_safe_overflow
            && settings.subscriber_max_buffer_size < settings.history_size
        {
            Some(PublishSubscribeCreateError::SubscriberBufferMustBeLargerThanHistorySize)
        } else {
            None
        }
    }

    fn needs_clock(&self) -> bool {
        false
    }

    fn copy(&self) -> Result<PreparedDemand, AllocError> {
        let message = self.message.clone()?;
        Ok(PreparedDemand {
            demand: self.demand,
            message,
        })
    }

    fn into_published(self, now: Time) -> MessagingPattern {
        let _ = now;
        let PreparedDemand { demand, message } = self;
        MessagingPattern::PublishSubscribe(settings_of!(demand.settings =>
            publish_subscribe::StaticConfig: max_publishers max_subscribers
            subscriber_max_buffer_size history_size subscriber_max_borrowed_samples
            enable_safe_overflow max_nodes; message_type_details: message))
    }
}

impl Retries for PreparedDemand {
    ghost use Rattle.std.specs.Prelude.{refl};
    ghost use Rattle.iceoryx2_publish_subscribe_builder.specs.PublishSubscribe.{publish_subscribe_retried};

    ghost retried = { publish_subscribe_retried };

    ghost told = { λ asked. refl };
}

/// Returns the error of an open or create for this refusal of the rounds.
pub(crate) fn open_or_create_error(
    refusal: OpenOrCreateRefusal<PublishSubscribeOpenError, PublishSubscribeCreateError>,
) -> PublishSubscribeOpenOrCreateError
    ensures { publish_subscribe_refusal result ≡ refusal }
{
    match refusal {
        OpenOrCreateRefusal::Open(error) => {
            PublishSubscribeOpenOrCreateError::PublishSubscribeOpenError(error)
        }
        OpenOrCreateRefusal::Create(error) => {
            PublishSubscribeOpenOrCreateError::PublishSubscribeCreateError(error)
        }
        OpenOrCreateRefusal::SystemInFlux => PublishSubscribeOpenOrCreateError::SystemInFlux,
    }
}
