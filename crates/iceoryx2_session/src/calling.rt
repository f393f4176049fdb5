//! The builder call of a command, whatever the pattern.

ghost use Rattle.std.specs.Prelude.{◌≡◌, ◌<◌};
ghost use Rattle.iceoryx2_builder.specs.Commands.{slot_count};
ghost use Rattle.iceoryx2_session.specs.PatternCalls.{way_of};
ghost use Rattle.iceoryx2_session.specs.Sessions.{OpensBy};
ghost use Rattle.iceoryx2_session.specs.Slots.{FreeAt};
ghost use Rattle.iceoryx2_session.specs.Setters.{with_settings as set_all};

use crate::setters::{HasSetters, with_settings};
use crate::slots::Slots;
use iceoryx2_access::storage::Storage;
use iceoryx2_attribute::attribute::{AttributeSpecifier, AttributeVerifier};
use iceoryx2_builder::command::{How, Refusal};
use iceoryx2_description::time::{ClockFault, Time};

/// A builder of one pattern, over a storage. Each of its calls is a function of its own, which puts
/// what it opens into a free slot and returns its number. So no call holds what another call may
/// answer, and no factory is passed up.
pub trait CallsBuilder<S: Storage>: HasSetters {
    ghost use Rattle.std.specs.Prelude.{Result};
    ghost use Rattle.iceoryx2_attribute.specs.Requirements.{Requirements};
    ghost use Rattle.iceoryx2_description.specs.declared.time.ClockFault.{ClockFault};
    ghost use Rattle.iceoryx2_description.specs.Span.{Span};
    ghost use Rattle.iceoryx2_rounds.specs.BuilderCalls.{Way, ToCreate, ToOpen, ToOpenOrCreate};
    ghost use Rattle.iceoryx2_session.specs.PatternCalls.{PatternCall};

    /// What it asks, in a way, with these attributes, at this time.
    ghost asked: { Self → Way → Requirements → Result Span ClockFault → PatternCall };

    /// Creates the service, and defines the required pairs.
    fn create(
        self,
        attributes: AttributeVerifier,
        now: Result<Time, ClockFault>,
        storage: &mut S,
        slots: &mut Slots,
        slot: usize,
    ) -> Result<u64, Refusal>
        requires in_range { slot < slot_count }
        requires free { FreeAt slots.old slot }
        ensures { OpensBy S.step (asked self ToCreate attributes now) storage.old slots.old slot
            result storage.new slots.new };

    /// Opens the service. No time is needed.
    fn open(
        self,
        attributes: &AttributeVerifier,
        now: Result<Time, ClockFault>,
        storage: &mut S,
        slots: &mut Slots,
        slot: usize,
    ) -> Result<u64, Refusal>
        requires in_range { slot < slot_count }
        requires free { FreeAt slots.old slot }
        ensures { OpensBy S.step (asked self ToOpen attributes.now now) storage.old slots.old slot
            result storage.new slots.new };

    /// Opens the service, or creates it if there is none.
    fn open_or_create(
        self,
        attributes: &AttributeVerifier,
        now: Result<Time, ClockFault>,
        storage: &mut S,
        slots: &mut Slots,
        slot: usize,
    ) -> Result<u64, Refusal>
        requires in_range { slot < slot_count }
        requires free { FreeAt slots.old slot }
        ensures { OpensBy S.step (asked self ToOpenOrCreate attributes.now now) storage.old slots.old slot
            result storage.new slots.new };
}

/// Calls each setter of a builder, and then the builder call.
pub fn call<S: Storage, B: CallsBuilder<S>>(
    builder: B,
    settings: Vec<B::Setting>,
    attributes: AttributeVerifier,
    how: How,
    now: Result<Time, ClockFault>,
    storage: &mut S,
    slots: &mut Slots,
    slot: usize,
) -> Result<u64, Refusal>
    requires in_range { slot < slot_count }
    requires free { FreeAt slots.old slot }
    ensures { let asked = B.asked (set_all B.with_setting builder settings.items) (way_of how) attributes now in
        OpensBy S.step asked storage.old slots.old slot result storage.new slots.new }
{
    let builder = with_settings(builder, settings);
    match how {
        How::Create => builder.create(attributes, now, storage, slots, slot),
        How::Open => builder.open(&attributes, now, storage, slots, slot),
        How::OpenOrCreate => builder.open_or_create(&attributes, now, storage, slots, slot),
    }
}

/// Returns the attributes that a create defines of those that a command names: the required pairs.
pub fn defined_by(attributes: AttributeVerifier) -> AttributeSpecifier
    ensures { result ≡ attributes.pairs }
{
    AttributeSpecifier::from(attributes.into_required_attributes())
}
