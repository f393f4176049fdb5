//! The text of a setting's value.

ghost use Rattle.std.specs.Prelude.{Some};
ghost use Rattle.explain_serve.specs.Settings.{value_text};

use iceoryx2_description::event::EventId;
use iceoryx2_description::time::Duration;
use std::fmt;

/// The value of a setting.
#[derive(Clone, Copy)]
pub(crate) enum Value {
    Number(u64),
    Truth(bool),
    /// The number of an event, or that there is none.
    Event(Option<EventId>),
    /// A length of time, or that there is none.
    Time(Option<Duration>),
}

/// The value of a line's term that means it.
impl fmt::Display for Value {
    ghost output = { λ value. Some (value_text value) };

    fn fmt<W: fmt::Write>(&self, f: &mut fmt::Formatter<W>) -> fmt::Result {
        match self {
            Value::Number(number) => write!(f, "{number}"),
            Value::Truth(truth) => write!(f, "{truth}"),
            Value::Event(None) | Value::Time(None) => write!(f, "none"),
            Value::Event(Some(id)) => {
                let number = id.as_value();
                write!(f, "{number}")
            }
            Value::Time(Some(duration)) => {
                let seconds = duration.seconds();
                let nanoseconds = duration.nanoseconds();
                write!(f, "{seconds},{nanoseconds}")
            }
        }
    }
}
