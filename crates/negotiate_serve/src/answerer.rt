//! Answers the lines of a program.

ghost use Rattle.std.specs.Prelude.{◌≡◌, ℕ, List, OnOk, string_bytes};
ghost use Rattle.iceoryx2_builder.specs.declared.command.Command.{Command};
ghost use Rattle.iceoryx2_session.specs.SessionStates.{own_state};
ghost use Rattle.negotiate_lines.specs.declared.line.Line.TheVariants as parsed;
ghost use Rattle.negotiate_lines.specs.Lines.{IsLine};
ghost use Rattle.negotiate_serve.specs.Transcripts.{slot_named};
ghost use Rattle.negotiate_serve.specs.Served.{GrowsByAnswer, SessionReplies, ShowsSome};

use crate::reply::describe;
use iceoryx2_builder::command::Command;
use iceoryx2_session::session::Session;
use iceoryx2_table::table::Table;
use std::alloc::AllocError;

/// Answers the commands of lines, one after the other, each by a text.
pub trait Answerer {
    /// How the command of a line is answered, and the answerer after it.
    ghost answers: { Self → (line : List ℕ) → Command → (text : List ℕ) → Self → Type 0 };

    /// What holds of it between two lines.
    ghost stands: { Self → Type 0 };

    /// Carries out the command of a line, and writes the answer into the text.
    ///
    /// `AllocError` if memory runs out outside a call. The text may then have a part of the answer, and what holds of
    /// the answerer still does.
    fn answer(&mut self, line: &[u8], command: Command, text: &mut String) -> Result<(), AllocError>
        requires { IsLine line.now (parsed.Command command) }
        ensures answered { stands self.old → OnOk result (GrowsByAnswer answers
            self.old line.now command (string_bytes text.old) (string_bytes text.new) self.new) }
        ensures stands { stands self.old → stands self.new };
}

/// The answer is what the session replies.
impl Answerer for Session<Table> {
    ghost answers = { λ old line c text new. SessionReplies (own_state old) line c text (own_state new) };

    ghost stands = { λ s. ShowsSome (own_state s) };

    fn answer(
        &mut self,
        _line: &[u8],
        command: Command,
        text: &mut String,
    ) -> Result<(), AllocError> {
        let slot = slot_of(&command);
        describe(&self.apply(command), slot, text)
    }
}

/// Returns the slot that a command names. A list names none, and no reply to it has one.
pub fn slot_of(command: &Command) -> usize
    ensures { result ≡ slot_named command.now }
{
    match command {
        Command::Call(call) => call.slot,
        Command::Close { slot } => *slot,
        Command::List => 0,
    }
}
