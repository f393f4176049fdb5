//! A session that explains its replies.

ghost use Rattle.std.specs.Prelude.{◌≡◌, IfOk, MatchResult};
ghost use Rattle.iceoryx2_session.specs.SessionStates.{own_state};
ghost use Rattle.negotiate_serve.specs.Served.{HasNothing};
ghost use Rattle.explain_serve.specs.Answered.{AnswersAs, ShowsSomeState, ShowsState, first_state};
ghost use Rattle.explain_serve.specs.Explained.{node_named};
ghost use Rattle.explain_serve.specs.Traces.{fresh_trace};

use crate::drawing::draw_reply;
use crate::format::Format;
use crate::lines::describe_lines;
use iceoryx2_builder::command::Command;
use iceoryx2_description::config::Config;
use iceoryx2_session::session::Session;
use iceoryx2_table::table::Table;
use iceoryx2_testing::traced::Traced;
use negotiate_serve::answerer::{Answerer, slot_of};
use std::alloc::{AllocError, AllocFailed, Global};

/// How many accesses are kept for a command's answer: as many as the longest word of a call has.
const ROOM: usize = 264;

/// Returns a storage that keeps all accesses of a command, and has kept none yet. If there is no memory for them, the
/// error's `value` is the storage as it was.
pub fn with_room<S>(alloc: Global, storage: S) -> Result<Traced<S>, AllocFailed<S>>
    ensures { MatchResult result (λ traced. traced ≡ fresh_trace storage) (λ refused. refused.value ≡ storage) }
{
    Traced::new(alloc, storage, ROOM)
}

/// A session over a traced table. It has to be spent by `finish`.
pub struct Explainer {
    format: Format,
    session: Session<Traced<Table>>,
}

impl Explainer {
    /// Returns a session over an empty table, all of whose slots are free. `AllocError` if there is no memory for the
    /// accesses that are kept.
    pub fn new(alloc: Global, format: Format) -> Result<Explainer, AllocError>
        ensures { IfOk result (λ made. (made.format ≡ format)
            × (own_state made.session ≡ first_state.session)
            × ShowsState (own_state made.session) first_state.machine) }
    {
        match with_room(alloc, Table::new(alloc)) {
            Ok(traced) => Ok(Explainer {
                format,
                session: Session::new(Config::default(), traced),
            }),
            Err(_) => Err(AllocError),
        }
    }

    /// Closes the factories that are still open, and returns the table. Nothing is left in it.
    pub fn finish(self) -> Table
        requires { ShowsSomeState (own_state self.session) }
        ensures { HasNothing result }
    {
        let Explainer { format: _, session } = self;
        session.finish().into_inner()
    }
}

/// The answer is the reply of the session, explained.
impl Answerer for Explainer {
    ghost answers = { λ old line c text new. (new.format ≡ old.format)
        × AnswersAs old.format (own_state old.session) line c text (own_state new.session) };

    ghost stands = { λ explainer. ShowsSomeState (own_state explainer.session) };

    fn answer(
        &mut self,
        line: &[u8],
        command: Command,
        text: &mut String,
    ) -> Result<(), AllocError> {
        let slot = slot_of(&command);
        let node = node_of(&command);
        let before = self.session.storage().total();
        let reply = self.session.apply(command);
        let traced = self.session.storage();
        let made = traced.total().saturating_sub(before);
        match self.format {
            Format::Lines => describe_lines(line, slot, &reply, made, traced, text),
            Format::Diagram => draw_reply(node, slot, &reply, made, traced, text),
        }
    }
}

/// Returns the node that a command names. A close and a list name none, and each of their accesses names its own.
fn node_of(command: &Command) -> u64
    ensures { result ≡ node_named command.now }
{
    match command {
        Command::Call(call) => call.node,
        Command::Close { slot: _ } => 0,
        Command::List => 0,
    }
}
