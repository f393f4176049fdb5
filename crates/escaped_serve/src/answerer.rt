//! Answers the lines of an escaped session.

ghost use Rattle.std.specs.Prelude.{OnOk, ℕ, List, string_bytes};
ghost use Rattle.iceoryx2_session.specs.SessionStates.{own_state};
ghost use Rattle.negotiate_lines.specs.Lines.{IsLineIn};
ghost use Rattle.negotiate_lines.specs.declared.leaf.Form.TheVariants as form;
ghost use Rattle.negotiate_lines.specs.declared.line.Line.TheVariants as parsed;
ghost use Rattle.negotiate_serve.specs.Replies.{GrowsBy, IsReplyText};
ghost use Rattle.negotiate_serve.specs.Served.{GrowsByAnswer};
ghost use Rattle.negotiate_serve.specs.Transcripts.{Answering};
ghost use Rattle.escaped_serve.specs.Answered.{SessionReplies, ShowsSome};
ghost use Rattle.escaped_serve.specs.Lines.{AnsweringQuestions};
ghost use Rattle.escaped_serve.specs.Questions.{AnswersQuestion, IsNoPlain};
ghost use Rattle.escaped_serve.specs.Replies.{IsEscapedReply};

use crate::questions::answer_question;
use crate::reply::describe_escaped;
use iceoryx2_builder::command::Command;
use iceoryx2_description::config::Config;
use iceoryx2_session::session::Session;
use iceoryx2_table::table::Table;
use negotiate_lines::question::Question;
use negotiate_serve::answerer::{Answerer, slot_of};
use negotiate_serve::reply::describe;
use std::alloc::{AllocError, Global};

/// Answers escaped lines: commands in escaped texts, and questions. It answers plain commands as an `Answerer` does.
pub trait Asked: Answerer {
    /// How the command of an escaped line is answered, and the answerer after it.
    ghost answers_escaped: { Answering Self };

    /// How a question is answered, and the answerer after it.
    ghost asked: { AnsweringQuestions Self };

    /// Carries out the command of an escaped line, and writes the answer into the text.
    ///
    /// `AllocError` if memory runs out outside a call. The text may then have a part of the answer, and what holds of
    /// the answerer still does.
    fn answer_escaped(
        &mut self,
        line: &[u8],
        command: Command,
        text: &mut String,
    ) -> Result<(), AllocError>
        requires { IsLineIn form.Escaped line.now (parsed.Command command) }
        ensures answered { Self.stands self.old → OnOk result (GrowsByAnswer answers_escaped
            self.old line.now command (string_bytes text.old) (string_bytes text.new) self.new) }
        ensures stands { Self.stands self.old → Self.stands self.new };

    /// Answers a question, by a line. A plain line isn't asked here. `AllocError` as `answer_escaped`.
    fn ask(&mut self, question: Question, text: &mut String) -> Result<(), AllocError>
        requires { IsNoPlain question }
        ensures answered { Self.stands self.old → OnOk result (GrowsBy
            (λ added. asked self.old question added self.new) (string_bytes text.old) (string_bytes text.new)) }
        ensures stands { Self.stands self.old → Self.stands self.new };
}

/// A session over a table of its own. What its slots hold can be abandoned.
pub struct TableAnswerer {
    session: Session<Table>,
}

impl TableAnswerer {
    /// Returns an answerer with an empty table. All slots are free.
    pub fn new(alloc: Global) -> TableAnswerer
        ensures { ShowsSome (own_state result.session) }
    {
        TableAnswerer {
            session: Session::new(Config::default(), Table::new(alloc)),
        }
    }
}

/// Closes what the session holds.
impl Drop for TableAnswerer {
    fn drop(self) {
        let TableAnswerer { session } = self;
        let _table = session.close_all();
    }
}

/// The answer is what the session replies.
impl Answerer for TableAnswerer {
    ghost answers = { λ old line c text new.
        SessionReplies IsReplyText (own_state old.session) c text (own_state new.session) };

    ghost stands = { λ a. ShowsSome (own_state a.session) };

    fn answer(
        &mut self,
        _line: &[u8],
        command: Command,
        text: &mut String,
    ) -> Result<(), AllocError> {
        let slot = slot_of(&command);
        describe(&self.session.apply(command), slot, text)
    }
}

impl Asked for TableAnswerer {
    ghost answers_escaped = { λ old line c text new.
        SessionReplies IsEscapedReply (own_state old.session) c text (own_state new.session) };

    ghost asked = { λ old q text new.
        AnswersQuestion (λ table. table.world) (own_state old.session) q text (own_state new.session) };

    fn answer_escaped(
        &mut self,
        _line: &[u8],
        command: Command,
        text: &mut String,
    ) -> Result<(), AllocError> {
        let slot = slot_of(&command);
        describe_escaped(&self.session.apply(command), slot, text)
    }

    fn ask(&mut self, question: Question, text: &mut String) -> Result<(), AllocError> {
        answer_question(&mut self.session, &question, text)
    }
}
