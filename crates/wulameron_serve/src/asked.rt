//! Asks a node.

ghost use Rattle.std.specs.Prelude.{◌≡◌, OnOk, [], string_bytes};
ghost use Rattle.escaped_serve.specs.Questions.{AnswersQuestion, IsNoPlain};
ghost use Rattle.iceoryx2_session.specs.SessionStates.{own_state};
ghost use Rattle.negotiate_lines.specs.declared.leaf.Form.TheVariants as written;
ghost use Rattle.negotiate_serve.specs.Replies.{GrowsBy};
ghost use Rattle.wulameron_serve.specs.Asked.{AsksFor, AsksWith};
ghost use Rattle.wulameron_serve.specs.Cleaning.{CleansAsked};
ghost use Rattle.wulameron_serve.specs.Nodes.{IsNodesReply};
ghost use Rattle.wulameron_serve.specs.Shared.{AnswersWith, StandsFor};
ghost use Rattle.wulameron_serve.specs.Views.{writes_in};

use crate::answerer::NodeAnswerer;
use crate::cleaning::{answer_clean, answer_rehearse};
use crate::nodes::{SharedNodes, answer_nodes};
use crate::view::{StoresWorld, Viewed};
use escaped_serve::answerer::Asked;
use escaped_serve::questions::answer_question;
use iceoryx2_builder::command::Command;
use iceoryx2_session::resuming::Resuming;
use negotiate_lines::leaf::Form;
use negotiate_lines::question::Question;
use std::alloc::AllocError;
use wulameron_place::trouble::Troubled;

impl<S: Viewed + StoresWorld + Resuming + Troubled, D: SharedNodes + Drop> NodeAnswerer<S, D> {
    /// Answers a question, without what is written before and after each answer.
    fn ask_alone(&mut self, question: &Question, text: &mut String) -> Result<(), AllocError>
        requires { IsNoPlain question.now }
        ensures node { self.new.node ≡ self.old.node }
        ensures answered { OnOk result (GrowsBy (λ output. AsksFor S.shows S.world S.trouble
            (own_state self.old.session) question.now output (own_state self.new.session))
            (string_bytes text.old) (string_bytes text.new)) }
        ensures stands { StandsFor S.world S.own S.ready self.old.node (own_state self.old.session)
            → StandsFor S.world S.own S.ready self.old.node (own_state self.new.session) }
    {
        match question {
            Question::Nodes => self.tell_nodes(text),
            Question::Clean { node } => self.clean_for(*node, text),
            Question::Rehearse { node } => answer_rehearse(&self.dead, *node, text),
            _ => self.tell(question, text),
        }
    }

    /// Tells each node at the log, with its standing in the session's world.
    fn tell_nodes(&self, text: &mut String) -> Result<(), AllocError>
        ensures { OnOk result (GrowsBy (IsNodesReply (S.world (own_state self.now.session).table))
            (string_bytes text.old) (string_bytes text.new)) }
    {
        answer_nodes(&self.dead, self.session.storage().stored(), text)
    }

    /// Releases what dead nodes have, or what the named one has, and writes the reply.
    fn clean_for(&mut self, named: Option<u64>, text: &mut String) -> Result<(), AllocError>
        ensures node { self.new.node ≡ self.old.node }
        ensures answered { OnOk result (GrowsBy (λ output. CleansAsked S.shows S.world S.trouble named
            (own_state self.old.session) output (own_state self.new.session))
            (string_bytes text.old) (string_bytes text.new)) }
        ensures stands { StandsFor S.world S.own S.ready self.old.node (own_state self.old.session)
            → StandsFor S.world S.own S.ready self.old.node (own_state self.new.session) }
    {
        answer_clean(&mut self.session, &self.dead, named, text)
    }

    /// Answers a question of the session alone.
    fn tell(&mut self, question: &Question, text: &mut String) -> Result<(), AllocError>
        requires { IsNoPlain question.now }
        ensures node { self.new.node ≡ self.old.node }
        ensures answered { OnOk result (GrowsBy (λ output. AnswersQuestion S.world (own_state self.old.session)
            question.now output (own_state self.new.session)) (string_bytes text.old) (string_bytes text.new)) }
        ensures stands { StandsFor S.world S.own S.ready self.old.node (own_state self.old.session)
            → StandsFor S.world S.own S.ready self.old.node (own_state self.new.session) }
    {
        answer_question(&mut self.session, question, text)
    }
}

/// It first takes over what others did, and releases what the node owes of earlier commands.
impl<S: Viewed + StoresWorld + Resuming + Troubled, D: SharedNodes + Drop> Asked
    for NodeAnswerer<S, D> {
    ghost answers_escaped = { λ old line c text new. (new.node ≡ old.node) × AnswersWith written.Escaped S.settles
        S.shows S.spans S.step S.world (writes_in written.Escaped S.writes) old.node line [] (own_state old.session) c
        text (own_state new.session) };

    ghost asked = { λ old q text new. (new.node ≡ old.node) × AsksWith S.settles S.shows S.world S.trouble
        (own_state old.session) q text (own_state new.session) };

    fn answer_escaped(
        &mut self,
        line: &[u8],
        command: Command,
        text: &mut String,
    ) -> Result<(), AllocError> {
        self.look();
        self.settle();
        let was_cut = self.is_cut();
        self.answer_alone(Form::Escaped, line, command, text)?;
        self.go_on_unless(was_cut);
        Ok(())
    }

    fn ask(&mut self, question: Question, text: &mut String) -> Result<(), AllocError> {
        self.look();
        self.settle();
        let was_cut = self.is_cut();
        self.ask_alone(&question, text)?;
        self.go_on_unless(was_cut);
        Ok(())
    }
}
