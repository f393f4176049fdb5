//! Answers the lines of one node over a storage that processes share.

ghost use Rattle.std.specs.Prelude.{◌≡◌, ◌-◌, ℕ, List, IfErr, IfOk, IfSome, OnOk, codes, string_bytes, true};
ghost use Rattle.iceoryx2_world.specs.Agreement.{Agrees};
ghost use Rattle.iceoryx2_builder.specs.declared.command.Command as declared-command;
ghost use Rattle.iceoryx2_builder.specs.declared.command.Command.TheVariants as command;
ghost use Rattle.iceoryx2_builder.specs.declared.command.Reply as declared-reply;
ghost use Rattle.iceoryx2_session.specs.CommandWords.{AppliesHeld, ClosesHeld, SpansSession, SpansTraced};
ghost use Rattle.iceoryx2_session.specs.Sessions.{AppliesBy, SessionOver};
ghost use Rattle.iceoryx2_session.specs.SessionStates.{own_state};
ghost use Rattle.iceoryx2_session.specs.StandingSlots.{IsOfOwn};
ghost use Rattle.iceoryx2_testing.specs.Trace.{IsTracedAccess};
ghost use Rattle.explain_serve.specs.Traces.{TracedOver};
ghost use Rattle.negotiate_lines.specs.declared.line.Line.TheVariants as parsed;
ghost use Rattle.negotiate_lines.specs.declared.leaf.Form.TheVariants as written;
ghost use Rattle.negotiate_lines.specs.Lines.{IsLineIn};
ghost use Rattle.negotiate_serve.specs.Replies.{GrowsBy};
ghost use Rattle.negotiate_serve.specs.Transcripts.{slot_named};
ghost use Rattle.wulameron_place.specs.Halts.{is_of_start};
ghost use Rattle.wulameron_place.specs.Troubles.{or_gone};
ghost use Rattle.wulameron_serve.specs.Lines.{IsUsable};
ghost use Rattle.wulameron_serve.specs.Shared.{AnswersFor, AnswersWith, BeginsAsAnswered, GivesBack, KnowsWhatIsGone};
ghost use Rattle.wulameron_serve.specs.Shared.{Replies, StandsFor, fresh_session, not_ours};
ghost use Rattle.wulameron_serve.specs.Views.{MayWrite, WritesExplained, writes_in};

use crate::dead::{clean_dead, is_blocked};
use crate::own_lines::OfNode;
use crate::view::Viewed;
use escaped_serve::reply::describe_escaped;
use iceoryx2_builder::command::{Call, Command, Reply};
use iceoryx2_description::config::Config;
use iceoryx2_session::resuming::Resuming;
use iceoryx2_session::session::Session;
use iceoryx2_session::world_storage::WorldStorage;
use negotiate_lines::leaf::Form;
use negotiate_lines::line::{Line, parse_in};
use negotiate_serve::answerer::{Answerer, slot_of};
use std::alloc::{AllocError, Global};
use std::io::Write;
use wulameron_place::dead::DeadNodes;
use wulameron_place::halt::Halt;
use wulameron_place::reports::Reports;
use wulameron_place::trouble::{Trouble, Troubled, trouble_or_gone};

/// Writes that a line names another node. `AllocError` if there is no memory for the text.
fn refuse_node(node: u64, text: &mut String) -> Result<(), AllocError>
    ensures { OnOk result (GrowsBy (λ output. output ≡ not_ours node) (string_bytes text.old) (string_bytes text.new)) }
{
    writeln!(text, "node {node} is not this program's")
}

/// What a command came to.
#[derive(Drop)]
pub(crate) struct Carried {
    pub(crate) reply: Reply,
    /// The slot that the command names.
    slot: usize,
    /// How many accesses the command made, if they are counted.
    made: u64,
}

/// A session, the node in whose name its lines are, and a finder of dead nodes. It has to be spent by `finish`.
pub struct NodeAnswerer<S, D> {
    pub(crate) node: u64,
    pub(crate) session: Session<S>,
    pub(crate) dead: D,
    /// Whether the log has refused something, so that a command may have left something that no slot holds.
    may_owe: bool,
    /// Whether slots were emptied, because others released what the node had while the log's session was over.
    is_gone: bool,
}

impl<S: Viewed + Resuming + Troubled, D: DeadNodes + Drop> NodeAnswerer<S, D> {
    /// Returns an answerer with a new session over a storage of which the node is an own one. All its slots are free.
    pub fn new(node: u64, storage: S, dead: D) -> NodeAnswerer<S, D>
        ensures node { result.node ≡ node }
        ensures session { own_state result.session ≡ fresh_session storage }
        ensures stands { Agrees (S.world storage) → S.own storage node ≡ true → S.ready storage
            → StandsFor S.world S.own S.ready node (own_state result.session) }
    {
        NodeAnswerer {
            node,
            session: Session::over(Config::default(), storage),
            dead,
            may_owe: false,
            is_gone: false,
        }
    }

    /// Returns an answerer with a session that may have done something already.
    pub fn over(node: u64, session: Session<S>, dead: D) -> NodeAnswerer<S, D>
        ensures node { result.node ≡ node }
        ensures session { result.session ≡ session }
    {
        let may_owe = session.storage().trouble().is_some();
        NodeAnswerer {
            node,
            session,
            dead,
            may_owe,
            is_gone: false,
        }
    }

    /// Returns the session and the finder of dead nodes.
    pub fn into_parts(self) -> (Session<S>, D)
        ensures { result.0 ≡ self.session }
    {
        let NodeAnswerer {
            node: _,
            session,
            dead,
            may_owe: _,
            is_gone: _,
        } = self;
        (session, dead)
    }

    /// Returns the node in whose name the lines are.
    pub fn node(&self) -> u64
        ensures { result ≡ self.now.node }
    {
        self.node
    }

    /// Releases what dead nodes have. Returns whether anything was released.
    pub fn clean(&mut self, alloc: Global) -> bool
        ensures node { self.new.node ≡ self.old.node }
        ensures shows { SpansSession S.shows (own_state self.old.session) (own_state self.new.session) }
        ensures stands { StandsFor S.world S.own S.ready self.old.node (own_state self.old.session)
            → StandsFor S.world S.own S.ready self.old.node (own_state self.new.session) }
    {
        clean_dead(alloc, &mut self.session, &self.dead)
    }

    /// Returns the storage, for its readers.
    pub fn storage(&self) -> &S
        ensures { result.now ≡ (own_state self.now.session).table }
    {
        self.session.storage()
    }

    /// Releases what the node has besides the factories of the slots, if a command may have left something. If the
    /// log's session has ended, it first goes on in another one.
    pub(crate) fn settle(&mut self)
        ensures node { self.new.node ≡ self.old.node }
        ensures gives { GivesBack S.settles (own_state self.old.session) (own_state self.new.session) }
        ensures stands { StandsFor S.world S.own S.ready self.old.node (own_state self.old.session)
            → StandsFor S.world S.own S.ready self.old.node (own_state self.new.session) }
    {
        self.go_on();
        if !self.may_owe {
            return;
        }
        self.may_owe = self.session.settle(self.node).is_err();
    }

    /// Returns whether the log's session has ended.
    pub(crate) fn is_cut(&self) -> bool {
        match self.storage().trouble() {
            Some(trouble) => trouble.is_cut(),
            None => false,
        }
    }

    /// Returns whether others released what the node had while the log's session was over.
    pub(crate) fn is_gone(&self) -> bool
        ensures { result ≡ self.now.is_gone }
    {
        self.is_gone
    }

    /// Goes on in another session if the log's session has ended: it takes over what was appended meanwhile, and
    /// releases what the node has besides the factories of the slots. If these factories are gone, it empties the slots
    /// first. If no other session can be had, nothing changes.
    pub fn go_on(&mut self)
        ensures node { self.new.node ≡ self.old.node }
        ensures gives { GivesBack S.settles (own_state self.old.session) (own_state self.new.session) }
        ensures stands { StandsFor S.world S.own S.ready self.old.node (own_state self.old.session)
            → StandsFor S.world S.own S.ready self.old.node (own_state self.new.session) }
        ensures gone { KnowsWhatIsGone (own_state self.old.session) self.new.is_gone (own_state self.new.session) }
    {
        if !self.is_cut() {
            return;
        }
        if !self.dead.reclaim(self.node) {
            return;
        }
        let stands = self.session.resume();
        self.is_gone = self.is_gone || !stands;
        self.may_owe = self.session.settle(self.node).is_err();
    }

    /// Closes all that is open, and returns the storage.
    pub fn finish(self) -> S
        ensures closes { ClosesHeld S.spans S.step (own_state self.session).table
            (own_state self.session).slots result }
        ensures agrees { StandsFor S.world S.own S.ready self.node (own_state self.session)
            → Agrees (S.world result) }
    {
        let NodeAnswerer {
            node: _,
            session,
            dead: _,
            may_owe: _,
            is_gone: _,
        } = self;
        session.close_all_held()
    }

    /// Carries a command out, and counts the accesses that it makes.
    pub(crate) fn carry_out(&mut self, command: Command) -> Carried
        ensures node { self.new.node ≡ self.old.node }
        ensures slot { result.slot ≡ slot_named command }
        ensures held { (is : AppliesHeld S.spans S.step S.world (own_state self.old.session) command result.reply
            (own_state self.new.session)) × (result.made ≡ S.counted is.last.table - S.counted is.first.table) }
        ensures stands { StandsFor S.world S.own S.ready self.old.node (own_state self.old.session)
            → IsOfOwn (S.own (own_state self.old.session).table) (own_state self.old.session).config command
            → StandsFor S.world S.own S.ready self.old.node (own_state self.new.session) }
    {
        let slot = slot_of(&command);
        let before = self.storage().counted();
        let reply = self.session.apply_held(command);
        self.may_owe = self.may_owe || self.storage().trouble().is_some();
        let made = self.storage().counted().saturating_sub(before);
        Carried { reply, slot, made }
    }

    /// Writes the reply to a line's command, in this form.
    fn write(
        &self,
        form: Form,
        line: &[u8],
        carried: &Carried,
        text: &mut String,
    ) -> Result<(), AllocError>
        requires { MayWrite form line.now carried.now.reply }
        ensures { (c : declared-command.Command) (first last : SessionOver S) → carried.now.slot ≡ slot_named c
            → S.ready first.table → AppliesBy S.step S.world first c carried.now.reply last
            → carried.now.made ≡ S.counted last.table - S.counted first.table
            → OnOk result (GrowsBy
            (writes_in form S.writes line.now c carried.now.reply first last (own_state self.now.session).table)
            (string_bytes text.old) (string_bytes text.new)) }
    {
        match form {
            Form::Plain => self
                .storage()
                .write_reply(line, carried.slot, &carried.reply, carried.made, text),
            Form::Escaped => describe_escaped(&carried.reply, carried.slot, text),
        }
    }

    /// Carries a line's command out, and writes the reply in this form.
    fn reply(
        &mut self,
        form: Form,
        line: &[u8],
        command: Command,
        text: &mut String,
    ) -> Result<(), AllocError>
        requires { IsLineIn form line.now (parsed.Command command) }
        ensures node { self.new.node ≡ self.old.node }
        ensures answered { S.ready (own_state self.old.session).table
            → OnOk result (GrowsBy (λ output. (answer : declared-reply.Reply) × Replies S.spans S.step S.world
            (writes_in form S.writes) line.now (own_state self.old.session) command answer output
            (own_state self.new.session))
            (string_bytes text.old) (string_bytes text.new)) }
        ensures stands { StandsFor S.world S.own S.ready self.old.node (own_state self.old.session)
            → IsOfOwn (S.own (own_state self.old.session).table) (own_state self.old.session).config command
            → StandsFor S.world S.own S.ready self.old.node (own_state self.new.session) }
    {
        let carried = self.carry_out(command);
        self.write(form, line, &carried, text)
    }

    /// Does the same, unless the session had ended before. Then no other session could be had.
    pub(crate) fn go_on_unless(&mut self, was_cut: bool)
        ensures node { self.new.node ≡ self.old.node }
        ensures gives { GivesBack S.settles (own_state self.old.session) (own_state self.new.session) }
        ensures stands { StandsFor S.world S.own S.ready self.old.node (own_state self.old.session)
            → StandsFor S.world S.own S.ready self.old.node (own_state self.new.session) }
    {
        if was_cut {
            return;
        }
        self.go_on();
    }

    /// Answers a call of a line in this form, unless it is in the name of another node. If the call is refused and a
    /// dead node may be the cause, it releases what dead nodes have, and makes the call once more.
    fn call(
        &mut self,
        form: Form,
        line: &[u8],
        call: Call,
        text: &mut String,
    ) -> Result<(), AllocError>
        requires { IsLineIn form line.now (parsed.Command (command.Call call)) }
        ensures node { self.new.node ≡ self.old.node }
        ensures answered { StandsFor S.world S.own S.ready self.old.node (own_state self.old.session)
            → OnOk result (GrowsBy (λ output. AnswersFor form S.shows S.spans S.step S.world
            (writes_in form S.writes) self.old.node line.now (own_state self.old.session) (command.Call call) output
            (own_state self.new.session))
            (string_bytes text.old) (string_bytes text.new)) }
        ensures stands { StandsFor S.world S.own S.ready self.old.node (own_state self.old.session)
            → StandsFor S.world S.own S.ready self.old.node (own_state self.new.session) }
    {
        let node = call.node;
        if node != self.node {
            return refuse_node(node, text);
        }
        let carried = self.carry_out(Command::Call(call));
        if !is_blocked(&carried.reply) {
            return self.write(form, line, &carried, text);
        }
        let alloc = *text.allocator();
        if !self.clean(alloc) {
            return self.write(form, line, &carried, text);
        }
        match call_of(alloc, form, line, node) {
            None => self.write(form, line, &carried, text),
            Some(call) => self.reply(form, line, Command::Call(call), text),
        }
    }

    /// Takes over what others have done up to now. The log isn't held meanwhile, so a call has little to read while it
    /// holds the log.
    pub(crate) fn look(&mut self)
        ensures node { self.new.node ≡ self.old.node }
        ensures shows { SpansSession S.shows (own_state self.old.session) (own_state self.new.session) }
        ensures stands { StandsFor S.world S.own S.ready self.old.node (own_state self.old.session)
            → StandsFor S.world S.own S.ready self.old.node (own_state self.new.session) }
    {
        self.session.refresh();
    }

    /// Answers a command of a line in this form, without what follows each answer.
    pub(crate) fn answer_alone(
        &mut self,
        form: Form,
        line: &[u8],
        command: Command,
        text: &mut String,
    ) -> Result<(), AllocError>
        requires { IsLineIn form line.now (parsed.Command command) }
        ensures node { self.new.node ≡ self.old.node }
        ensures answered { StandsFor S.world S.own S.ready self.old.node (own_state self.old.session)
            → OnOk result (GrowsBy (λ output. AnswersFor form S.shows S.spans S.step S.world
            (writes_in form S.writes) self.old.node line.now (own_state self.old.session) command output
            (own_state self.new.session))
            (string_bytes text.old) (string_bytes text.new)) }
        ensures stands { StandsFor S.world S.own S.ready self.old.node (own_state self.old.session)
            → StandsFor S.world S.own S.ready self.old.node (own_state self.new.session) }
    {
        match command {
            Command::Call(call) => self.call(form, line, call, text),
            Command::Close { slot } => self.reply(form, line, Command::Close { slot }, text),
            Command::List => self.reply(form, line, Command::List, text),
        }
    }
}

impl<S: Viewed + Resuming + Troubled + Drop, D: DeadNodes + Drop> NodeAnswerer<S, D> {
    /// Returns an answerer over a storage of which the node is an own one, after it has released what dead nodes have.
    /// It tells what goes wrong at the log.
    ///
    /// `Halt` if the log can't be used any more.
    pub fn cleaned<E: Write>(
        node: u64,
        storage: S,
        dead: D,
        reports: &mut Reports<'_, E>,
    ) -> Result<NodeAnswerer<S, D>, Halt>
        requires agrees { Agrees (S.world storage) }
        requires of_own { S.own storage node ≡ true }
        requires ready { S.ready storage }
        ensures node { IfOk result (λ answerer. answerer.node ≡ node) }
        ensures shows { IfOk result (λ answerer.
            SpansSession S.shows (fresh_session storage) (own_state answerer.session)) }
        ensures stands { IfOk result (λ answerer. StandsFor S.world S.own S.ready node (own_state answerer.session)) }
        ensures usable { IfOk result (λ answerer. IsUsable (or_gone answerer.is_gone
            (S.trouble (own_state answerer.session).table))) }
        ensures err { IfErr result (λ halt. is_of_start halt ≡ true) }
    {
        let mut answerer = NodeAnswerer::new(node, storage, dead);
        let _ = answerer.clean(reports.alloc());
        match reports.look(&answerer) {
            None => Ok(answerer),
            Some(trouble) => {
                drop(answerer.finish());
                Err(Halt::Log(trouble))
            }
        }
    }
}

/// Returns the call of a line in this form, if it is one in the name of this node and there is memory for it.
pub fn call_of(alloc: Global, form: Form, line: &[u8], node: u64) -> Option<Call>
    ensures { IfSome result (λ call.
        IsLineIn form line.now (parsed.Command (command.Call call)) × (call.node ≡ node)) }
{
    match parse_in(alloc, form, line) {
        Ok(Line::Command(Command::Call(call))) => {
            if call.node == node {
                return Some(call);
            }
            None
        }
        _ => None,
    }
}

/// It first takes over what others did, and releases what the node owes of earlier commands. A call in the name of
/// another node changes nothing.
impl<S: Viewed + Resuming + Troubled, D: DeadNodes + Drop> Answerer for NodeAnswerer<S, D> {
    ghost answers = { λ old line c text new. (new.node ≡ old.node) × AnswersWith written.Plain S.settles S.shows S.spans
        S.step S.world S.writes old.node line S.ending (own_state old.session) c text (own_state new.session) };

    ghost stands = { λ s. StandsFor S.world S.own S.ready s.node (own_state s.session) };

    fn answer(
        &mut self,
        line: &[u8],
        command: Command,
        text: &mut String,
    ) -> Result<(), AllocError> {
        self.look();
        self.settle();
        let was_cut = self.is_cut();
        self.answer_alone(Form::Plain, line, command, text)?;
        self.go_on_unless(was_cut);
        text.push_str(S::ending())
    }
}

impl<S: Viewed + Resuming + Troubled, D: DeadNodes + Drop> OfNode for NodeAnswerer<S, D> {
    ghost own_node = { λ answerer. answerer.node };

    fn own_node(&self) -> u64 {
        self.node
    }
}

impl<S: Viewed + Resuming + Troubled, D: DeadNodes + Drop> Troubled for NodeAnswerer<S, D> {
    ghost trouble = { λ answerer. or_gone answerer.is_gone (S.trouble (own_state answerer.session).table) };

    fn trouble(&self) -> Option<Trouble> {
        trouble_or_gone(self.is_gone, self.storage().trouble())
    }
}

/// States what is true of each answer that is explained.
pub fn explanations<S: WorldStorage>()
    // It begins with what is written without explanations, over the storage inside.
    ensures { (node : ℕ) (line : List ℕ) (old new : TracedOver S) (c : declared-command.Command) (text : List ℕ)
        → AnswersWith written.Plain (SpansTraced S.settles) (SpansTraced S.shows) (SpansTraced S.spans)
        (IsTracedAccess S.step) (λ traced. S.world traced.inner)
        (WritesExplained S.step S.world) node line (codes "\n") old c text new
        → BeginsAsAnswered S.settles S.shows S.spans S.step S.world node line old c text new }
{}
