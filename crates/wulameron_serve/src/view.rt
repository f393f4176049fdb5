//! How a reply is written over a storage: plain, or with the accesses that the storage keeps.

ghost use Rattle.std.specs.Prelude.{◌≡◌, ℕ, ◌-◌, List, OnOk, string_bytes};
ghost use Rattle.iceoryx2_builder.specs.declared.command.Command.{Command};
ghost use Rattle.iceoryx2_builder.specs.declared.command.Reply as declared-reply;
ghost use Rattle.iceoryx2_session.specs.Sessions.{SessionOver, AppliesBy};
ghost use Rattle.negotiate_serve.specs.Replies.{GrowsBy};
ghost use Rattle.negotiate_serve.specs.Transcripts.{slot_named};
ghost use Rattle.explain_serve.specs.Explained.{MayHaveReason, refusal_of};
ghost use Rattle.wulameron_serve.specs.Views.{WritesExplained, WritesPlain};

use explain_serve::lines::describe_lines;
use iceoryx2_builder::command::Reply;
use iceoryx2_journal::journal::Journal;
use iceoryx2_log::call_log::SpansCalls;
use iceoryx2_session::world_storage::WorldStorage;
use iceoryx2_table::table::stored::StoredWorld;
use iceoryx2_testing::traced::Traced;
use negotiate_serve::reply::describe;
use std::alloc::AllocError;
use wulameron_place::trouble::Refusing;

/// A storage that knows how a reply of a session over it is written.
pub trait Viewed: WorldStorage {
    /// What holds of it between two lines.
    ghost ready: { Self → Type 0 };

    /// How many accesses it has counted.
    ghost counted: { Self → ℕ };

    /// What is written of a reply to a line's command, by which a session came from `first` to `last`, as the storage
    /// is shown then.
    ghost writes: { (line : List ℕ) → Command → declared-reply.Reply → (first last : SessionOver Self) → (shown : Self)
        → (text : List ℕ) → Type 0 };

    /// What follows each answer.
    ghost ending: { List ℕ };

    /// Returns how many accesses it has counted.
    fn counted(&self) -> u64
        ensures { result ≡ counted self.now };

    /// Writes the reply to a line's command for this slot that made this many accesses.
    ///
    /// `AllocError` if memory runs out. The text may then have a part of this.
    fn write_reply(
        &self,
        line: &[u8],
        slot: usize,
        reply: &Reply,
        made: u64,
        text: &mut String,
    ) -> Result<(), AllocError>
        requires { MayHaveReason line.now (refusal_of reply.now) }
        ensures { (c : Command) (first last : SessionOver Self) → slot ≡ slot_named c → ready first.table
            → AppliesBy Self.step Self.world first c reply.now last
            → made ≡ counted last.table - counted first.table
            → OnOk result (GrowsBy (writes line.now c reply.now first last self.now)
            (string_bytes text.old) (string_bytes text.new)) };

    /// Returns what follows each answer.
    fn ending() -> &'static str
        ensures { result.now ≡ ending };

    /// It stays ready while it takes over what others did and cleans up for them,
    ghost ready_shown: { (old new : Self) → Self.shows old new → ready old → ready new };

    /// while the node releases something,
    ghost ready_settled: { (old new : Self) → Self.settles old new → ready old → ready new };

    /// and while a call begins or ends,
    ghost ready_spanned: { (old new : Self) → Self.spans old new → ready old → ready new };

    /// which is no access,
    ghost counted_spanned: { (old new : Self) → Self.spans old new → counted new ≡ counted old };

    /// and it is ready after a command if it was ready before.
    ghost ready_after: { (first last : SessionOver Self) (c : Command) (answer : declared-reply.Reply)
        → AppliesBy Self.step Self.world first c answer last → ready first.table → ready last.table };
}

/// A storage whose world can be read.
pub trait StoresWorld: WorldStorage {
    /// Returns the world that it shows.
    fn stored(&self) -> &StoredWorld
        ensures { result.now ≡ Self.world self.now };
}

impl<L: SpansCalls> StoresWorld for Journal<L> {
    fn stored(&self) -> &StoredWorld {
        self.world()
    }
}

// Over a journal a reply is written as it is.
impl<L: Refusing + SpansCalls> Viewed for Journal<L> {
    ghost use Rattle.std.specs.Prelude.{[], refl};

    ghost ready = { λ journal. Unit {0} };

    ghost counted = { λ journal. 0 };

    ghost writes = { WritesPlain };

    ghost ending = { [] };

    ghost ready_shown = { λ old new shown ready. tt };

    ghost ready_settled = { λ old new settled ready. tt };

    ghost ready_spanned = { λ old new spanned ready. tt };

    ghost counted_spanned = { λ old new spanned. refl };

    ghost ready_after = { λ first last c answer applies ready. tt };

    fn counted(&self) -> u64 {
        0
    }

    fn write_reply(
        &self,
        _line: &[u8],
        slot: usize,
        reply: &Reply,
        _made: u64,
        text: &mut String,
    ) -> Result<(), AllocError> {
        describe(reply, slot, text)
    }

    fn ending() -> &'static str {
        ""
    }
}

// Over a storage that keeps its accesses each reply is followed by them and an empty line, and a refusal by its cause.
impl<S: WorldStorage> Viewed for Traced<S> {
    ghost use Rattle.std.specs.Prelude.{codes};
    ghost use Rattle.explain_serve.specs.Traces.{HasItsRoom};
    ghost use Rattle.explain_serve.proofs.Traces.{room_after, room_kept_by, total_kept_by};

    ghost ready = { λ traced. HasItsRoom traced };

    ghost counted = { λ traced. traced.total };

    ghost writes = { WritesExplained S.step S.world };

    ghost ending = { codes "\n" };

    ghost ready_shown = { room_kept_by S.shows };

    ghost ready_settled = { room_kept_by S.settles };

    ghost ready_spanned = { room_kept_by S.spans };

    ghost counted_spanned = { total_kept_by S.spans };

    ghost ready_after = { room_after S.step S.world };

    fn counted(&self) -> u64 {
        self.total()
    }

    fn write_reply(
        &self,
        line: &[u8],
        slot: usize,
        reply: &Reply,
        made: u64,
        text: &mut String,
    ) -> Result<(), AllocError> {
        describe_lines(line, slot, reply, made, self, text)
    }

    fn ending() -> &'static str {
        "\n"
    }
}
