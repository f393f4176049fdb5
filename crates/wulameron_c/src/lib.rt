//! The library for callers in C: a session over a table that is opened, asked line by line, and closed.
//!
//! Nothing here blocks, locks or starts a thread. What a caller owes stands in `bindings/c/wulameron_c.h`.
//!
//! Each export leaves a sound handle sound (`IsSound`): a session is freed once. A handle is opened over a session that
//! nothing was asked of (`Opens`, `IsFresh`), and holds none once it is closed (`Closes`). A line is answered as an
//! escaped session over a table answers it, and its reply is written into its place or kept for the next call
//! (`AnswersInto`). Where the handle isn't open the code is `NOT_OPEN`, and all places stay. The functions of a box that
//! is taken apart, and of a session's pointer, are proved by hand. The header and the shim are tested by
//! `tools/check-bindings` alone.
#![tactic(auto)]

mod pointer;
mod raw_box;
mod table_session;

ghost use Rattle.std.specs.Prelude.{◌≡◌, ◌≢◌, IfSome, None, Some};
ghost use Rattle.wulameron_c.specs.Pointers.{Acts, Closes, IsSound, Opens, open_mark};
ghost use Rattle.wulameron_c.specs.TableSessions.{AnswersInto};

use crate::pointer::SessionPointer;
use crate::raw_box::RawBox;
use crate::table_session::TableSession;
use std::alloc::Global;

/// It was done.
const DONE: u32 = 0;

/// There was no memory.
const OUT_OF_MEMORY: u32 = 4;

/// The reply has more bytes than its place.
const TOO_SMALL: u32 = 5;

/// The handle isn't open.
const NOT_OPEN: u32 = 23;

/// The handle is open already.
const IS_OPEN: u32 = 24;

/// The mark of an open handle: `wulamero` in ASCII.
const OPEN: u64 = 0x7775_6c61_6d65_726f;

/// What C holds: all zero before it is opened and after it is closed.
#[repr(C)]
#[derive(Drop)]
pub struct Handle {
    mark: u64,
    held: SessionPointer,
}

impl Handle {
    /// Takes the session out of an open handle. `None` where it isn't open, and then all stays.
    fn take(&mut self, alloc: Global) -> Option<Box<TableSession>>
        requires { IsSound self.old.mark self.old.held.session }
        ensures mark { self.new.mark ≡ self.old.mark }
        ensures none { result ≡ None
            → (self.old.mark ≢ open_mark) × (self.new.held.session ≡ self.old.held.session) }
        ensures some { IfSome result (λ session. (self.old.mark ≡ open_mark)
            × (self.old.held.session ≡ Some session.value) × (self.new.held.session ≡ None)) }
    {
        if self.mark != OPEN {
            return None;
        }
        let held = std::mem::replace(&mut self.held, SessionPointer::null(alloc));
        Some(held.into_raw_box().join())
    }

    /// Puts a session into the handle.
    fn put(&mut self, session: Box<TableSession>)
        ensures mark { self.new.mark ≡ self.old.mark }
        ensures held { self.new.held.session ≡ Some session.value }
    {
        self.held = SessionPointer::of(RawBox::take(session));
    }
}

/// The number of this interface: it grows where a caller has to be compiled again.
#[unsafe(no_mangle)]
pub extern "C" fn wulameron_c_version() -> u32
    ensures { result ≡ 2 }
{
    2
}

/// Opens a handle that is all zero: a session over a table of its own. `IS_OPEN`, `OUT_OF_MEMORY`.
#[unsafe(no_mangle)]
pub extern "C" fn wulameron_c_open_table(alloc: Global, handle: &mut Handle) -> u32
    requires { IsSound handle.old.mark handle.old.held.session }
    ensures sound { IsSound handle.new.mark handle.new.held.session }
    ensures opens { Opens handle.old.mark handle.old.held.session result handle.new.mark handle.new.held.session }
{
    if handle.mark == OPEN {
        return IS_OPEN;
    }
    match Box::new(alloc, TableSession::new(alloc)) {
        Ok(session) => {
            handle.held = SessionPointer::of(RawBox::take(session));
            handle.mark = OPEN;
            DONE
        }
        Err(_) => OUT_OF_MEMORY,
    }
}

/// Answers a line of an escaped session, without its end, and writes the reply into its place, and its length. A line of
/// no bytes asks for the last reply again.
///
/// `NOT_OPEN`. `OUT_OF_MEMORY`, after which the last reply is gone. `TOO_SMALL` where the reply has more bytes than the
/// place, which is as it was then: the reply is kept until the next line.
#[unsafe(no_mangle)]
pub extern "C" fn wulameron_c_line(
    alloc: Global,
    handle: &mut Handle,
    line: &[u8],
    output: &mut [u8],
    written: &mut usize,
) -> u32
    requires { IsSound handle.old.mark handle.old.held.session }
    ensures sound { IsSound handle.new.mark handle.new.held.session }
    ensures mark { handle.new.mark ≡ handle.old.mark }
    ensures acts { Acts handle.old.mark handle.old.held.session handle.new.held.session result
        (λ s t. AnswersInto line.now s result output.old written.old t output.new written.new)
        ((output.new ≡ output.old) × (written.new ≡ written.old)) }
{
    let Some(mut session) = handle.take(alloc) else {
        return NOT_OPEN;
    };
    let code = session.answer_into(line, output, written);
    handle.put(session);
    code
}

/// Closes what the session holds, and the handle, and frees it. `NOT_OPEN`.
#[unsafe(no_mangle)]
pub extern "C" fn wulameron_c_close_session(alloc: Global, handle: &mut Handle) -> u32
    requires { IsSound handle.old.mark handle.old.held.session }
    ensures sound { IsSound handle.new.mark handle.new.held.session }
    ensures closes { Closes handle.old.mark handle.old.held.session result handle.new.mark
        handle.new.held.session }
{
    let Some(session) = handle.take(alloc) else {
        return NOT_OPEN;
    };
    handle.mark = 0;
    drop(session);
    DONE
}
