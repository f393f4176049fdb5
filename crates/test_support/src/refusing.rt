//! How requests for memory come to be refused: by requests of reserved sizes, which a preloaded allocator
//! takes as orders (`tools/refuse.c`). Without it the same requests are answered and nothing is refused.

use std::alloc::Global;

/// The first reserved size. No other request is for so many bytes.
const ORDERS: usize = 0x14_0000;

/// How many sizes each order has.
const SPAN: usize = 0x1000;

/// More requests than are ever refused.
const NEVER: u16 = 0xfff;

/// Asks for so many bytes, gives them back, and returns whether they were there.
fn ask(alloc: Global, bytes: usize) -> bool {
    match Vec::<u8>::with_capacity(alloc, bytes) {
        Ok(_) => true,
        Err(_) => false,
    }
}

/// Which requests are refused. They are counted from the order on, from 1.
#[derive(Clone, Copy)]
pub enum Refusing {
    /// The one of this number.
    One(u16),
    /// The one of this number and each later one.
    From(u16),
}

/// Whether one request is refused, which shows a second one, or each later one too, which shows what is given back then.
#[derive(Clone, Copy)]
pub enum Mode {
    Alone,
    AndLater,
}

/// All modes.
pub const MODES: [Mode; 2] = [Mode::Alone, Mode::AndLater];

impl Mode {
    /// The order that refuses the request of this number.
    pub fn refusing(self, number: u16) -> Refusing {
        match self {
            Mode::Alone => Refusing::One(number),
            Mode::AndLater => Refusing::From(number),
        }
    }
}

/// How many requests were refused since the order.
#[derive(Clone, Copy, PartialEq, Eq)]
pub enum Refused {
    None,
    One,
    More,
}

/// Orders that these requests are refused from now on.
pub fn refuse(alloc: Global, refusing: Refusing) {
    let _ = match refusing {
        Refusing::One(number) => ask(alloc, ORDERS + usize::from(number)),
        Refusing::From(number) => ask(alloc, ORDERS + SPAN + usize::from(number)),
    };
}

/// Orders that none is refused from now on.
fn refuse_none(alloc: Global) {
    let _ = ask(alloc, ORDERS + 2 * SPAN);
}

/// Whether as many were refused since the last order to refuse. Where nobody obeys, any number was.
fn were_refused(alloc: Global, number: u16) -> bool {
    ask(alloc, ORDERS + 3 * SPAN + usize::from(number))
}

/// Whether orders are obeyed.
fn is_obeyed(alloc: Global) -> bool {
    were_refused(alloc, 0) && !were_refused(alloc, NEVER)
}

/// How many were refused since the last order to refuse. It asks for no memory of its own.
fn how_many(alloc: Global) -> Refused {
    if !is_obeyed(alloc) || !were_refused(alloc, 1) {
        Refused::None
    } else if were_refused(alloc, 2) {
        Refused::More
    } else {
        Refused::One
    }
}

/// Refuses none from now on, and returns how many were refused since the last order to refuse.
pub fn end(alloc: Global) -> Refused {
    let refused = how_many(alloc);
    refuse_none(alloc);
    refused
}
