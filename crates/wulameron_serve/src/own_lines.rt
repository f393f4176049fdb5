//! Answers lines in which `-` is the program's own node.

ghost use Rattle.std.specs.Prelude.{◌≡◌, ◌++◌, ℕ, List, IfOk, IsTrue, MatchOption, decimal};
ghost use Rattle.wulameron_serve.specs.Own.{AnswersNamed, EndsTerm, IsBehindSpaces, IsBehindWord, IsFromThird};
ghost use Rattle.wulameron_serve.specs.Own.{IsNamedOrKept, IsOwnAt, TellsNamed};

use negotiate_serve::ending::Ending;
use negotiate_serve::lines::Lines;
use std::alloc::{AllocError, Global};
use wulameron_place::halt::Halt;

/// Answers lines in the name of a node.
pub trait OfNode {
    /// The node.
    ghost own_node: { Self → ℕ };

    /// Returns the node.
    fn own_node(&self) -> u64
        ensures { result ≡ own_node self.now };
}

/// Answers a line whose third term is `-` as the line that has the number of the answerer's node there. It asks for
/// memory for such a line alone.
#[derive(Clone, Copy)]
pub struct OwnLines<I> {
    pub lines: I,
}

impl<A: OfNode, I: Lines<A>> Lines<A> for OwnLines<I> {
    ghost lines = { λ own. AnswersNamed A.own_node (I.lines own.lines) };

    ghost stands = { I.stands };

    ghost ends_at_wrong = { λ own. I.ends_at_wrong own.lines };

    fn answer_line(
        &self,
        number: u64,
        line: &[u8],
        answerer: &mut A,
        text: &mut String,
    ) -> Result<bool, AllocError> {
        match own_place(line) {
            None => self.lines.answer_line(number, line, answerer, text),
            Some((before, behind)) => {
                let named = with_node(*text.allocator(), before, answerer.own_node(), behind)?;
                self.lines.answer_line(number, &named, answerer, text)
            }
        }
    }
}

/// Returns a text without the spaces at its beginning.
fn behind_spaces(text: &[u8]) -> &[u8]
    ensures { IsBehindSpaces text.now result.now }
{
    let mut rest = text;
    while let Some((first, behind)) = rest.split_first() {
        if *first != b' ' {
            return rest;
        }
        rest = behind;
    }
    rest
}

/// Returns a text without what precedes its first space.
fn behind_word(text: &[u8]) -> &[u8]
    ensures { IsBehindWord text.now result.now }
{
    let mut rest = text;
    while let Some((first, behind)) = rest.split_first() {
        if *first == b' ' {
            return rest;
        }
        rest = behind;
    }
    rest
}

/// Returns a line from its third term on.
fn from_third(line: &[u8]) -> &[u8]
    ensures { IsFromThird line.now result.now }
{
    let second = behind_spaces(behind_word(behind_spaces(line)));
    behind_spaces(behind_word(second))
}

/// Returns whether a term ends before this.
fn ends_term(behind: &[u8]) -> bool
    ensures { (IsTrue result → EndsTerm behind.now) × (EndsTerm behind.now → IsTrue result) }
{
    match behind.split_first() {
        Some((first, _)) => *first == b' ',
        None => true,
    }
}

/// Returns what precedes the third term of a line, and what follows it, if that term is `-`.
fn own_place(line: &[u8]) -> Option<(&[u8], &[u8])>
    ensures { MatchOption result ((before behind : List ℕ) → IsOwnAt line.now before behind → ⊥)
        (λ parts. IsOwnAt line.now parts.0.now parts.1.now) }
{
    let third = from_third(line);
    let Some((first, behind)) = third.split_first() else {
        return None;
    };
    if *first != b'-' {
        return None;
    }
    if !ends_term(behind) {
        return None;
    }
    Some((&line[..line.len() - third.len()], behind))
}

/// Returns a line in which a node stands between these two parts. `AllocError` if there is no memory for it.
fn with_node(alloc: Global, before: &[u8], node: u64, behind: &[u8]) -> Result<Vec<u8>, AllocError>
    ensures { IfOk result (λ line. line.items ≡ before.now ++ (decimal node ++ behind.now)) }
{
    let number = format!(in alloc; "{node}")?;
    let mut line = Vec::new(alloc);
    line.extend_from_slice(before)?;
    line.extend_from_slice(number.as_bytes())?;
    line.extend_from_slice(behind)?;
    Ok(line)
}

/// Returns such a line with a node in it. Any other line is returned as it is, and so is each line if there is no
/// memory.
fn named_or_kept(alloc: Global, node: u64, line: Vec<u8>) -> Vec<u8>
    ensures { IsNamedOrKept node line.items result.items }
{
    let Some((before, behind)) = own_place(&line) else {
        return line;
    };
    match with_node(alloc, before, node, behind) {
        Ok(named) => named,
        Err(_) => line,
    }
}

/// Returns how lines of a node ended, with the line that ended them as it was answered, as far as there is memory.
pub(crate) fn told_end(
    alloc: Global,
    node: u64,
    ended: Result<Ending, Halt>,
) -> Result<Ending, Halt>
    ensures { TellsNamed node ended result }
{
    match ended {
        Err(halt) => Err(halt),
        Ok(ending) => match ending {
            Ending::InputEnded => Ok(Ending::InputEnded),
            Ending::NotACommand { number, line } => {
                let line = named_or_kept(alloc, node, line);
                Ok(Ending::NotACommand { number, line })
            }
        },
    }
}
