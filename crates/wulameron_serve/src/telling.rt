//! What programs are told if a log, or nodes, refuse: one line each.

ghost use Rattle.std.specs.Prelude.{◌≡◌, ◌++◌, IfOk, OnOk, string_bytes};
ghost use Rattle.negotiate_serve.specs.Replies.{GrowsBy};
ghost use Rattle.wulameron_serve.specs.Telling.{IsLogReply, IsRefusal, greeting_of, node_why, refused_line, told_line};
ghost use Rattle.wulameron_serve.specs.Telling.{unclaimed_line, unclaimed_word};

use iceoryx2_monitoring::error::MonitoringFault;
use negotiate_lines::leaf::escape_leaf;
use std::alloc::{AllocError, Global};
use std::fmt;
use wulameron_place::claims::{NodeError, NodeFault};
use wulameron_place::trouble::Trouble;

/// Returns the line that answers nothing: the number of this form of lines, which is 3, and the node. `AllocError` if
/// there is no memory.
pub fn greeting(alloc: Global, node: u64) -> Result<String, AllocError>
    ensures { IfOk result (λ line. string_bytes line ≡ greeting_of node) }
{
    format!(in alloc; "ready 3 {node}\n")
}

/// Writes a line: words, and a leaf after them.
fn write_told(words: &str, why: &str, text: &mut String) -> Result<(), AllocError>
    ensures { OnOk result (string_bytes text.new ≡ string_bytes text.old ++ told_line words.now why.now) }
{
    write!(text, "{words} ")?;
    escape_leaf(why.as_bytes(), text)?;
    text.push_str("\n")
}

/// Writes why the log can't be used.
///
/// `AllocError` if there is no memory. The text may then have a part of the line.
pub fn tell_trouble(trouble: Trouble, text: &mut String) -> Result<(), AllocError>
    ensures { OnOk result (GrowsBy (IsLogReply trouble) (string_bytes text.old) (string_bytes text.new)) }
{
    let why = format!(in *text.allocator(); "the log {trouble}")?;
    write_told("log", &why, text)
}

/// Returns in words why a node isn't claimed, or not looked at.
fn why_not(alloc: Global, error: &NodeError) -> Result<String, AllocError>
    ensures { IfOk result (λ why. string_bytes why ≡ node_why error.now) }
{
    match error {
        NodeError::File(error) => format!(in alloc; "{error}"),
        NodeError::Database(fault) => format!(in alloc; "the log's {fault}"),
    }
}

/// Returns the word that tells that a node isn't claimed.
fn unclaimed_word(error: &NodeError) -> &'static str
    ensures { result.now ≡ unclaimed_word error.now }
{
    match error {
        NodeError::File(error) => match error.fault() {
            MonitoringFault::File(_) => "log",
            _ => "in use",
        },
        NodeError::Database(fault) => match fault {
            NodeFault::Refused(_) => "log",
            _ => "in use",
        },
    }
}

/// Writes why a node isn't claimed.
///
/// `AllocError` if there is no memory. The text may then have a part of the line.
pub fn tell_unclaimed(error: &NodeError, text: &mut String) -> Result<(), AllocError>
    ensures { OnOk result (string_bytes text.new ≡ string_bytes text.old ++ unclaimed_line error.now) }
{
    let why = why_not(*text.allocator(), error)?;
    write_told(unclaimed_word(error), &why, text)
}

/// Writes that the log refuses for this reason.
///
/// `AllocError` if there is no memory. The text may then have a part of the line.
pub fn refuse_by_log(why: &str, text: &mut String) -> Result<(), AllocError>
    ensures { OnOk result (string_bytes text.new ≡ string_bytes text.old ++ refused_line why.now) }
{
    write_told("refused by the log", why, text)
}

/// Writes that the log refuses because this goes wrong.
///
/// `AllocError` if there is no memory. The text may then have a part of the line.
pub fn refuse_for_trouble(trouble: Trouble, text: &mut String) -> Result<(), AllocError>
    ensures { OnOk result (GrowsBy (IsRefusal trouble) (string_bytes text.old) (string_bytes text.new)) }
{
    let why = format!(in *text.allocator(); "the log {trouble}")?;
    write_told("refused by the log", &why, text)
}

/// Writes that a node's file, or the holder of its claim, refuses.
///
/// `AllocError` if there is no memory. The text may then have a part of the line.
pub fn refuse_for(error: &NodeError, text: &mut String) -> Result<(), AllocError>
    ensures { OnOk result (string_bytes text.new ≡ string_bytes text.old ++ refused_line (node_why error.now)) }
{
    let why = why_not(*text.allocator(), error)?;
    refuse_by_log(&why, text)
}

/// Writes what is wrong with what has this path at the log's place.
///
/// `AllocError` if there is no memory. The text may then have a part of the line.
pub fn tell_wrong<X: fmt::Display + Copy>(
    path: &str,
    wrong: X,
    text: &mut String,
) -> Result<(), AllocError> {
    let why = format!(in *text.allocator(); "{path}: {wrong}")?;
    write_told("log", &why, text)
}
