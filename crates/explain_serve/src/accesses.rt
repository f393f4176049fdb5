//! The accesses of a call with their answers.

ghost use Rattle.std.specs.Prelude.{◌≡◌, ◌++◌, OnOk, drop, string_bytes};
ghost use Rattle.explain_serve.specs.Accesses.{entry_lines, forgotten_line, trace_lines};

use iceoryx2_testing::traced::Traced;
use std::alloc::AllocError;

/// Writes the latest accesses of a traced storage, as many as a call made, oldest first: how many of them aren't kept,
/// if any aren't, and then a line for each entry. `AllocError` if the text finds no memory; it may then have some of
/// the lines.
pub fn describe_accesses<S>(
    traced: &Traced<S>,
    made: u64,
    text: &mut String,
) -> Result<(), AllocError>
    ensures { OnOk result (string_bytes text.new ≡ string_bytes text.old ++ trace_lines made traced.now.entries) }
{
    let kept = traced.len();
    describe_forgotten(made.saturating_sub(kept as u64), text)?;
    describe_from(kept.saturating_sub(made as usize), traced, text)
}

/// Writes how many accesses before the first entry were forgotten, if any were.
fn describe_forgotten(forgotten: u64, text: &mut String) -> Result<(), AllocError>
    ensures { OnOk result (string_bytes text.new ≡ string_bytes text.old ++ forgotten_line forgotten) }
{
    match forgotten {
        0 => Ok(()),
        _ => writeln!(text, "  earlier accesses forgotten: {forgotten}"),
    }
}

/// Writes a line for each entry from this one on.
#[tactic(auto, using(crate::proofs::TextLines::next_line, crate::proofs::TextLines::no_line))]
fn describe_from<S>(first: usize, traced: &Traced<S>, text: &mut String) -> Result<(), AllocError>
    ensures { OnOk result (string_bytes text.new
        ≡ string_bytes text.old ++ entry_lines (drop first traced.now.entries)) }
{
    for index in first..traced.len() {
        match traced.get(index) {
            Some(entry) => writeln!(text, "  {entry}")?,
            None => {}
        }
    }
    Ok(())
}
