//! The rows that the server tells of nodes.

ghost use Rattle.std.specs.Prelude.{◌≡◌, ◌<◌, ◌∷◌, [], map, IfOk, IfSome, IsTrue, All, decimal, string_bytes};
ghost use Rattle.iceoryx2_postgres_log.specs.Nodes.{free_rows, life_word, node_row, IsRising};

use super::{Life, NodeRow};
use crate::line::Line;
use crate::number::number_of;
use std::alloc::{AllocError, Global};

/// Returns the number whose decimal form the line is.
fn decimal_of(alloc: Global, line: &[u8]) -> Result<Option<u64>, AllocError>
    ensures { IfOk result (λ found. IfSome found (λ number. line.now ≡ decimal number)) }
{
    let Some(number) = number_of(line) else {
        return Ok(None);
    };
    let printed = format!(in alloc; "{number}")?;
    if line == printed.as_bytes() {
        return Ok(Some(number));
    }
    Ok(None)
}

/// Returns the word for whether a session has a node.
fn word_of(life: Life) -> &'static str
    ensures { result.now ≡ life_word life }
{
    match life {
        Life::Alive => "alive",
        Life::Lost => "lost",
        Life::Dead => "dead",
    }
}

/// Returns the row by which the server tells a node.
fn row_text(alloc: Global, row: NodeRow) -> Result<String, AllocError>
    ensures { IfOk result (λ text. string_bytes text ≡ node_row row) }
{
    let NodeRow { node, life } = row;
    let word = word_of(life);
    format!(in alloc; "{node} {word}")
}

/// Returns whether a session has the node that the line seems to tell.
fn read_life(line: &[u8]) -> Life {
    if line.ends_with(b" alive") {
        return Life::Alive;
    }
    if line.ends_with(b" lost") {
        return Life::Lost;
    }
    Life::Dead
}

/// Returns the node that the line seems to tell.
fn read_row(line: &[u8]) -> Option<NodeRow> {
    let life = read_life(line);
    let word = word_of(life);
    let digits = line.strip_suffix(word.as_bytes())?.strip_suffix(b" ")?;
    let node = number_of(digits)?;
    Some(NodeRow { node, life })
}

/// Returns the node that the line tells.
fn row_of(alloc: Global, line: &[u8]) -> Result<Option<NodeRow>, AllocError>
    ensures { IfOk result (λ found. IfSome found (λ row. line.now ≡ node_row row)) }
{
    let Some(row) = read_row(line) else {
        return Ok(None);
    };
    let printed = row_text(alloc, row)?;
    if line == printed.as_bytes() {
        return Ok(Some(row));
    }
    Ok(None)
}

/// Returns true if the node has a higher number than all of these.
fn is_above(rows: &[NodeRow], node: u64) -> bool
    requires { IsRising rows.now }
    ensures { IsTrue result → All (λ row. row.node < node) rows.now }
{
    match rows.split_last() {
        None => true,
        Some((last, _)) => last.node < node,
    }
}

/// Returns the nodes that the lines tell, if each line tells one and their numbers rise.
pub fn rows_of(alloc: Global, lines: &[Line]) -> Result<Option<Vec<NodeRow>>, AllocError>
    ensures { IfOk result (λ found. IfSome found (λ rows.
        (lines.now ≡ map node_row rows.items) × IsRising rows.items)) }
{
    let mut rows = Vec::new(alloc);
    for line in lines {
        let Some(row) = row_of(alloc, line.as_slice())? else {
            return Ok(None);
        };
        if !is_above(&rows, row.node) {
            return Ok(None);
        }
        rows.push(row)?;
    }
    Ok(Some(rows))
}

/// Returns the node that the lines tell, if they are one number or none.
pub fn free_node_of(alloc: Global, lines: &[Line]) -> Result<Option<Option<u64>>, AllocError>
    ensures { IfOk result (λ told. IfSome told (λ found. lines.now ≡ free_rows found)) }
{
    match lines {
        [] => Ok(Some(None)),
        [only] => match decimal_of(alloc, only.as_slice()) {
            Ok(Some(number)) => Ok(Some(Some(number))),
            Ok(None) => Ok(None),
            Err(error) => Err(error),
        },
        _ => Ok(None),
    }
}
