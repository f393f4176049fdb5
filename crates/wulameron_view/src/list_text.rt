//! The services of a world as a table.

ghost use Rattle.std.specs.Prelude.{◌≡◌, ◌≤◌, ◌++◌, IfOk, OnOk, codes, decimal, length, map, string_bytes};
ghost use Rattle.std.specs.List.{flat_map};
ghost use Rattle.wulameron_view.specs.ListTexts.{cell_of, cell_text, count_lines, creation_cells, dead_line};
ghost use Rattle.wulameron_view.specs.ListTexts.{fitted as fitted_of, header, line_text, list_cells, mark_of, marks};
ghost use Rattle.wulameron_view.specs.ListTexts.{list_text as list_text_of, name_text, names_text, node_or_dash};
ghost use Rattle.wulameron_view.specs.ListTexts.{dead_creations, dead_published, padded_cells, pattern_term, program_of};
ghost use Rattle.wulameron_view.specs.ListTexts.{rest_of_line, room_for, service_cells, service_name, table_text};
ghost use Rattle.wulameron_view.specs.ListTexts.{widths_of as widths_of_spec, with_dead};
ghost use Rattle.wulameron_view.specs.Tables.{width_of};

use crate::services::{Creation, Service, Services};
use crate::states::{dead_count, dead_holders, lost_count, lost_holders};
use crate::table::{columns, cut, write_padded, write_red};
use iceoryx2_description::description::MessagingPattern;
use iceoryx2_monitoring::state::NodeStatus;
use negotiate_lines::escape::{escape, escaped_text};
use std::alloc::{AllocError, Global};
use std::marker::Model;
use wulameron_arguments::asked::Listed;

/// How many columns of a name are never cut.
const LEAST: usize = 8;

/// How many columns divide the cells of a line.
const GAPS: usize = 8;

/// The cells of a line.
#[derive(Drop)]
struct Line {
    pattern: String,
    name: String,
    nodes: String,
    creator: String,
    number: String,
    /// How many of its nodes are dead, and how many are lost, if any are.
    mark: String,
}

impl Model for Line {
    ghost use Rattle.std.specs.Prelude.{string_bytes};
    ghost use Rattle.wulameron_view.specs.ListTexts.{Cells};

    ghost Value = { Cells };

    ghost view = { λ l. record {
      pattern = string_bytes l.pattern;
      name = string_bytes l.name;
      nodes = string_bytes l.nodes;
      creator = string_bytes l.creator;
      number = string_bytes l.number;
      mark = string_bytes l.mark;
    } };
}

/// A column. The last two aren't padded.
#[derive(Clone, Copy)]
enum Column {
    Pattern,
    Name,
    Nodes,
    Creator,
    Number,
    Mark,
}

/// How wide the columns are.
#[derive(Clone, Copy)]
struct Widths {
    pattern: usize,
    name: usize,
    nodes: usize,
    creator: usize,
    number: usize,
    mark: usize,
}

impl Line {
    /// Returns the line's cell in a column.
    fn cell(&self, column: Column) -> &str
        ensures { result.now ≡ cell_of column self.now }
    {
        match column {
            Column::Pattern => &self.pattern,
            Column::Name => &self.name,
            Column::Nodes => &self.nodes,
            Column::Creator => &self.creator,
            Column::Number => &self.number,
            Column::Mark => &self.mark,
        }
    }

    /// Returns the names of the columns.
    fn header(alloc: Global) -> Result<Line, AllocError>
        ensures { IfOk result (λ line. line ≡ header) }
    {
        Ok(Line {
            pattern: String::from_str(alloc, "PATTERN")?,
            name: String::from_str(alloc, "NAME")?,
            nodes: String::from_str(alloc, "NODES")?,
            creator: String::from_str(alloc, "CREATOR")?,
            number: String::from_str(alloc, "NUMBER")?,
            mark: String::new(alloc),
        })
    }

    /// Returns the line of a service that is published.
    fn of_service(
        alloc: Global,
        states: &[NodeStatus],
        service: &Service,
    ) -> Result<Line, AllocError>
        ensures { IfOk result (λ line. line ≡ service_cells states.now service.now) }
    {
        let term = term_of(service.description.messaging_pattern());
        let nodes = service.members.len();
        let dead = dead_count(states, &service.members);
        let lost = lost_count(states, &service.members);
        Ok(Line {
            pattern: String::from_str(alloc, term)?,
            name: escaped_text(alloc, service.description.name().as_str())?,
            nodes: ratio(alloc, nodes, service.max_nodes)?,
            creator: node_text(alloc, service.description.creator())?,
            number: number_text(alloc, service.number, "")?,
            mark: mark(alloc, dead, lost)?,
        })
    }

    /// Returns the line of a service that is being created.
    fn of_creation(
        alloc: Global,
        states: &[NodeStatus],
        creation: &Creation,
    ) -> Result<Line, AllocError>
        ensures { IfOk result (λ line. line ≡ creation_cells states.now creation.now) }
    {
        let dead = dead_holders(states, creation);
        let lost = lost_holders(states, creation);
        Ok(Line {
            pattern: String::from_str(alloc, "-")?,
            name: creation.hash.to_text(alloc)?,
            nodes: String::from_str(alloc, "-")?,
            creator: node_text(alloc, creation.node)?,
            number: number_text(alloc, creation.number, "  being created")?,
            mark: mark(alloc, dead, lost)?,
        })
    }
}

/// Writes the services as a table: a header, a line for each service, those that are being created last, and how many
/// there are. If nodes of some are dead, it also writes how many services have dead nodes, and the command that
/// releases what such nodes have: that of a database's log has another name. Columns are two spaces apart, and as wide as their widest cell in columns of a
/// terminal. If a width is asked for, names are cut so that a line has at most this many columns, but to no fewer than
/// eight. If colours are asked for, what has dead nodes is red. `AllocError` if there is no memory; a prefix may then
/// be written.
pub fn list_text(
    listed: Listed<'_>,
    states: &[NodeStatus],
    services: &Services,
    text: &mut String,
) -> Result<(), AllocError>
    ensures { OnOk result (string_bytes text.new
        ≡ string_bytes text.old ++ list_text_of listed.entry states.now services.now) }
{
    let lines = lines_of(*text.allocator(), states, services)?;
    write_lines(listed.shown.is_coloured, listed.width, &lines, text)?;
    write_counts(listed.is_in_database, states, services, text)
}

/// Writes how many services there are, and how many have dead nodes.
fn write_counts(
    is_in_database: bool,
    states: &[NodeStatus],
    services: &Services,
    text: &mut String,
) -> Result<(), AllocError>
    ensures { OnOk result (string_bytes text.new ≡ string_bytes text.old
        ++ count_lines is_in_database states.now services.now) }
{
    let count = services.published.len() + services.creations.len();
    writeln!(text, "{count} services")?;
    write_dead(is_in_database, dead_services(states, services), text)
}

/// Returns how many services have dead nodes.
fn dead_services(states: &[NodeStatus], services: &Services) -> usize
    ensures { result ≡ with_dead states.now services.now }
{
    dead_published(states, &services.published) + dead_creations(states, &services.creations)
}

/// Returns how many published services have dead nodes.
fn dead_published(states: &[NodeStatus], services: &[Service]) -> usize
    ensures is { result ≡ dead_published states.now services.now }
    ensures bound { result ≤ length services.now }
{
    services
        .iter()
        .filter(|service| dead_count(states, &service.members) > 0)
        .count()
}

/// Returns how many services that are being created have a dead holder.
fn dead_creations(states: &[NodeStatus], creations: &[Creation]) -> usize
    ensures is { result ≡ dead_creations states.now creations.now }
    ensures bound { result ≤ length creations.now }
{
    creations
        .iter()
        .filter(|creation| dead_holders(states, creation) > 0)
        .count()
}

/// Returns the name of the program by whose commands a log is used.
fn program_of(is_in_database: bool) -> &'static str
    ensures { result.now ≡ program_of is_in_database }
{
    match is_in_database {
        true => "wulameron-postgres",
        false => "wulameron",
    }
}

/// Writes that this many services have dead nodes, if there are any.
fn write_dead(is_in_database: bool, count: usize, text: &mut String) -> Result<(), AllocError>
    ensures { OnOk result (string_bytes text.new ≡ string_bytes text.old ++ dead_line is_in_database count) }
{
    if count == 0 {
        return Ok(());
    }
    let program = program_of(is_in_database);
    writeln!(
        text,
        "{count} with dead nodes; run `{program} clean` to release them"
    )
}

/// Returns the cells of all lines.
fn lines_of(
    alloc: Global,
    states: &[NodeStatus],
    services: &Services,
) -> Result<Vec<Line>, AllocError>
    ensures { IfOk result (λ lines. lines.items ≡ list_cells states.now services.now) }
{
    let mut lines = Vec::new(alloc);
    lines.push(Line::header(alloc)?)?;
    add_services(alloc, states, &services.published, &mut lines)?;
    add_creations(alloc, states, &services.creations, &mut lines)?;
    Ok(lines)
}

/// Adds the lines of services that are published.
fn add_services(
    alloc: Global,
    states: &[NodeStatus],
    services: &[Service],
    lines: &mut Vec<Line>,
) -> Result<(), AllocError>
    ensures { OnOk result (lines.new.items ≡ lines.old.items ++ map (service_cells states.now) services.now) }
{
    for service in services {
        lines.push(Line::of_service(alloc, states, service)?)?;
    }
    Ok(())
}

/// Adds the lines of services that are being created.
fn add_creations(
    alloc: Global,
    states: &[NodeStatus],
    creations: &[Creation],
    lines: &mut Vec<Line>,
) -> Result<(), AllocError>
    ensures { OnOk result (lines.new.items ≡ lines.old.items ++ map (creation_cells states.now) creations.now) }
{
    for creation in creations {
        lines.push(Line::of_creation(alloc, states, creation)?)?;
    }
    Ok(())
}

/// Writes all lines. It goes over them seven times: once for each column's width, and once to write them.
fn write_lines(
    is_coloured: bool,
    most: Option<u64>,
    lines: &[Line],
    text: &mut String,
) -> Result<(), AllocError>
    ensures { OnOk result (string_bytes text.new ≡ string_bytes text.old ++ table_text is_coloured most lines.now) }
{
    let widths = fitted(most, widths_of(lines));
    for line in lines {
        write_line(is_coloured, widths, line, text)?;
    }
    Ok(())
}

/// Returns how wide each column of these lines is.
fn widths_of(lines: &[Line]) -> Widths
    ensures { result ≡ widths_of_spec lines.now }
{
    Widths {
        pattern: widest(lines, Column::Pattern),
        name: widest(lines, Column::Name),
        nodes: widest(lines, Column::Nodes),
        creator: widest(lines, Column::Creator),
        number: widest(lines, Column::Number),
        mark: widest(lines, Column::Mark),
    }
}

/// Returns these widths, with names cut so that a line has at most this many columns.
fn fitted(most: Option<u64>, widths: Widths) -> Widths
    ensures { result ≡ fitted_of most widths }
{
    match most {
        None => widths,
        Some(most) => Widths {
            name: widths.name.min(room_for(most, widths).max(LEAST)),
            ..widths
        },
    }
}

/// Returns how many columns of a line the other columns leave for names.
fn room_for(most: u64, widths: Widths) -> usize
    ensures { result ≡ room_for most widths }
{
    let padded = (most as usize)
        .saturating_sub(GAPS)
        .saturating_sub(widths.pattern)
        .saturating_sub(widths.nodes)
        .saturating_sub(widths.creator);
    padded
        .saturating_sub(widths.number)
        .saturating_sub(widths.mark)
}

/// Writes a line, padded to these widths.
fn write_line(
    is_coloured: bool,
    widths: Widths,
    line: &Line,
    text: &mut String,
) -> Result<(), AllocError>
    ensures { OnOk result (string_bytes text.new ≡ string_bytes text.old ++ line_text is_coloured widths line.now) }
{
    write_cells(widths, line, text)?;
    write_rest(is_coloured, line, text)
}

/// Writes the cells that are padded.
fn write_cells(widths: Widths, line: &Line, text: &mut String) -> Result<(), AllocError>
    ensures { OnOk result (string_bytes text.new ≡ string_bytes text.old ++ padded_cells widths line.now) }
{
    write_cell(line.cell(Column::Pattern), widths.pattern, text)?;
    write_name(line.cell(Column::Name), widths.name, text)?;
    write_cell(line.cell(Column::Nodes), widths.nodes, text)?;
    write_cell(line.cell(Column::Creator), widths.creator, text)
}

/// Writes what follows them.
fn write_rest(is_coloured: bool, line: &Line, text: &mut String) -> Result<(), AllocError>
    ensures { OnOk result (string_bytes text.new ≡ string_bytes text.old ++ rest_of_line is_coloured line.now) }
{
    text.push_str(line.cell(Column::Number))?;
    write_red(is_coloured, line.cell(Column::Mark), text)?;
    text.push_str("\n")
}

/// Writes a cell and what separates it from the next one.
fn write_cell(cell: &str, width: usize, text: &mut String) -> Result<(), AllocError>
    ensures { OnOk result (string_bytes text.new ≡ string_bytes text.old ++ cell_text width cell.now) }
{
    write_padded(cell, width, text)?;
    text.push_str("  ")
}

/// Writes a name, which is cut if its column is narrower.
fn write_name(name: &str, width: usize, text: &mut String) -> Result<(), AllocError>
    ensures { OnOk result (string_bytes text.new ≡ string_bytes text.old ++ name_text width name.now) }
{
    let cut = cut(*text.allocator(), width, name)?;
    write_cell(&cut, width, text)
}

/// Returns the width of a column's widest cell.
fn widest(lines: &[Line], column: Column) -> usize
    ensures { result ≡ width_of (cell_of column) lines.now }
{
    let mut widest = 0usize;
    for line in lines {
        widest = widest.max(columns(line.cell(column)));
    }
    widest
}

// ---- names alone

/// Writes the name of each service that is published, a line each, without control characters. `AllocError` if there is
/// no memory; a prefix may then be written.
pub fn list_names(services: &Services, text: &mut String) -> Result<(), AllocError>
    ensures { OnOk result (string_bytes text.new ≡ string_bytes text.old ++ names_text services.now) }
{
    write_names(&services.published, text)
}

/// Writes a line for each service.
fn write_names(services: &[Service], text: &mut String) -> Result<(), AllocError>
    ensures { OnOk result (string_bytes text.new ≡ string_bytes text.old ++ flat_map service_name services.now) }
{
    for service in services {
        escape(service.description.name().as_str(), text)?;
        text.push_str("\n")?;
    }
    Ok(())
}

// ---- cells

/// Returns the term by which a pattern's command lines begin.
pub fn term_of(pattern: &MessagingPattern) -> &'static str
    ensures { result.now ≡ pattern_term pattern.now }
{
    match pattern {
        MessagingPattern::Event(_) => "event",
        MessagingPattern::PublishSubscribe(_) => "pubsub",
        MessagingPattern::RequestResponse(_) => "rr",
    }
}

/// Returns the text of a count and its limit.
fn ratio(alloc: Global, count: usize, most: u64) -> Result<String, AllocError>
    ensures { IfOk result (λ text. string_bytes text ≡ decimal count ++ (codes "/" ++ decimal most)) }
{
    let mut text = String::new(alloc);
    write!(text, "{count}/{most}")?;
    Ok(text)
}

/// Returns a node, or a dash if none is known.
fn node_text(alloc: Global, node: Option<u64>) -> Result<String, AllocError>
    ensures { IfOk result (λ text. string_bytes text ≡ node_or_dash node) }
{
    match node {
        None => String::from_str(alloc, "-"),
        Some(node) => format!(in alloc; "{node}"),
    }
}

/// Returns a number, and what follows it.
fn number_text(alloc: Global, number: u64, after: &str) -> Result<String, AllocError>
    ensures { IfOk result (λ text. string_bytes text ≡ decimal number ++ after.now) }
{
    let mut text = String::new(alloc);
    write!(text, "{number}{after}")?;
    Ok(text)
}

/// Returns the marks that this many nodes are dead and this many lost, if any are.
fn mark(alloc: Global, dead: usize, lost: usize) -> Result<String, AllocError>
    ensures { IfOk result (λ text. string_bytes text ≡ marks dead lost) }
{
    let mut text = String::new(alloc);
    write_mark(dead, "dead", &mut text)?;
    write_mark(lost, "lost", &mut text)?;
    Ok(text)
}

/// Writes the mark that this many nodes are what the word says, if any are.
fn write_mark(count: usize, word: &str, text: &mut String) -> Result<(), AllocError>
    ensures { OnOk result (string_bytes text.new ≡ string_bytes text.old ++ mark_of count word.now) }
{
    if count == 0 {
        return Ok(());
    }
    write!(text, "  {count} {word}")
}
