//! Which words the program takes: a row for each command, and one for each option and word of it.

use clap::{Arg, ArgAction, Command, value_parser};
use std::alloc::{AllocError, Global};

/// The words of the patterns.
const PATTERNS: &[&str] = &["event", "pubsub", "rr"];

/// The words of the calls.
const CALLS: &[&str] = &["create", "open", "open_or_create"];

/// When texts have colours.
const COLOURS: &[&str] = &["auto", "always", "never"];

/// The place in a help of the options that every command takes, except `--at`: after the command's own.
const LAST: usize = 100;

/// How a value is given.
#[derive(Clone, Copy)]
enum Given {
    /// By an option that takes no value.
    Flag,
    /// By an option that takes no value, or by this letter.
    ShortFlag(char),
    /// By an option that takes a text. The help calls the text so.
    Text(&'static str),
    /// By an option that takes a number, the second if it is left out.
    Number(&'static str, Option<&'static str>),
    /// By an option that takes one of these words, the last if it is left out.
    OneOf(&'static str, &'static [&'static str], Option<&'static str>),
    /// By its place, as a text.
    Word(&'static str),
    /// By its place, as one of these words.
    WordOf(&'static str, &'static [&'static str]),
    /// By its place, as a number, which may be left out.
    MaybeNumber(&'static str),
    /// By its place, as any number of texts up to the last.
    Words(&'static str),
}

/// An option, or a word by its place: its name, how it is given, and its help.
#[derive(Clone, Copy)]
struct Row(&'static str, Given, &'static str);

/// A command.
#[derive(Clone, Copy)]
struct CommandRow {
    name: &'static str,
    about: &'static str,
    rows: &'static [Row],
}

const SYNC: Row = Row(
    "sync",
    Given::Flag,
    "Writes each entry to the disk before it is answered",
);

const GROUP: Row = Row(
    "group",
    Given::Flag,
    "Makes files that their group may read and write",
);

const NODE: Row = Row(
    "node",
    Given::Number("NUMBER", None),
    "The node of this process; by default the lowest free one",
);

const NAME: Row = Row("name", Given::Word("NAME"), "The name of the service");

const JSON: Row = Row("json", Given::Flag, "Prints JSON");

const COLOR: Row = Row(
    "color",
    Given::OneOf("WHEN", COLOURS, Some("auto")),
    "When to print dead nodes in red; auto means on a terminal without NO_COLOR",
);

const JSON_LINES: Row = Row(
    "json-lines",
    Given::Flag,
    "Prints one line of JSON for each",
);

const QUIET: Row = Row(
    "quiet",
    Given::ShortFlag('q'),
    "Prints only names, or numbers of nodes",
);

const WAIT: Row = Row(
    "wait",
    Given::Number("MILLISECONDS", Some("500")),
    "How long to try while others hold the log",
);

const PSQL: Row = Row(
    "psql",
    Given::Text("PIPES"),
    "Set by wulameron-postgres: the pipes to psql",
);

/// The options that don't go together.
const CONFLICTS: &[(&str, &str)] = &[
    ("escaped", "strict"),
    ("escaped", "explain"),
    ("json-lines", "json"),
    ("quiet", "json"),
    ("quiet", "json-lines"),
];

/// The commands, in the order of the help.
const COMMANDS: &[CommandRow] = &[
    CommandRow {
        name: "run",
        about: "Answers lines of the standard input, in the name of one node",
        rows: &[
            SYNC,
            GROUP,
            NODE,
            Row(
                "explain",
                Given::Flag,
                "Explains each reply, as explain does",
            ),
            Row(
                "strict",
                Given::Flag,
                "Ends at the first line that is no command",
            ),
            Row(
                "escaped",
                Given::Flag,
                "For programs: escapes bytes of names, keys, values and types as %XX, and answers questions",
            ),
            Row(
                "no-clean",
                Given::Flag,
                "Doesn't release what dead nodes have",
            ),
        ],
    },
    CommandRow {
        name: "hold",
        about: "Makes one call, and holds the service until the standard input ends",
        rows: &[
            SYNC,
            GROUP,
            NODE,
            Row(
                "pattern",
                Given::WordOf("PATTERN", PATTERNS),
                "The pattern of the service",
            ),
            Row("call", Given::WordOf("CALL", CALLS), "What the call does"),
            NAME,
            Row(
                "terms",
                Given::Words("TERM=VALUE"),
                "The settings, attributes and requirements of the call",
            ),
        ],
    },
    CommandRow {
        name: "list",
        about: "Lists the services of all processes",
        rows: &[
            JSON,
            COLOR,
            JSON_LINES,
            QUIET,
            Row(
                "watch",
                Given::Flag,
                "Lists them again at each change, until it is interrupted",
            ),
            Row(
                "name",
                Given::Text("TEXT"),
                "Lists only services whose names have this text",
            ),
            Row(
                "pattern",
                Given::OneOf("PATTERN", PATTERNS, None),
                "Lists only services of this pattern",
            ),
            Row(
                "width",
                Given::Number("COLUMNS", None),
                "Cuts names so that lines fit into this many columns",
            ),
        ],
    },
    CommandRow {
        name: "show",
        about: "Shows what was agreed for a service, and which nodes have it",
        rows: &[
            JSON,
            COLOR,
            NAME,
            Row(
                "pattern",
                Given::OneOf("PATTERN", PATTERNS, None),
                "The service's pattern, if several services have this name",
            ),
        ],
    },
    CommandRow {
        name: "nodes",
        about: "Lists the nodes, and whether each is alive",
        rows: &[JSON, COLOR, JSON_LINES, QUIET],
    },
    CommandRow {
        name: "clean",
        about: "Releases what dead nodes have",
        rows: &[
            SYNC,
            GROUP,
            Row(
                "node",
                Given::MaybeNumber("NODE"),
                "The dead node to clean up for; without it, every dead node",
            ),
            Row(
                "dry-run",
                Given::Flag,
                "Prints what would be released, and changes nothing",
            ),
        ],
    },
    CommandRow {
        name: "log",
        about: "Prints the entries of the log",
        rows: &[
            Row(
                "from",
                Given::Number("NUMBER", Some("0")),
                "The number of the first entry that is printed",
            ),
            Row(
                "follow",
                Given::Flag,
                "Waits for more entries until it is interrupted",
            ),
        ],
    },
    CommandRow {
        name: "watch",
        about: "Prints each change of a service as it comes, until it is interrupted",
        rows: &[JSON],
    },
    CommandRow {
        name: "check",
        about: "Checks whether the log is sound",
        rows: &[],
    },
];

/// Returns what the program of this version takes. `home` is the log that is used if no word names one.
pub(crate) fn command<'a>(
    alloc: Global,
    version: &'a str,
    home: Option<&'a str>,
) -> Result<Command<'a>, AllocError> {
    let mut command = Command::new(alloc, "wulameron")
        .version(version)
        .about("Creates and opens named services over a log that processes share")
        .subcommand_required(true)
        .arg(at(alloc, home))?
        .arg(behind(alloc, &WAIT, LAST))?
        .arg(behind(alloc, &PSQL, LAST + 1))?;
    for row in COMMANDS {
        command = command.subcommand(command_of(alloc, version, row)?)?;
    }
    Ok(command)
}

/// Returns the command of a row, which has the program's version.
fn command_of<'a>(
    alloc: Global,
    version: &'a str,
    row: &CommandRow,
) -> Result<Command<'a>, AllocError> {
    let mut command = Command::new(alloc, row.name)
        .version(version)
        .about(row.about);
    for row in row.rows {
        command = command.arg(arg_of(alloc, row)?)?;
    }
    Ok(command)
}

/// Returns the option or word of a row.
fn arg_of<'a>(alloc: Global, row: &Row) -> Result<Arg<'a>, AllocError> {
    let Row(name, given, help) = *row;
    let mut arg = with_value(Arg::new(alloc, name).help(help), name, given);
    for &(option, other) in CONFLICTS {
        if option == name {
            arg = arg.conflicts_with(other)?;
        }
    }
    Ok(arg)
}

/// Returns an option or a word with the value that it takes.
fn with_value<'a>(arg: Arg<'a>, name: &'static str, given: Given) -> Arg<'a> {
    let arg = arg.action(ArgAction::Set);
    match given {
        Given::Flag => arg.long(name).action(ArgAction::SetTrue),
        Given::ShortFlag(letter) => arg.long(name).short(letter).action(ArgAction::SetTrue),
        Given::Text(value) => arg.long(name).value_name(value),
        Given::Number(value, default) => {
            with_default(
                arg.long(name)
                    .value_name(value)
                    .value_parser(value_parser!(u64)),
                default,
            )
        }
        Given::OneOf(value, words, default) => {
            with_default(
                arg.long(name).value_name(value).value_parser(words),
                default,
            )
        }
        Given::Word(value) => arg.required(true).value_name(value),
        Given::WordOf(value, words) => arg.required(true).value_name(value).value_parser(words),
        Given::MaybeNumber(value) => arg.value_name(value).value_parser(value_parser!(u64)),
        Given::Words(value) => arg
            .action(ArgAction::Append)
            .num_args(0..)
            .value_name(value),
    }
}

/// Returns it with the value that it has if it is left out.
fn with_default<'a>(arg: Arg<'a>, default: Option<&'static str>) -> Arg<'a> {
    match default {
        Some(value) => arg.default_value(value),
        None => arg,
    }
}

/// Returns the option for the log, before a command or after it.
fn at<'a>(alloc: Global, home: Option<&'a str>) -> Arg<'a> {
    let at = Arg::new(alloc, "at")
        .long("at")
        .action(ArgAction::Set)
        .value_name("LOG")
        .global(true)
        .help("The file of the log, or postgres:NAME under wulameron-postgres");
    match home {
        Some(path) => at.default_value(path),
        None => at,
    }
}

/// Returns an option of every command with the value that it takes. Its help follows those of the command.
fn behind<'a>(alloc: Global, row: &Row, order: usize) -> Arg<'a> {
    let Row(name, given, help) = *row;
    with_value(Arg::new(alloc, name).help(help), name, given)
        .global(true)
        .display_order(order)
}
