//! What the words ask for, read by what the program takes.

ghost use Rattle.std.specs.Prelude.{◌≡◌, Some, IfSome, cond, codes};
ghost use Rattle.clap.specs.Words.{found_of, first_value};
ghost use Rattle.wulameron_arguments.specs.Making.{asks_session};
ghost use Rattle.wulameron_arguments.specs.Places.{is_in_database};
ghost use Rattle.iceoryx2_file_log.specs.declared.options.Sharing.TheVariants as sharing;

use crate::asked::{
    Asked, Clean, Filter, Form, Hold, List, Listed, LogLook, Look, Pattern, Place, Run, Show,
    Shown, Wanted, is_in_database,
};
use crate::commands::command;
use crate::screen::Screen;
use clap::{ArgMatches, Error};
use iceoryx2_file_log::options::{FileLogOptions, Sharing};
use std::alloc::{AllocError, Global};
use std::time::Duration;

/// Returns what the words ask for. The first word is the program's name. `version` is what the program prints of itself.
/// `home` is the log that is used if no word names one. What is asked for is printed on this screen. `None` if the words
/// name no command, or nothing names a log.
///
/// `Error` if the words are wrong, ask for help or the version, or if there is no memory.
pub fn arguments<'a>(
    alloc: Global,
    version: &'a str,
    home: Option<&'a str>,
    screen: Screen,
    words: &'a [String],
) -> Result<Option<Asked<'a>>, Error> {
    let matches = command(alloc, version, home)?.try_get_matches_from(words)?;
    if let Some(matches) = matches.subcommand_matches("hold") {
        return Ok(hold_of(alloc, matches)?);
    }
    Ok(asked_by(screen, &matches))
}

/// Returns whether the words ask for the former command by which programs in other languages had sessions.
pub fn asks_session(words: &[String]) -> bool
    ensures { result ≡ asks_session words.now }
{
    match words {
        [_, command, ..] => command.as_str() == "session",
        _ => false,
    }
}

fn asked_by<'a>(screen: Screen, matches: &ArgMatches<'a>) -> Option<Asked<'a>> {
    if let Some(matches) = matches.subcommand_matches("run") {
        return Some(Asked::Run(run_of(matches)?));
    }
    if let Some(matches) = matches.subcommand_matches("clean") {
        return Some(Asked::Clean(clean_of(matches)?));
    }
    if let Some(matches) = matches.subcommand_matches("log") {
        return Some(Asked::Log(log_look_of(matches)?));
    }
    if let Some(matches) = matches.subcommand_matches("check") {
        return Some(Asked::Check(place_of(matches)?));
    }
    viewing_by(screen, matches)
}

/// Returns what a command that shows something asks for.
fn viewing_by<'a>(screen: Screen, matches: &ArgMatches<'a>) -> Option<Asked<'a>> {
    if let Some(matches) = matches.subcommand_matches("list") {
        return Some(Asked::List(list_of(screen, matches)?));
    }
    if let Some(matches) = matches.subcommand_matches("show") {
        return Some(Asked::Show(show_of(screen, matches)?));
    }
    if let Some(matches) = matches.subcommand_matches("nodes") {
        return Some(Asked::Nodes(look_of(screen, matches)?));
    }
    if let Some(matches) = matches.subcommand_matches("watch") {
        return Some(Asked::Watch(look_of(screen, matches)?));
    }
    None
}

/// Returns the run that was matched. `None` if a value is missing that each match has.
fn run_of<'a>(matches: &ArgMatches<'a>) -> Option<Run<'a>>
    ensures at { IfSome result (λ run. first_value (found_of matches.now) (codes "at") ≡ Some run.place.at.now) }
{
    Some(Run {
        place: making_place_of(matches)?,
        node: matches.get_one::<u64>("node"),
        explains: matches.get_flag("explain"),
        cleans: !matches.get_flag("no-clean"),
        is_strict: matches.get_flag("strict"),
        is_escaped: matches.get_flag("escaped"),
    })
}

/// Returns the call that was matched. `None` if a value is missing that each match has.
fn hold_of<'a>(alloc: Global, matches: &ArgMatches<'a>) -> Result<Option<Asked<'a>>, AllocError> {
    let terms = terms_of(alloc, matches)?;
    Ok(hold_with(matches, terms))
}

/// Does the same with these terms.
fn hold_with<'a>(matches: &ArgMatches<'a>, terms: Vec<&'a str>) -> Option<Asked<'a>> {
    let place = making_place_of(matches)?;
    let pattern = matches.get_str("pattern")?;
    let how = matches.get_str("call")?;
    let name = matches.get_str("name")?;
    Some(Asked::Hold(Hold {
        place,
        node: matches.get_one::<u64>("node"),
        pattern,
        how,
        name,
        terms,
    }))
}

/// Returns the terms that were matched.
fn terms_of<'a>(alloc: Global, matches: &ArgMatches<'a>) -> Result<Vec<&'a str>, AllocError> {
    let mut terms = Vec::new(alloc);
    if let Some(found) = matches.get_strs("terms") {
        terms.extend_from_slice(found)?;
    }
    Ok(terms)
}

/// Returns the look that was matched. `None` if a value is missing that each match has.
fn look_of<'a>(screen: Screen, matches: &ArgMatches<'a>) -> Option<Look<'a>>
    ensures at { IfSome result (λ look. first_value (found_of matches.now) (codes "at") ≡ Some look.place.at.now) }
{
    Some(Look {
        place: place_of(matches)?,
        shown: Shown {
            form: form_of(matches),
            is_coloured: screen.is_coloured(matches.get_str("color")),
        },
    })
}

/// Returns the form that was matched.
fn form_of(matches: &ArgMatches<'_>) -> Form {
    if matches.get_flag("json") {
        return Form::Json;
    }
    if matches.get_flag("json-lines") {
        return Form::JsonLines;
    }
    if matches.get_flag("quiet") {
        Form::Names
    } else {
        Form::Text
    }
}

/// Returns the list that was matched. `None` if a value is missing that each match has.
fn list_of<'a>(screen: Screen, matches: &ArgMatches<'a>) -> Option<List<'a>>
    ensures at { IfSome result (λ list. first_value (found_of matches.now) (codes "at") ≡ Some list.place.at.now) }
    ensures told { IfSome result (λ list. list.listed.is_in_database ≡ is_in_database list.place.at.now) }
{
    let Look { place, shown } = look_of(screen, matches)?;
    let filter = Filter {
        text: matches.get_str("name"),
        pattern: pattern_of(matches.get_str("pattern")),
    };
    Some(List {
        place,
        listed: Listed {
            shown,
            width: screen.width(matches.get_one::<u64>("width")),
            filter,
            is_in_database: is_in_database(place.at),
        },
        watches: matches.get_flag("watch"),
    })
}

/// Returns the service that was matched. `None` if a value is missing that each match has.
fn show_of<'a>(screen: Screen, matches: &ArgMatches<'a>) -> Option<Show<'a>>
    ensures at { IfSome result (λ show.
        first_value (found_of matches.now) (codes "at") ≡ Some show.look.place.at.now) }
{
    let look = look_of(screen, matches)?;
    let name = matches.get_str("name")?;
    Some(Show {
        look,
        wanted: wanted(name, matches.get_str("pattern")),
    })
}

/// Returns the service of this name, and of the pattern that the word names, if there is one.
fn wanted<'a>(name: &'a str, pattern: Option<&str>) -> Wanted<'a> {
    match pattern_of(pattern) {
        Some(pattern) => Wanted::OfPattern(name, pattern),
        None => Wanted::Named(name),
    }
}

/// Returns the pattern of this word.
fn pattern_of(word: Option<&str>) -> Option<Pattern> {
    match word {
        Some("event") => Some(Pattern::Event),
        Some("pubsub") => Some(Pattern::PublishSubscribe),
        Some("rr") => Some(Pattern::RequestResponse),
        _ => None,
    }
}

/// Returns the cleaning that was matched. `None` if a value is missing that each match has.
fn clean_of<'a>(matches: &ArgMatches<'a>) -> Option<Clean<'a>>
    ensures at { IfSome result (λ clean.
        first_value (found_of matches.now) (codes "at") ≡ Some clean.place.at.now) }
{
    Some(Clean {
        place: making_place_of(matches)?,
        node: matches.get_one::<u64>("node"),
        is_dry_run: matches.get_flag("dry-run"),
    })
}

/// Returns the look at entries that was matched. `None` if a value is missing that each match has.
fn log_look_of<'a>(matches: &ArgMatches<'a>) -> Option<LogLook<'a>>
    ensures at { IfSome result (λ look. first_value (found_of matches.now) (codes "at") ≡ Some look.place.at.now) }
{
    let place = place_of(matches)?;
    let from = matches.get_one::<u64>("from")?;
    Some(LogLook {
        place,
        follows: matches.get_flag("follow"),
        from,
    })
}

/// Returns the log that was matched, which is made if there is none. `None` if a value is missing that each match has.
fn making_place_of<'a>(matches: &ArgMatches<'a>) -> Option<Place<'a>>
    ensures at { IfSome result (λ place. first_value (found_of matches.now) (codes "at") ≡ Some place.at.now) }
{
    let place = place_of(matches)?;
    Some(Place {
        options: FileLogOptions {
            synchronizes: matches.get_flag("sync"),
            sharing: sharing_of(matches.get_flag("group")),
            ..place.options
        },
        ..place
    })
}

/// Returns the log that was matched. `None` if a value is missing that each match has.
fn place_of<'a>(matches: &ArgMatches<'a>) -> Option<Place<'a>>
    ensures at { IfSome result (λ place. first_value (found_of matches.now) (codes "at") ≡ Some place.at.now) }
{
    let at = matches.get_str("at")?;
    let wait = matches.get_one::<u64>("wait")?;
    Some(Place {
        at,
        options: FileLogOptions {
            patience: Duration::from_millis(wait),
            creation_timeout: Duration::from_millis(500),
            synchronizes: false,
            sharing: Sharing::User,
        },
        psql: matches.get_str("psql"),
        pipes: None,
    })
}

/// Returns who may read and write a file that is made, by whether its group may.
fn sharing_of(group: bool) -> Sharing
    ensures { result ≡ cond group sharing.Group sharing.User }
{
    if group { Sharing::Group } else { Sharing::User }
}
