//! What the words ask for.

ghost use Rattle.std.specs.Prelude.{◌≡◌, option_map};
ghost use Rattle.wulameron_arguments.specs.Making.{is_escaped, made_log};
ghost use Rattle.wulameron_arguments.specs.Places.{is_in_database};

use crate::pipes::Pipes;
use iceoryx2_file_log::options::FileLogOptions;

/// How a log in a database is named: by this, and then its name.
pub const DATABASE: &str = "postgres:";

/// Returns whether a log of this path is in a database.
pub fn is_in_database(path: &str) -> bool
    ensures { result ≡ is_in_database path.now }
{
    path.starts_with(DATABASE)
}

/// A log in a file or in a database, and its options.
#[derive(Clone, Copy)]
pub struct Place<'a> {
    /// The path of the log's file, or `postgres:` and the name of a log in a database.
    pub at: &'a str,
    /// Its options. For a log in a database only the time counts in which it tries to hold the log.
    pub options: FileLogOptions,
    /// The word that names the pipes to the database's client, as `wulameron-postgres` gives it.
    pub psql: Option<&'a str>,
    /// These pipes, once they are open.
    pub pipes: Option<&'a Pipes>,
}

/// A log in a database.
#[derive(Clone, Copy)]
pub struct Database<'a> {
    /// The log's name.
    pub log: &'a str,
    pub pipes: &'a Pipes,
}

impl<'a> Place<'a> {
    /// Returns the name of the log in a database. `None` if the log is in a file.
    pub fn database_log(&self) -> Option<&'a str> {
        self.at.strip_prefix(DATABASE)
    }

    /// Returns the log in a database, once its pipes are open. `None` if the log is in a file.
    pub fn database(&self) -> Option<Database<'a>> {
        match self.pipes {
            None => None,
            Some(pipes) => match self.database_log() {
                None => None,
                Some(log) => Some(Database { log, pipes }),
            },
        }
    }
}

/// Asks for answers to the lines of the standard input.
#[derive(Clone, Copy)]
pub struct Run<'a> {
    pub place: Place<'a>,
    /// The node in whose name the lines are. `None` if any will do.
    pub node: Option<u64>,
    /// Whether each reply is explained.
    pub explains: bool,
    /// Whether it releases what dead nodes have.
    pub cleans: bool,
    /// Whether the first line that is no command ends it. Otherwise each has a reply.
    pub is_strict: bool,
    /// Whether lines are escaped, and may be questions.
    pub is_escaped: bool,
}

/// Asks for a call whose factory is held.
#[derive(Drop)]
pub struct Hold<'a> {
    pub place: Place<'a>,
    /// The node in whose name the call is. `None` if any will do.
    pub node: Option<u64>,
    /// The words of the call: its pattern, whether it creates or opens, the service's name, and the terms after it.
    pub pattern: &'a str,
    pub how: &'a str,
    pub name: &'a str,
    pub terms: Vec<&'a str>,
}

/// The form in which a look is printed.
#[derive(Clone, Copy)]
pub enum Form {
    /// Text for people.
    Text,
    /// What names each service or node, a line each.
    Names,
    /// One value of JSON.
    Json,
    /// A line of JSON for each service or node.
    JsonLines,
}

/// How a look is printed.
#[derive(Clone, Copy)]
pub struct Shown {
    pub form: Form,
    /// Whether a text for people shows in red what is dead.
    pub is_coloured: bool,
}

/// Text for people, without colours.
pub const PLAIN: Shown = Shown {
    form: Form::Text,
    is_coloured: false,
};

/// A look at a log.
#[derive(Clone, Copy)]
pub struct Look<'a> {
    pub place: Place<'a>,
    pub shown: Shown,
}

/// A pattern of messaging, by name alone.
#[derive(Clone, Copy)]
pub enum Pattern {
    Event,
    PublishSubscribe,
    RequestResponse,
}

/// Which services are listed: those for which all of this is true. A service that is being created is listed if nothing
/// is asked for, since neither its name nor its pattern is known.
#[derive(Clone, Copy)]
pub struct Filter<'a> {
    /// The name has this text in it.
    pub text: Option<&'a str>,
    /// The service has this pattern.
    pub pattern: Option<Pattern>,
}

/// How the services of a log are listed.
#[derive(Clone, Copy)]
pub struct Listed<'a> {
    pub shown: Shown,
    /// How many columns of a terminal a line of a table has at most, as far as names can be cut for that. `None` if
    /// nothing is cut.
    pub width: Option<u64>,
    /// Which ones.
    pub filter: Filter<'a>,
    /// Whether the log is in a database, so that its commands are those of `wulameron-postgres`.
    pub is_in_database: bool,
}

/// Asks for a list of the services of a log.
#[derive(Clone, Copy)]
pub struct List<'a> {
    pub place: Place<'a>,
    pub listed: Listed<'a>,
    /// Whether they are listed again with each change.
    pub watches: bool,
}

/// Which service is wanted.
#[derive(Clone, Copy)]
pub enum Wanted<'a> {
    /// The one of this name.
    Named(&'a str),
    /// The one of this name and pattern.
    OfPattern(&'a str, Pattern),
    /// The one of this number.
    Numbered(u64),
}

/// A look at one service.
#[derive(Clone, Copy)]
pub struct Show<'a> {
    pub look: Look<'a>,
    /// Which one.
    pub wanted: Wanted<'a>,
}

/// Asks to release what dead nodes have.
#[derive(Clone, Copy)]
pub struct Clean<'a> {
    pub place: Place<'a>,
    /// The node for which it cleans up. `None` for each dead node.
    pub node: Option<u64>,
    /// Whether it only prints what would be released.
    pub is_dry_run: bool,
}

/// Asks for the entries of a log.
#[derive(Clone, Copy)]
pub struct LogLook<'a> {
    pub place: Place<'a>,
    /// Whether it waits for more entries.
    pub follows: bool,
    /// The number of the first entry that is printed.
    pub from: u64,
}

/// What the words ask for.
#[derive(Drop)]
pub enum Asked<'a> {
    /// Lines are to be answered.
    Run(Run<'a>),
    /// A call is to be held.
    Hold(Hold<'a>),
    /// The services are to be listed.
    List(List<'a>),
    /// One service is to be shown.
    Show(Show<'a>),
    /// The nodes are to be listed.
    Nodes(Look<'a>),
    /// What dead nodes have is to be released.
    Clean(Clean<'a>),
    /// The log's entries are to be printed.
    Log(LogLook<'a>),
    /// Changes of services are to be printed as they come.
    Watch(Look<'a>),
    /// The log is to be checked.
    Check(Place<'a>),
}

impl<'a> Asked<'a> {
    /// Returns the log of what is asked for.
    pub fn place(&mut self) -> &mut Place<'a> {
        match self {
            Asked::Run(run) => &mut run.place,
            Asked::Hold(hold) => &mut hold.place,
            Asked::List(list) => &mut list.place,
            Asked::Show(show) => &mut show.look.place,
            Asked::Nodes(look) => &mut look.place,
            Asked::Clean(clean) => &mut clean.place,
            Asked::Log(look) => &mut look.place,
            Asked::Watch(look) => &mut look.place,
            Asked::Check(place) => place,
        }
    }

    /// Returns whether escaped lines are answered.
    pub fn is_escaped(&self) -> bool
        ensures { result ≡ is_escaped self.now }
    {
        match self {
            Asked::Run(run) => run.is_escaped,
            _ => false,
        }
    }

    /// Returns the path of the log that is made if there is none. `None` if the command makes none.
    pub fn made_log(&self) -> Option<&'a str>
        ensures { option_map (λ path. path.now) result ≡ made_log self.now }
    {
        match self {
            Asked::Run(run) => Some(run.place.at),
            Asked::Hold(hold) => Some(hold.place.at),
            _ => None,
        }
    }
}
