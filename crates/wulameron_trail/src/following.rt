//! Reads a log's file without its lock, and goes on as it grows.
//!
//! An entry is one write, so a reader may find a prefix of it. That isn't an entry yet, and is read again at the next
//! look. A mark means that the log goes on in the file that has its path now, if that is another file. As long as it is
//! this file, the writer of the mark died or isn't done, and the mark may be cut off.

ghost use Rattle.std.specs.Prelude.{◌≡◌};
ghost use Rattle.iceoryx2_file_log.specs.Opening.{header_fault_of};

use crate::pauses::Pauses;
use crate::printing::{Rest, Shows, show_entry, show_rest};
use crate::showing::{Changes, Lines, Silence};
use crate::stopping::Stop;
use iceoryx2_file_log::error::{FileFault, system_fault};
use iceoryx2_file_log::header::{self, HEADER_LENGTH, Header, HeaderError};
use iceoryx2_file_log::opening::find_file;
use iceoryx2_log::entry::Entry;
use iceoryx2_table::table::stored::StoredWorld;
use negotiate_serve::ending::ServeError;
use std::alloc::Global;
use std::fs::{File, Metadata};
use std::io::{self, ErrorKind, Read, Seek, SeekFrom, Write};
use std::os::unix::fs::MetadataExt;
use std::rt::Files;
use wulameron_place::trouble::Trouble;

/// Opens the file of this path. `Failed` by `NotFound` if nothing has the path.
pub(crate) fn open_file(rt: &impl Files<File = File>, path: &str) -> Result<File, FileFault> {
    match find_file(rt, path) {
        Ok(Some(file)) => Ok(file),
        Ok(None) => Err(FileFault::Failed {
            kind: ErrorKind::NotFound,
        }),
        Err(fault) => Err(fault),
    }
}

/// Returns the header with which the file begins.
fn read_header(alloc: Global, file: &mut File) -> Result<Header, FileFault> {
    let mut bytes = Vec::new(alloc);
    match file.take(HEADER_LENGTH as u64).read_to_end(&mut bytes) {
        Ok(_) => match header::decode(&bytes) {
            Ok(header) => Ok(header),
            Err(error) => Err(header_fault(error)),
        },
        Err(error) => Err(system_fault(&error)),
    }
}

/// Returns why a file with these first bytes isn't read.
fn header_fault(error: HeaderError) -> FileFault
    ensures { result ≡ header_fault_of error }
{
    match error {
        HeaderError::NotALog => FileFault::NotALog,
        HeaderError::AnotherVersion { found } => FileFault::AnotherVersion { found },
        HeaderError::Damaged => FileFault::Damaged { at: 0 },
    }
}

/// Returns the stop after the log's file refused.
fn of_file(fault: FileFault) -> Stop {
    Stop::Refused(Trouble::Refused(fault))
}

/// A place from which entries of a log are read that isn't held.
pub trait Source {
    /// Returns where the next entry begins: a byte of a file, or a number.
    fn at(&self) -> u64;

    /// Shows the entries from there on, as far as they are written.
    fn look<P: Shows, W: Write>(
        &mut self,
        alloc: Global,
        shown: &mut P,
        output: &mut W,
    ) -> Result<Rest, Stop>;

    /// Returns the services after the entries that are written.
    fn services(&mut self, alloc: Global) -> Result<StoredWorld, Stop>;

    /// Returns the services after the snapshot with which the log begins.
    fn services_of_snapshot(&mut self, alloc: Global) -> Result<StoredWorld, Stop>;

    /// Goes to the place in which the log goes on after a mark. Returns false if there is no such place yet.
    fn go_on(&mut self) -> Result<bool, Stop>;
}

/// A log's file that is read without the lock.
#[derive(Drop)]
pub struct LogFile<'a, F> {
    rt: &'a F,
    path: &'a str,
    file: File,
    header: Header,
    /// The byte where the next entry begins.
    at: u64,
}

impl<'a, F: Files<File = File> + AllocGlobal> LogFile<'a, F> {
    /// Opens the log's file of this path, before its first entry. It doesn't make the file.
    pub fn open(rt: &'a F, path: &'a str) -> Result<LogFile<'a, F>, FileFault> {
        let mut file = open_file(rt, path)?;
        let header = read_header(rt.alloc(), &mut file)?;
        Ok(LogFile {
            rt,
            path,
            file,
            header,
            at: HEADER_LENGTH as u64,
        })
    }

    fn metadata(&self) -> Result<Metadata, Stop> {
        match self.file.metadata() {
            Ok(metadata) => Ok(metadata),
            Err(error) => Err(of_file(system_fault(&error))),
        }
    }

    /// Goes to where the next entry begins. A file that ends before that is damaged.
    fn seek(&mut self) -> Result<(), Stop> {
        let length = self.metadata()?.len();
        if length < self.at {
            return Err(of_file(FileFault::Damaged { at: length }));
        }
        match self.file.seek(SeekFrom::Start(self.at)) {
            Ok(_) => Ok(()),
            Err(error) => Err(of_file(system_fault(&error))),
        }
    }

    /// Returns the log's file that has the path now, unless it is this one.
    fn next_file(&self) -> Result<Option<LogFile<'a, F>>, Stop> {
        let next = match LogFile::open(self.rt, self.path) {
            Ok(next) => next,
            Err(fault) => return Err(of_file(fault)),
        };
        let here = self.metadata()?;
        let there = next.metadata()?;
        if here.dev() == there.dev() && here.ino() == there.ino() {
            return Ok(None);
        }
        if next.header.name != self.header.name {
            return Err(of_file(FileFault::AnotherLog));
        }
        Ok(Some(next))
    }
}

impl<'a, F: Files<File = File> + AllocGlobal> Source for LogFile<'a, F> {
    fn at(&self) -> u64 {
        self.at
    }

    fn look<P: Shows, W: Write>(
        &mut self,
        alloc: Global,
        shown: &mut P,
        output: &mut W,
    ) -> Result<Rest, Stop> {
        self.seek()?;
        show_rest(alloc, &mut self.file, shown, &mut self.at, output)
    }

    fn services(&mut self, alloc: Global) -> Result<StoredWorld, Stop> {
        self.seek()?;
        let counter = self.header.counter;
        services_after(alloc, counter, &mut self.file, &mut self.at)
    }

    fn services_of_snapshot(&mut self, alloc: Global) -> Result<StoredWorld, Stop> {
        self.seek()?;
        let counter = self.header.counter;
        let mut snapshot = (&mut self.file).take(self.header.snapshot_length);
        services_after(alloc, counter, &mut snapshot, &mut self.at)
    }

    fn go_on(&mut self) -> Result<bool, Stop> {
        match self.next_file()? {
            None => Ok(false),
            Some(next) => {
                *self = next;
                Ok(true)
            }
        }
    }
}

/// Returns the services after the entries that a reader has left, from this counter on.
fn services_after<R: Read>(
    alloc: Global,
    counter: u64,
    reader: &mut R,
    at: &mut u64,
) -> Result<StoredWorld, Stop> {
    let mut silence = Silence {
        world: StoredWorld::starting_at(alloc, counter),
    };
    match show_rest(alloc, reader, &mut silence, at, &mut io::sink()) {
        Ok(_) => Ok(silence.world),
        Err(stop) => Err(stop),
    }
}

/// Shows a log's entries, even if the log goes on in another place.
pub trait Follows: Shows {
    /// Goes on in the next place, by the mark at the end of the one before.
    fn enter<S: Source, W: Write>(
        &mut self,
        alloc: Global,
        mark: &Entry,
        next: &mut S,
        output: &mut W,
    ) -> Result<(), Stop>;

    /// Shows what the entries of a look come to, if they aren't shown one by one.
    fn settle<W: Write>(&mut self, alloc: Global, output: &mut W) -> Result<(), Stop>;
}

impl Follows for Lines {
    fn enter<S: Source, W: Write>(
        &mut self,
        alloc: Global,
        mark: &Entry,
        _next: &mut S,
        output: &mut W,
    ) -> Result<(), Stop> {
        let mut text = String::new(alloc);
        show_entry(mark, self, &mut text, output)?;
        self.place = 0;
        self.from = 0;
        Ok(())
    }

    fn settle<W: Write>(&mut self, _alloc: Global, _output: &mut W) -> Result<(), Stop> {
        Ok(())
    }
}

impl Follows for Changes {
    fn enter<S: Source, W: Write>(
        &mut self,
        alloc: Global,
        _mark: &Entry,
        next: &mut S,
        _output: &mut W,
    ) -> Result<(), Stop> {
        self.world = next.services_of_snapshot(alloc)?;
        Ok(())
    }

    fn settle<W: Write>(&mut self, _alloc: Global, _output: &mut W) -> Result<(), Stop> {
        Ok(())
    }
}

/// Shows what is written. Returns true if the log goes on in another place, which is there to be shown.
fn look_on<S: Source, P: Follows, W: Write>(
    alloc: Global,
    source: &mut S,
    shown: &mut P,
    output: &mut W,
) -> Result<bool, Stop> {
    match source.look(alloc, shown, output)? {
        Rest::Ended => Ok(false),
        Rest::Moved(mark) => {
            if !source.go_on()? {
                return Ok(false);
            }
            shown.enter(alloc, &mark, source, output)?;
            Ok(true)
        }
    }
}

/// Returns whether the next look may succeed after this stop. Damage at a place where there was none may be half of
/// what a writer cuts off and writes again.
fn is_passing(stop: Stop, at: u64, damaged_at: Option<u64>) -> bool {
    matches!(stop, Stop::Damaged) && damaged_at != Some(at)
}

/// Shows a log's entries as they come, until a pause ends it. What is written before that is shown.
pub fn follow<S: Source, P: Follows, I: Pauses, W: Write>(
    alloc: Global,
    source: &mut S,
    shown: &mut P,
    pauses: &mut I,
    output: &mut W,
) -> Result<(), Stop> {
    let mut goes_on = true;
    let mut damaged_at = None;
    for _ in 0..u64::MAX {
        match look_on(alloc, source, shown, output) {
            Ok(true) => continue,
            Ok(false) => {
                damaged_at = None;
                shown.settle(alloc, output)?;
            }
            Err(stop) => {
                if !goes_on || !is_passing(stop, source.at(), damaged_at) {
                    return Err(stop);
                }
                damaged_at = Some(source.at());
            }
        }
        if !goes_on {
            return Ok(());
        }
        goes_on = pauses.pause();
    }
    Err(Stop::Failed(ServeError::TooManyTries))
}
