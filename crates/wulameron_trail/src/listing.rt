//! The services of a log, listed again with each change.

ghost use Rattle.std.specs.Prelude.{◌≡◌, ◌++◌, IfErr, IfOk, string_bytes};
ghost use Rattle.wulameron_trail.specs.Listing.{IsUnmade, ListsAnew, PrintsBehind, gap, gap_behind, stop_in};
ghost use Rattle.wulameron_view.specs.Looking.{IsListed};

use crate::following::{Follows, Source};
use crate::printing::Shows;
use crate::showing::follow_entry;
use crate::stopping::{ShowError, Stop};
use iceoryx2_log::entry::Entry;
use iceoryx2_monitoring::state::NodeStatus;
use iceoryx2_table::table::stored::StoredWorld;
use negotiate_serve::ending::ServeError;
use negotiate_serve::output::write_out;
use std::alloc::Global;
use std::fs::File;
use std::io::Write;
use std::rt::Files;
use wulameron_arguments::asked::{self, Form, Listed};
use wulameron_place::claims;
use wulameron_view::looking::{LookError, list_in};

/// Lists the services again if they or the states of nodes have changed.
pub struct Listing<'a, F> {
    pub rt: &'a F,
    pub list: asked::List<'a>,
    /// The services before the next entry.
    pub world: StoredWorld,
    /// Whether entries were read since the services were listed.
    pub is_stale: bool,
    /// The states of the nodes when the services were listed.
    pub states: Vec<NodeStatus>,
    /// What was printed last. It is empty before the first time.
    pub last: String,
}

// It is written out, so that proofs of what lets one go don't pay for each field.
impl<'a, F> Drop for Listing<'a, F> {
    fn drop(self) {
        let Listing {
            rt: _,
            list: _,
            world: _,
            is_stale: _,
            states: _,
            last: _,
        } = self;
    }
}

impl<'a, F: Files<File = File> + AllocGlobal> Listing<'a, F> {
    /// Returns a listing of the services of this world that has listed nothing yet.
    pub fn new(rt: &'a F, list: asked::List<'a>, world: StoredWorld) -> Listing<'a, F>
        ensures world { result.world ≡ world }
    {
        Listing {
            rt,
            list,
            world,
            is_stale: true,
            states: Vec::new(rt.alloc()),
            last: String::new(rt.alloc()),
        }
    }

    /// Takes over the states of the nodes, as far as they can be had, and returns whether something has changed since
    /// the services were listed.
    fn has_changed(&mut self) -> bool
        ensures world { self.new.world ≡ self.old.world }
    {
        let was_stale = self.is_stale;
        self.is_stale = false;
        match claims::list(self.rt, self.list.place) {
            Ok(states) => {
                let is_same = states.as_slice() == self.states.as_slice();
                self.states = states;
                was_stale || !is_same
            }
            Err(_) => was_stale,
        }
    }

    /// Prints the services, unless that is what was printed last. An empty line parts lists for people.
    ///
    /// `Failed` if there is no memory, and nothing is printed; or if the output refuses, which has a prefix then.
    fn list_anew<W: Write>(&mut self, alloc: Global, output: &mut W) -> Result<(), Stop>
        ensures world { self.new.world ≡ self.old.world }
        ensures lists { ListsAnew self.old result (W.contents output.old) (W.contents output.new) }
    {
        match listed_in(alloc, &self.states, &self.world, self.list.listed) {
            Ok(text) => {
                if text.as_str() == self.last.as_str() {
                    return Ok(());
                }
                self.print(alloc, text, output)
            }
            Err(stop) => Err(stop),
        }
    }

    /// Prints a list after what was printed last.
    fn print<W: Write>(&mut self, alloc: Global, text: String, output: &mut W) -> Result<(), Stop>
        ensures world { self.new.world ≡ self.old.world }
        ensures prints { PrintsBehind (gap self.old) (string_bytes text) result
            (W.contents output.old) (W.contents output.new) }
    {
        match self.apart(alloc, &text) {
            Ok(shown) => {
                self.last = text;
                written(write_out(shown.as_bytes(), output))
            }
            Err(stop) => Err(stop),
        }
    }

    /// Returns a list as it is printed after the last one.
    fn apart(&self, alloc: Global, text: &str) -> Result<String, Stop>
        ensures made { IfOk result (λ shown. string_bytes shown ≡ gap self.now ++ text.now) }
        ensures unmade { IfErr result IsUnmade }
    {
        let gap = gap_behind(self.list.listed.shown.form, self.last.as_str());
        match format!(in alloc; "{gap}{text}") {
            Ok(shown) => Ok(shown),
            Err(_) => Err(Stop::Failed(ServeError::OutOfMemory)),
        }
    }
}

/// Returns what parts a list from the one before. It is empty before the first one.
fn gap_behind(form: Form, last: &str) -> &'static str
    ensures { result.now ≡ gap_behind form last.now }
{
    if last.is_empty() {
        return "";
    }
    match form {
        Form::Text | Form::Names => "\n",
        Form::Json | Form::JsonLines => "",
    }
}

/// Returns the list of the services of a world.
fn listed_in(
    alloc: Global,
    states: &[NodeStatus],
    world: &StoredWorld,
    listed: Listed<'_>,
) -> Result<String, Stop>
    ensures made { IfOk result (λ text. IsListed listed.entry states.now world.now (string_bytes text)) }
    ensures unmade { IfErr result IsUnmade }
{
    match list_in(alloc, states, world, listed) {
        Ok(text) => Ok(text),
        Err(LookError::Failed(fault)) => Err(Stop::Failed(fault)),
        Err(_) => Err(Stop::Failed(ServeError::OutOfMemory)),
    }
}

/// Returns the stop if the output refuses.
fn written(written: Result<(), ServeError>) -> Result<(), Stop>
    ensures { result ≡ stop_in written }
{
    match written {
        Ok(()) => Ok(()),
        Err(fault) => Err(Stop::Failed(fault)),
    }
}

impl<'a, F: Files<File = File> + AllocGlobal> Shows for Listing<'a, F> {
    ghost use Rattle.wulameron_trail.specs.Listing.{FollowsStale};

    ghost shows = { FollowsStale };

    fn show(&mut self, entry: &Entry, text: &mut String) -> Result<(), ShowError> {
        self.is_stale = true;
        follow_entry(*text.allocator(), &mut self.world, entry)
    }
}

impl<'a, F: Files<File = File> + AllocGlobal> Follows for Listing<'a, F> {
    fn enter<S: Source, W: Write>(
        &mut self,
        alloc: Global,
        _mark: &Entry,
        next: &mut S,
        _output: &mut W,
    ) -> Result<(), Stop> {
        self.world = next.services_of_snapshot(alloc)?;
        Ok(())
    }

    fn settle<W: Write>(&mut self, alloc: Global, output: &mut W) -> Result<(), Stop> {
        if !self.has_changed() {
            return Ok(());
        }
        self.list_anew(alloc, output)
    }
}
