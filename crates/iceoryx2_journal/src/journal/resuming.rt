//! Going on with another handle of the log.

ghost use Rattle.std.specs.Prelude.{◌≡◌, true, []};
ghost use Rattle.iceoryx2_world.specs.Interference.{Rely};
ghost use Rattle.iceoryx2_journal.specs.Taking.{is_own};
ghost use Rattle.iceoryx2_journal.specs.Journal.{Begins, KeepsHold, Resumes};
ghost use Rattle.iceoryx2_journal.specs.Replay.{Lives};

use super::Journal;
use crate::log_recorder::LogRecorder;
use iceoryx2_log::log::Log;
use std::mem;

impl<L: Log + Drop> Journal<L> {
    /// Goes on with another handle of its log, and takes over all that was appended since, in
    /// anyone's name. It is for a process whose handle is over: others may have cleaned up for its
    /// nodes, and its last entry may be in the log. The caller has to know that no other process
    /// has its nodes, and looks then which of its tickets stand. Returns true if it took over all.
    /// If not, the journal is as after `catch_up`. Compacts nothing.
    pub fn resume(&mut self, log: L) -> bool
        ensures takes { Resumes L.contents log result self.old self.new }
        ensures hold { L.held self.new.log ≡ L.held log }
        ensures kept { Rely (is_own []) self.old.world self.new.world }
        ensures nodes { self.new.nodes ≡ self.old.nodes }
        ensures lives { L.contents log ≡ L.contents self.old.log → Lives L.contents self.old self.new }
    {
        self.recorder = LogRecorder { log, entry: None };
        let none = Vec::new(*self.nodes.allocator());
        let own = mem::replace(&mut self.nodes, none);
        let is_all = self.catch_up_plainly();
        self.nodes = own;
        is_all
    }

    // Does as `catch_up` does, but compacts nothing.
    fn catch_up_plainly(&mut self) -> bool
        ensures takes { Begins L.contents true result self.old self.new }
        ensures hold { KeepsHold L.held self.old self.new }
    {
        if self.begin_reading() {
            self.recorder.log.let_go();
            return true;
        }
        false
    }
}
