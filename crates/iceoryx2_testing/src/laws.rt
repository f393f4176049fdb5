//! The laws of every run over these storages.

ghost use Rattle.std.specs.Prelude.{◌≡◌, ◌+◌, ◌≤◌, List, length, ◌-◌, ◌^◌, [], map};
ghost use Rattle.iceoryx2_access.specs.Counts.{CountsEach};
ghost use Rattle.iceoryx2_access.specs.Letter.{Letter};
ghost use Rattle.iceoryx2_access.specs.Run.{Run};
ghost use Rattle.iceoryx2_testing.specs.Counters.{counters_along};
ghost use Rattle.iceoryx2_testing.specs.Faults.{FaultyState, IsInjectedFault, IsRefusableInside, IsFaultlessInside};
ghost use Rattle.iceoryx2_testing.specs.Plays.{EachRunPlays};
ghost use Rattle.iceoryx2_testing.specs.Script.{ScriptState, IsScriptAccess};
ghost use Rattle.iceoryx2_testing.specs.Entries.{entry_of};
ghost use Rattle.iceoryx2_testing.specs.Trace.{TracedState, IsTracedAccess, IsNew, KeepsLatest, KeepsItsLatest};
ghost use Rattle.iceoryx2_testing.specs.Trace.{StaysWithinRoom, KeepsItsRoom, CountsAccesses};

use iceoryx2_access::storage::Storage;

/// States the effect of a word of accesses on a script.
pub fn scripts()
    // It takes a front of the answers.
    ensures front { EachRunPlays }

    // An access takes at most one answer, so without accesses all are left.
    ensures few { (a b : ScriptState) (word : List Letter)
        → Run IsScriptAccess a word b → length a.remaining ≤ length word + length b.remaining }

    ensures counters { (a b : ScriptState) (word : List Letter)
        → Run IsScriptAccess a word b → b.counters ≡ counters_along word a.counters }
{}

/// States the effect of a word of accesses on any storage of which chosen accesses are refused.
pub fn faults<S: Storage>()
    // What it is of the storage inside,
    ensures refusable { (a b : FaultyState S) (word : List Letter) → IsRefusableInside S.step a b word }

    // and where none of its accesses is refused.
    ensures faultless { (a b : FaultyState S) (word : List Letter) → IsFaultlessInside S.step a b word }

    // Each access counts, and the list stays.
    ensures accesses { (a b : FaultyState S) (word : List Letter)
        → Run (IsInjectedFault S.step) a word b → CountsEach a.accesses word b.accesses }
    ensures counters { (a b : FaultyState S) (word : List Letter)
        → Run (IsInjectedFault S.step) a word b → b.counters ≡ counters_along word a.counters }
    ensures refused { (a b : FaultyState S) (word : List Letter)
        → Run (IsInjectedFault S.step) a word b → b.refused ≡ a.refused }
{}

/// States the effect of a word of accesses on a traced storage, whatever is inside.
pub fn traces<S: Storage>()
    // It is the same word of the storage inside.
    ensures inside { (a b : TracedState S) (word : List Letter)
        → Run (IsTracedAccess S.step) a word b → Run S.step a.inner word b.inner }

    // What is kept from a new storage, or one that was cleared: the latest of the word, or the whole word where
    // there is room for it.
    ensures last { (a b : TracedState S) (word : List Letter) → KeepsItsLatest S.step a b word }
    ensures whole { (a b : TracedState S) (word : List Letter)
        → Run (IsTracedAccess S.step) a word b → a.entries ≡ [] → length word ≤ a.room
        → b.entries ≡ map entry_of word }

    // What is kept from any other.
    ensures entries { (a b : TracedState S) (word : List Letter) → KeepsLatest S.step a b word }

    // How many are kept, and how many there is room for.
    ensures bound { (a b : TracedState S) (word : List Letter) → StaysWithinRoom S.step a b word }
    ensures room { (a b : TracedState S) (word : List Letter) → KeepsItsRoom S.step a b word }

    // How many accesses there were.
    ensures total { (a b : TracedState S) (word : List Letter) → CountsAccesses S.step a b word }

    // From a new one, as many are forgotten as there was no room for.
    ensures forgotten { (a b : TracedState S) (word : List Letter)
        → Run (IsTracedAccess S.step) a word b → IsNew a → length word ≤ 2 ^ 64 - 1
        → b.total - length b.entries ≡ length word - a.room }
{}
