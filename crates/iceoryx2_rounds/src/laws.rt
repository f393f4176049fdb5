//! Laws of every word of a call, whatever the pattern and the storage.
//!
//! A create, an open, and an open or create may prepare the types of their messages first. A call
//! that doesn't prepare types goes along a word of its grammar. That word is a word of a call that
//! prepares types too.

ghost use Rattle.std.specs.Prelude.{◌≡◌, ℕ, List, Result, Ok, Err};
ghost use Rattle.iceoryx2_description.specs.declared.description.ServiceHash.{ServiceHash};
ghost use Rattle.iceoryx2_access.specs.Letter.{Letter};
ghost use Rattle.iceoryx2_errors.specs.declared.error.CloseError.TheVariants.{NotHere};
ghost use Rattle.iceoryx2_rounds.specs.Closes.{IsCloseWord};
ghost use Rattle.iceoryx2_rounds.specs.declared.caller.Caller.{Caller};
ghost use Rattle.iceoryx2_rounds.specs.Counts.{IsWithin, create_limits};
ghost use Rattle.iceoryx2_rounds.specs.Creates.{description_of};
ghost use Rattle.iceoryx2_rounds.specs.Fronts.{GivesAllBack, KeepsAll, KeepsLastTag};
ghost use Rattle.iceoryx2_rounds.specs.Opens.{CarriesAccepted};
ghost use Rattle.iceoryx2_rounds.specs.Prepared.{IsCreateCall, IsOpenCall, OpenIsShort, RefusedOpenGivesBack};
ghost use Rattle.iceoryx2_rounds.specs.Segments.{SegmentPartIsShort};
ghost use Rattle.iceoryx2_access.specs.Registered.{Registered};
ghost use Rattle.iceoryx2_rounds.specs.PatternRules.{PatternRules};
ghost use Rattle.iceoryx2_rounds.specs.Adjusting.{MeetsOrHolds, OnlyRaises};
ghost use Rattle.iceoryx2_rounds.specs.BuilderCalls.{BuilderCall};
ghost use Rattle.iceoryx2_rounds.specs.CallWords.{IsOpenOrCreateCall, OpenOrCreateIsShort};
ghost use Rattle.iceoryx2_rounds.specs.CallWords.{RefusedOpenOrCreateGivesBack};
ghost use Rattle.iceoryx2_rounds.specs.Grants.{Carries};
ghost use Rattle.iceoryx2_rounds.specs.Leaves.{KeepsInTheEnd};
ghost use Rattle.iceoryx2_rounds.specs.declared.open_or_create.OpenOrCreateRefusal.{OpenOrCreateRefusal};

/// A create makes at most 20 accesses. It looks at most once and opens nothing. It makes a segment
/// in at most six tries, and removes one at most six times, the last time to give its own back.
pub fn create_is_short<E: Copy, C: Copy>()
    ensures { (m : PatternRules E C) (caller : Caller) (word : List Letter) (answer : Result Registered C)
        → IsCreateCall m caller word answer → IsWithin word create_limits }
{}

/// The part of a create that makes its segment does so in at most six tries, with at most five
/// removals between them: eleven accesses at most.
pub fn segment_part_is_short()
    ensures { SegmentPartIsShort }
{}

/// An open makes at most 42 accesses. It looks at most twelve times and opens at most six times. It
/// makes and removes no segment.
pub fn open_is_short<E: Copy, C: Copy>()
    ensures { (m : PatternRules E C) (node : ℕ) (hash : ServiceHash)
        (word : List Letter) (answer : Result Registered E)
        → OpenIsShort m node hash word answer }
{}

/// A refused create has given back what it made. Its word is a front, which makes its tag unless
/// the tag was there, its lock and its segment, or fewer of them. Then comes one removal for each
/// thing that the front made, the last thing first. The create leaves only those things whose
/// removal was refused (`is_left`).
pub fn refused_create_gives_back<E: Copy, C: Copy>()
    ensures { (m : PatternRules E C) (caller : Caller) (word : List Letter) (error : C)
        → IsCreateCall m caller word (Err error) → GivesAllBack caller.node caller.hash word }
{}

/// A refused open has given back each tag that it made, round by round, and took away none that was
/// there. It leaves a tag only if the last removal of one was refused, and locks nothing.
pub fn refused_open_gives_back<E: Copy, C: Copy>()
    ensures { (m : PatternRules E C) (node : ℕ) (hash : ServiceHash) (word : List Letter) (error : E)
        → RefusedOpenGivesBack m node hash word error }
{}

/// A create that succeeds keeps its segment, its lock, under whose number the description is now
/// published, and its tag, which may have been there. It has given back nothing of its own: its
/// word is a front, and then it publishes.
pub fn create_keeps_what_it_made<E: Copy, C: Copy>()
    ensures { (m : PatternRules E C) (caller : Caller) (word : List Letter) (r : Registered)
        → IsCreateCall m caller word (Ok r)
        → KeepsAll caller.node caller.hash word r.number }
{}

/// An open that succeeds keeps the tag of its last round, which may have been there, and has given
/// back the tags that it made in failed rounds.
pub fn open_keeps_its_tag<E: Copy, C: Copy>()
    ensures { (m : PatternRules E C) (node : ℕ) (hash : ServiceHash) (word : List Letter) (r : Registered)
        → IsOpenCall m node hash word (Ok r)
        → KeepsLastTag node hash word r.number }
{}

/// A create that succeeds carries its node and what it published.
pub fn granted_create_carries<E: Copy, C: Copy>()
    ensures { (m : PatternRules E C) (caller : Caller) (word : List Letter) (r : Registered)
        → IsCreateCall m caller word (Ok r)
        → (r.node ≡ caller.node) × (r.description ≡ description_of m caller) }
{}

/// An open that succeeds carries its node and a description. The description has the builder's
/// hash, pattern and message types, and the requirement was accepted on it.
pub fn granted_open_carries<E: Copy, C: Copy>()
    ensures { (m : PatternRules E C) (node : ℕ) (hash : ServiceHash) (word : List Letter) (r : Registered)
        → IsOpenCall m node hash word (Ok r)
        → CarriesAccepted m node hash r }
{}

/// A close hands back what was to be closed.
pub fn close_hands_back_its_own()
    ensures { (r s : Registered) (word : List Letter) → IsCloseWord r word (Err (NotHere s)) → s ≡ r }
{}

/// An open or create makes at most 264 accesses. It looks at most 78 times and opens at most 36 times.
/// It makes a segment in at most 36 tries, and removes one at most 36 times.
pub fn open_or_create_is_short<D, E: Copy, C: Copy>()
    ensures { (c : BuilderCall D E C) (word : List Letter)
        (answer : Result Registered (OpenOrCreateRefusal E C))
        → OpenOrCreateIsShort c word answer }
{}

/// A refused open or create has given back what it made, round by round. Each round leaves only
/// those things whose removal was refused.
pub fn refused_open_or_create_gives_back<D, E: Copy, C: Copy>()
    ensures { (c : BuilderCall D E C) (word : List Letter)
        (refusal : OpenOrCreateRefusal E C)
        → RefusedOpenOrCreateGivesBack c word refusal }
{}

/// An open or create that succeeds keeps what its last round made, and each round before has given
/// back what it made.
pub fn open_or_create_keeps_what_it_made<D, E: Copy, C: Copy>()
    ensures { (c : BuilderCall D E C) (word : List Letter) (r : Registered)
        → IsOpenOrCreateCall c word (Ok r)
        → KeepsInTheEnd c.caller.node c.caller.hash word r.number }
{}

/// An open or create that succeeds carries its node, and a description that its last round
/// accepted, or published with zeros raised. That round asks what was asked first, adjusted by each
/// create before.
pub fn granted_open_or_create_carries<D, E: Copy, C: Copy>()
    ensures { (c : BuilderCall D E C) (word : List Letter) (r : Registered)
        → IsOpenOrCreateCall c word (Ok r)
        → (r.node ≡ c.caller.node) × Carries c r.description }
{}

/// If a create only raises minima, the description that a granted open or create carries meets what
/// was asked first, whatever its rounds adjusted, or was published with that adjusted once.
pub fn granted_open_or_create_meets_or_holds<D, E: Copy, C: Copy>()
    ensures { (c : BuilderCall D E C) (word : List Letter) (r : Registered)
        → OnlyRaises c.meaning c.adjusted → IsOpenOrCreateCall c word (Ok r)
        → MeetsOrHolds c r.description }
{}
