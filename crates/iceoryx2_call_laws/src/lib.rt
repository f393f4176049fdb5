//! What is true of whole calls over a table.
//!
//! `agreement()`, for every pattern, any call and run of its words, whatever others do that keeps what own nodes
//! rely on, and any access refused: what a call gave stands, and stays so (`every_open_factory_stands`,
//! `in_any_world`, `among_others`; the conclusion is `IsAsPromised`), within fixed counts (`is_short`). An Ok adds
//! exactly its ticket (`tickets`) and changes descriptions and counts in one access (`granted`); a refusal changes
//! none, and leaves of its own only that for which a removal was refused (`leaves`), without faults the phase Read
//! and spent numbers (`gives_back`). A close spares other factories (`close_spares`), takes its ticket out
//! (`taken_out`), and is Ok without faults where its factory stands (`closed`). Over a table every run of a call or a
//! close keeps the agreement (`keeps_agreement`, `close_keeps_agreement`). There a standing factory stands through
//! every call (`keeps_standing`), through a close of a factory with another ticket (`close_keeps_standing`), and
//! through any access but a granted release of its ticket (`access_keeps_standing`).
//!
//! `promise_of_lawful_calls()`: each lawful call keeps `Promise`, along its words and by history.
//! `agreement_under_faults()` says the same over a storage that refuses chosen accesses of a table: by the clauses just
//! named, by `not_here`, `leaves`, `taken_out` and `close_leaves`, and by `every_open_factory_stands`. There a create
//! over no row, none of whose own accesses is refused, is Ok but for the history rule, the clock, the counter's end or
//! memory (`over_no_row`). `quiet_laws()` and `quiet_calls()`: over a table that nobody else uses each call is one
//! of the quiet machine (`Quiet`, `Answers`); a refused one changes nothing; a create and its close spend one
//! number; a node's second factory takes no place; and while a factory stands that carries what a call gave, with a
//! place and a number left, an open that asks the same is Ok or out of memory (`opens_again`).
#![tactic(auto)]

pub mod fault_laws;
pub mod laws;
pub mod quiet_laws;
