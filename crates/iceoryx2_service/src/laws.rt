//! The laws of words, verdicts and errors, of calls and sessions over a table, and of the worlds, batches, scripts,
//! faults and traces below them.

pub use crate::promise::{opens_again, promise_of_builders, promise_over_logs, sessions_over_logs};
pub use iceoryx2_call_laws::fault_laws::agreement_under_faults;
pub use iceoryx2_call_laws::laws::{agreement, promise_of_lawful_calls};
pub use iceoryx2_call_laws::quiet_laws::{quiet_calls, quiet_laws};
pub use iceoryx2_errors::error::{equality_of_errors, texts_of_errors_differ};
pub use iceoryx2_errors::refusal::refusals_are_known;
pub use iceoryx2_file_log::header::{laws_of_headers, lengths as lengths_of_headers};
pub use iceoryx2_file_log::medium::laws_of_media;
pub use iceoryx2_file_log::remainder::laws_of_tearing;
pub use iceoryx2_journal::laws::{journals, processes};
pub use iceoryx2_log::form::{laws_of_forms as laws_of_log_forms, lengths as lengths_of_log_forms};
pub use iceoryx2_rounds::create::clearing_limit_is_five;
pub use iceoryx2_rounds::laws::{
    close_hands_back_its_own, create_is_short, create_keeps_what_it_made, granted_create_carries,
    granted_open_carries, granted_open_or_create_carries, granted_open_or_create_meets_or_holds,
    open_is_short, open_keeps_its_tag, open_or_create_is_short, open_or_create_keeps_what_it_made,
    refused_create_gives_back, refused_open_gives_back, refused_open_or_create_gives_back,
    segment_part_is_short,
};
pub use iceoryx2_rounds::open::open_retries_are_five;
pub use iceoryx2_rounds::open_or_create::open_or_create_retries_are_five;
pub use iceoryx2_rounds::verdict::verdict_law;
pub use iceoryx2_session::laws::{sessions, sessions_in_world};
pub use iceoryx2_testing::laws::{faults, scripts, traces};
pub use iceoryx2_world::laws::{
    accesses, batches, laws_of_accesses, laws_of_counts, laws_of_standing, laws_of_steps,
};
