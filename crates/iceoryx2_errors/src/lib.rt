//! Why calls are refused, whatever the storage, with the exact texts of the errors.
//!
//! A `Refusal` is an error of one of the nine enums. Its text is exact (`text_of`), its reason has the error's name
//! (`reason_of`), and its number is that of the C header (`number_of`). No two of the 163 errors have the same text
//! (`texts_of_errors_differ()`), and no two have the same number (`refusals_are_known()`). The errors that open and
//! create make of a look's state are exact. If a service has other types, the open error names the types, and the
//! create error is `AlreadyExists`, as for another pattern. `equality_of_errors()`: values are equal by `==`
//! exactly if their variants and inner values are.
#![tactic(auto)]

pub mod error;
pub mod refusal;
