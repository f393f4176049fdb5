//! What the crates of tests share: settings, the words of lines and terms, calls of any pattern, and a third table.
//! Nothing of it is expected of the layer by itself: the tests have what they want.
//!
//! The third table is one in its plain form, written from the rules alone (`plain`, `standing`). `places` carries out
//! commands over any storage. `refusing` tells how requests for memory come to be refused.
#![tactic(auto)]

pub mod calls;
pub mod lines;
pub mod places;
pub mod plain;
pub mod refusing;
mod settings;
mod standing;
pub mod terms;
