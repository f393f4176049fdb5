//! Single parts of the byte form: numbers, texts, times and types, read and written.

pub mod reading;
pub mod writing;
