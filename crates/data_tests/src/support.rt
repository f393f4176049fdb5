//! What the tests share.

use std::alloc::Global;
use std::fmt::{Debug, Display};
use std::process::Abort;

/// Ends a test that finds another value than it wants. Only here is a value compared and printed, since
/// a function that does so takes long to prove.
pub fn assert_same<T: Debug + PartialEq + Drop>(rt: &impl Abort, found: T, wanted: T) {
    assert_eq!(rt; found, wanted);
}

/// Ends a test that finds another text printed for a value than it wants.
pub fn assert_prints<D: Display>(rt: &impl Abort, alloc: Global, value: &D, wanted: &str) {
    assert_same(rt, printed(rt, alloc, value).as_str(), wanted);
}

/// What is printed for a value.
fn printed<D: Display>(rt: &impl Abort, alloc: Global, value: &D) -> String {
    match format!(in alloc; "{value}") {
        Ok(text) => text,
        Err(_) => panic!(rt; "no memory"),
    }
}

/// Puts texts behind another one.
fn push_all(rt: &impl Abort, text: &mut String, parts: &[&str]) {
    for part in parts {
        if text.push_str(part).is_err() {
            panic!(rt; "no memory")
        }
    }
}

/// Texts, one behind the other.
pub fn joined(rt: &impl Abort, alloc: Global, parts: &[&str]) -> String {
    let mut text = String::new(alloc);
    push_all(rt, &mut text, parts);
    text
}
