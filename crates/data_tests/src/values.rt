//! Values: copies of attributes, hashes and times, and the texts of what values and bytes are refused by.

use crate::support::{assert_prints, assert_same};
use iceoryx2_attribute::attribute::{AttributeError, AttributeSet, AttributeSpecifier};
use iceoryx2_data::bytes::DecodeError;
use iceoryx2_description::description::{ServiceHash, ServiceNameError};
use iceoryx2_description::time::{Duration, Time};
use std::alloc::Global;
use std::process::Abort;

/// Pairs as texts.
type Pairs = &'static [(&'static str, &'static str)];

/// The attributes of these pairs.
fn attributes(alloc: Global, pairs: Pairs) -> AttributeSet {
    let mut specifier = AttributeSpecifier::new(alloc);
    for &(key, value) in pairs {
        let _answer = specifier.define(key, value);
    }
    specifier.into_attributes()
}

/// Whether attributes are equal to their copy, and to others.
fn are_equal(set: &AttributeSet, other: &AttributeSet) -> (bool, bool) {
    match set.clone() {
        Ok(copy) => (copy == *set, copy == *other),
        Err(_) => (false, false),
    }
}

#[test]
fn a_copy_is_equal_and_another_value_is_not(rt: HostRuntime) {
    let set = attributes(rt.alloc(), &[("a", "1"), ("b", "2")]);
    let other = attributes(rt.alloc(), &[("a", "1"), ("b", "3")]);
    assert_same(&rt, are_equal(&set, &other), (true, false));
}

/// What is printed for a refusal.
const TEXTS: &[(AttributeError, &str)] = &[
    (
        AttributeError::KeyLength,
        "an attribute's key has 1 to 64 bytes",
    ),
    (
        AttributeError::ValueLength,
        "an attribute's value has at most 256 bytes",
    ),
    (
        AttributeError::TooMany,
        "there are as many already as there may be",
    ),
    (AttributeError::OutOfMemory, "out of memory"),
];

#[test]
fn refusals_of_attributes_have_texts(rt: HostRuntime) {
    for (error, text) in TEXTS {
        assert_prints(&rt, rt.alloc(), error, text);
    }
}

#[test]
fn errors_of_names_have_texts(rt: HostRuntime) {
    let length = "a service's name has 1 to 255 bytes";
    assert_prints(&rt, rt.alloc(), &ServiceNameError::Length, length);
    assert_prints(
        &rt,
        rt.alloc(),
        &ServiceNameError::OutOfMemory,
        "out of memory",
    );
}

#[test]
fn errors_of_bytes_have_texts(rt: HostRuntime) {
    let malformed = "the bytes are no description";
    assert_prints(&rt, rt.alloc(), &DecodeError::Malformed, malformed);
    assert_prints(&rt, rt.alloc(), &DecodeError::OutOfMemory, "out of memory");
}

/// Ends a test that finds other digits of a hash than it wants.
fn assert_digits(rt: &impl Abort, alloc: Global, hash: ServiceHash, wanted: &str) {
    match hash.to_text(alloc) {
        Ok(digits) => assert_same(rt, digits.as_str(), wanted),
        Err(_) => panic!(rt; "no memory"),
    }
}

#[test]
fn a_hash_has_40_lower_case_digits(rt: HostRuntime) {
    let bytes = [
        0xa9, 0x99, 0x3e, 0x36, 0x47, 0x06, 0x81, 0x6a, 0xba, 0x3e, 0x25, 0x71, 0x78, 0x50, 0xc2,
        0x6c, 0x9c, 0xd0, 0xd8, 0x9d,
    ];
    let wanted = "a9993e364706816aba3e25717850c26c9cd0d89d";
    assert_digits(&rt, rt.alloc(), ServiceHash(bytes), wanted);
}

/// The parts of a span, if it may be one.
fn span(seconds: u64, nanoseconds: u32) -> Option<(u64, u32)> {
    match Duration::new(seconds, nanoseconds) {
        Some(span) => Some((span.seconds(), span.nanoseconds())),
        None => None,
    }
}

/// The parts of a time, if it may be one.
fn time(seconds: u64, nanoseconds: u32) -> Option<(u64, u32)> {
    match Time::new(seconds, nanoseconds) {
        Some(time) => Some((time.seconds(), time.nanoseconds())),
        None => None,
    }
}

#[test]
fn spans_have_fewer_than_a_billion_nanoseconds(rt: HostRuntime) {
    let found = [
        span(3, 999_999_999),
        span(3, 1_000_000_000),
        time(u64::MAX, 999_999_999),
        time(0, 1_000_000_000),
    ];
    let wanted = [
        Some((3, 999_999_999)),
        None,
        Some((u64::MAX, 999_999_999)),
        None,
    ];
    assert_same(&rt, found, wanted);
}

#[test]
fn times_are_ordered_by_their_seconds_first(rt: HostRuntime) {
    let zero = Some(Time::default());
    let found = [
        zero == Time::new(0, 0),
        zero < Time::new(0, 1),
        Time::new(0, 999_999_999) < Time::new(1, 0),
        Duration::new(0, 999_999_999) < Duration::new(1, 0),
    ];
    assert_same(&rt, found, [true, true, true, true]);
}
