//! Attributes of a service: what they are, how they are made, and what is required of them.
//!
//! A set ascends by the bytes of the key and then by those of the value. It lists each pair once, within the limits
//! (`AreAttributes`; `limits_of_attributes()` states their numbers). `define`, `require` and `require_key` put the
//! pair or the key in its place (`AddsPair`, `AddsKey`). A length past its limit and one pair or key too many are
//! each refused exactly if the tests before pass. A pair or a key that is already there is accepted, and a refusal
//! changes nothing. `push_ascending` puts a pair after the last one exactly if they are then still attributes.
//!
//! `verify_requirements` is Ok exactly if each required pair is there and each required key has a value. Otherwise
//! it is the key of the first required pair that is lacking, or the first required key that is lacking
//! (`first_lacking`). `into_attributes`, the readers, `clone`, `==` of sets and the texts of `AttributeError` are
//! exact.
#![tactic(auto)]

pub mod attribute;
