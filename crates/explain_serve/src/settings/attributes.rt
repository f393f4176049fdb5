//! Which attribute an open didn't find.

ghost use Rattle.std.specs.Prelude.{◌≡◌, ◌++◌, OnOk, Some, string_bytes};
ghost use Rattle.explain_serve.specs.Attributes.{first_line, lacking_key_lines, lacking_lines};
ghost use Rattle.explain_serve.specs.Attributes.{pair_line, pair_lines};

use iceoryx2_attribute::attribute::{Attribute, AttributeSet, AttributeVerifier};
use std::alloc::AllocError;

/// Writes the first key that is lacking, if one is, and then the required pairs of this key and the pairs that there
/// are. `AllocError` if the text finds no memory.
pub(super) fn describe_lacking(
    required: &AttributeVerifier,
    offered: &AttributeSet,
    text: &mut String,
) -> Result<(), AllocError>
    ensures { OnOk result (string_bytes text.new ≡ string_bytes text.old ++ lacking_lines required.now offered.now) }
{
    match required.verify_requirements(offered) {
        Ok(()) => Ok(()),
        Err(key) => describe_key(required, offered, key, text),
    }
}

/// Writes the key, the required pairs of this key and the pairs that there are.
fn describe_key(
    required: &AttributeVerifier,
    offered: &AttributeSet,
    key: &str,
    text: &mut String,
) -> Result<(), AllocError>
    ensures { OnOk result (string_bytes text.new
        ≡ string_bytes text.old ++ lacking_key_lines required.now offered.now (Some key.now)) }
{
    describe_first(key, text)?;
    describe_pairs("required", key, required.required_attributes(), text)?;
    describe_pairs("offered", key, offered, text)
}

/// Writes which key is the first that is lacking.
#[tactic(auto, unfolding(crate::specs::Attributes::first_line))]
fn describe_first(key: &str, text: &mut String) -> Result<(), AllocError>
    ensures { OnOk result (string_bytes text.new ≡ string_bytes text.old ++ first_line key.now) }
{
    writeln!(text, "  first lacking attribute: {key}")
}

/// Writes the pairs of this key, with this word before each.
fn describe_pairs(
    word: &str,
    key: &str,
    attributes: &AttributeSet,
    text: &mut String,
) -> Result<(), AllocError>
    ensures { OnOk result (string_bytes text.new
        ≡ string_bytes text.old ++ pair_lines word.now key.now attributes.now) }
{
    for pair in attributes.pairs() {
        describe_pair(word, key, pair, text)?;
    }
    Ok(())
}

/// Writes the pair if it has this key, with this word before it.
fn describe_pair(
    word: &str,
    key: &str,
    pair: &Attribute,
    text: &mut String,
) -> Result<(), AllocError>
    ensures { OnOk result (string_bytes text.new ≡ string_bytes text.old ++ pair_line word.now key.now pair.now) }
{
    if pair.key() != key {
        return Ok(());
    }
    let value = pair.value();
    writeln!(text, "  {word} attribute {key}:{value}")
}
