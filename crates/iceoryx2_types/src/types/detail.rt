//! The details of a type.

ghost use Rattle.std.specs.Prelude.{◌≡◌, ◌<◌, ◌^◌, ◌↔◌, Err, IfOk, IsTrue, string_bytes};
ghost use Rattle.iceoryx2_types.specs.Types.{HasNameLength, IsAlignment, IsDetail, IsTypeName};
ghost use Rattle.iceoryx2_types.specs.Types.{Fits, detail_of, fits, same_detail, with_alignment as aligned_as};
ghost use Rattle.iceoryx2_types.specs.Types.{with_variant};

use super::{Alignment, TypeDetailError, TypeVariant, ZeroCopySend, has_name_length};
use std::alloc::{AllocError, Global};
use std::marker::Model;

/// A type's name: 1 to 256 bytes of UTF-8.
#[derive(Debug, Drop)]
struct TypeName {
    text: String,
}

impl Model for TypeName {
    ghost use Rattle.std.specs.Prelude.{List, ℕ, string_bytes};
    ghost use Rattle.iceoryx2_types.specs.Types.{IsTypeName};

    ghost Value = { List ℕ };

    ghost view = { λ name. string_bytes name.text };

    ghost invariant = { λ name. IsTypeName (string_bytes name.text) };
}

impl TypeName {
    /// Returns the text as a name. The text's length is already within the limits.
    fn from_text(text: String) -> TypeName
        requires { IsTypeName (string_bytes text) }
        ensures { result ≡ string_bytes text }
    {
        TypeName { text }
    }

    /// Returns the name as a text.
    fn as_str(&self) -> &str
        ensures value { result.now ≡ self.now }
        ensures limits { IsTypeName self.now }
    {
        &self.text
    }
}

impl PartialEq for TypeName {
    ghost use Rattle.std.specs.Prelude.{bytes_eq};
    ghost use Rattle.std.proofs.Common.{rules};
    ghost use Rattle.std.specs.Cmp.Rules.{comparing};

    ghost eq = { bytes_eq };

    ghost laws = { Prim.search (comparing, rules) };

    fn eq(&self, other: &TypeName) -> bool {
        self.as_str() == other.as_str()
    }
}

impl Eq for TypeName {
    ghost use Rattle.std.proofs.Common.{rules};
    ghost use Rattle.std.specs.Cmp.Rules.{comparing};

    ghost laws = { Prim.search (comparing, rules) };
}

impl Clone for TypeName {
    ghost use Rattle.std.specs.Prelude.{◌≡◌};

    ghost is_clone = { λ name copy. copy ≡ name };

    fn clone(&self) -> Result<TypeName, AllocError> {
        Ok(TypeName {
            text: self.text.clone()?,
        })
    }
}

// What is told of a type, field by field.
#[derive(Debug, Drop)]
struct Fields {
    variant: TypeVariant,
    type_name: TypeName,
    size: u64,
    alignment: Alignment,
}

/// The details of a type: whether a message holds one value or a number of them, and the name, the size
/// and the alignment of one value. The details are in memory of their own, so that a value that holds
/// them stays small.
#[derive(Debug)]
pub struct TypeDetail {
    fields: Box<Fields>,
}

// Written out, so that a proof of what lets one go doesn't take its fields apart.
impl Drop for TypeDetail {
    fn drop(self) {
        let TypeDetail { fields: _ } = self;
    }
}

impl Model for TypeDetail {
    ghost use Rattle.iceoryx2_types.specs.Types.{Detail, IsDetail, detail_of};

    ghost Value = { Detail };

    ghost view = { λ d. detail_of d.fields.value.variant d.fields.value.type_name d.fields.value.size
        d.fields.value.alignment };

    ghost invariant = { λ d. IsDetail (detail_of d.fields.value.variant d.fields.value.type_name d.fields.value.size
        d.fields.value.alignment) };
}

impl TypeDetail {
    /// Returns the details of a type. The size is in bytes, and may be any number. The errors, tested
    /// in this order: `NameLength` if the name does not have 1 to 256 bytes, `Alignment` if the
    /// alignment in bytes is not a power of two, and `OutOfMemory` if there was no memory for a copy of
    /// the name.
    #[tactic(auto, using(crate::proofs::Utf8::is_text))]
    pub fn new(
        alloc: Global,
        variant: TypeVariant,
        type_name: &str,
        size: u64,
        alignment: u64,
    ) -> Result<TypeDetail, TypeDetailError>
        ensures made { IfOk result (λ made. made ≡ detail_of variant type_name.now size alignment) }
        ensures limits { IfOk result (λ made. IsDetail made) }
        ensures name_length { (result ≡ Err TypeDetailError.NameLength)
            ↔ (HasNameLength type_name.now → ⊥) }
        ensures alignment { (result ≡ Err TypeDetailError.Alignment)
            ↔ (HasNameLength type_name.now × (IsAlignment alignment → ⊥)) }
    {
        if !has_name_length(type_name) {
            return Err(TypeDetailError::NameLength);
        }
        let Some(alignment) = Alignment::new(alignment) else {
            return Err(TypeDetailError::Alignment);
        };
        let Ok(text) = String::from_str(alloc, type_name) else {
            return Err(TypeDetailError::OutOfMemory);
        };
        let type_name = TypeName::from_text(text);
        match TypeDetail::from_parts(alloc, variant, type_name, size, alignment) {
            Ok(detail) => Ok(detail),
            Err(_) => Err(TypeDetailError::OutOfMemory),
        }
    }

    /// Returns the details that a type states, of one value or a number of them.
    #[tactic(auto, using(crate::proofs::Utf8::is_text))]
    pub(super) fn from_type<T: ZeroCopySend>(
        alloc: Global,
        variant: TypeVariant,
    ) -> Result<TypeDetail, AllocError>
        ensures { IfOk result (λ made. made ≡ with_variant T.detail variant) }
    {
        let text = String::from_str(alloc, T::type_name())?;
        let alignment = Alignment::of_type::<T>();
        let type_name = TypeName::from_text(text);
        TypeDetail::from_parts(alloc, variant, type_name, T::size(), alignment)
    }

    /// Returns the details with these parts, which are within their limits.
    fn from_parts(
        alloc: Global,
        variant: TypeVariant,
        type_name: TypeName,
        size: u64,
        alignment: Alignment,
    ) -> Result<TypeDetail, AllocError>
        ensures value { IfOk result (λ made. made ≡ detail_of variant type_name size alignment) }
        ensures limits { IfOk result (λ made. IsDetail made) }
    {
        let _name = type_name.as_str();
        let _bytes = alignment.value();
        let fields = Box::new(
            alloc,
            Fields {
                variant,
                type_name,
                size,
                alignment,
            },
        )?;
        Ok(TypeDetail { fields })
    }

    /// Returns whether a message holds one value or a number of them.
    pub fn variant(&self) -> TypeVariant
        ensures value { result ≡ self.now.variant }
        ensures limits { IsDetail self.now }
    {
        self.fields.variant
    }

    /// Returns the type's name, which has 1 to 256 bytes.
    pub fn type_name(&self) -> &str
        ensures value { result.now ≡ self.now.name }
        ensures limits { IsDetail self.now }
    {
        self.fields.type_name.as_str()
    }

    /// Returns the size of one value, in bytes.
    pub fn size(&self) -> u64
        ensures value { result ≡ self.now.size }
        ensures below { result < 2 ^ 64 }
        ensures limits { IsDetail self.now }
    {
        self.fields.size
    }

    /// Returns the alignment in bytes, a power of two.
    pub fn alignment(&self) -> u64
        ensures value { result ≡ self.now.alignment }
        ensures below { result < 2 ^ 64 }
        ensures limits { IsDetail self.now }
    {
        self.fields.alignment.value()
    }

    /// Returns the same type, with at least the alignment that is asked for.
    pub(super) fn with_alignment(self, asked: Option<Alignment>) -> TypeDetail
        ensures value { result ≡ aligned_as self asked }
        ensures limits { IsDetail result }
    {
        let own = self.alignment();
        let Some(asked) = asked else {
            return self;
        };
        if asked.value() <= own {
            return self;
        }
        let TypeDetail { mut fields } = self;
        fields.alignment = asked;
        TypeDetail { fields }
    }

    /// Returns whether both details are the same in all fields.
    pub(super) fn is_same(&self, other: &TypeDetail) -> bool
        ensures exact { IsTrue result ↔ (self.now ≡ other.now) }
        ensures value { result ≡ same_detail self.now other.now }
    {
        self.variant() == other.variant()
            && self.type_name() == other.type_name()
            && self.size() == other.size()
            && self.alignment() == other.alignment()
    }

    /// Returns whether this is the other's type, with at most the other's alignment.
    pub(super) fn fits(&self, other: &TypeDetail) -> bool
        ensures exact { IsTrue result ↔ Fits self.now other.now }
        ensures value { result ≡ fits self.now other.now }
    {
        self.variant() == other.variant()
            && self.type_name() == other.type_name()
            && self.size() == other.size()
            && self.alignment() <= other.alignment()
    }
}

impl PartialEq for TypeDetail {
    ghost use Rattle.std.proofs.Common.{rules};
    ghost use Rattle.std.specs.Cmp.Rules.{comparing};
    ghost use Rattle.iceoryx2_types.specs.Types.{same_detail};

    ghost eq = { same_detail };

    ghost laws = { Prim.search (comparing, rules) };

    fn eq(&self, other: &TypeDetail) -> bool {
        self.is_same(other)
    }
}

impl Eq for TypeDetail {
    ghost use Rattle.std.proofs.Common.{rules};
    ghost use Rattle.std.specs.Cmp.Rules.{comparing};

    ghost laws = { Prim.search (comparing, rules) };
}

impl Clone for TypeDetail {
    ghost use Rattle.std.specs.Prelude.{◌≡◌};

    ghost is_clone = { λ detail copy. copy ≡ detail };

    fn clone(&self) -> Result<TypeDetail, AllocError> {
        let fields = &self.fields;
        TypeDetail::from_parts(
            *Box::allocator(fields),
            fields.variant,
            fields.type_name.clone()?,
            fields.size,
            fields.alignment,
        )
    }
}
