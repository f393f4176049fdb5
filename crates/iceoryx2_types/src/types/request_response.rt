//! The headers of a request and of a response.

ghost use Rattle.std.specs.Prelude.{codes, refl};
ghost use Rattle.std.proofs.Common.{lit≤};
ghost use Rattle.iceoryx2_types.specs.Alignments.{eight};
ghost use Rattle.iceoryx2_types.specs.Types.{fixed_size};

use super::{TypeVariant, ZeroCopySend};

/// A request's header: 32 bytes.
#[derive(Clone, Copy, Debug, PartialEq, Eq)]
pub struct RequestHeader {
    words: [u64; 4],
}

/// A response's header: 32 bytes.
#[derive(Clone, Copy, Debug, PartialEq, Eq)]
pub struct ResponseHeader {
    words: [u64; 4],
}

impl ZeroCopySend for RequestHeader {
    ghost detail = { fixed_size (codes "request_response::RequestHeader") 32 8 };

    ghost has_name_length = { (lit≤ tt, lit≤ tt) };

    ghost is_aligned = { eight };

    ghost fills_its_place = { (4, refl) };

    fn variant() -> TypeVariant {
        TypeVariant::FixedSize
    }

    fn type_name() -> &'static str {
        "request_response::RequestHeader"
    }

    fn size() -> u64 {
        32
    }

    fn alignment() -> u64 {
        8
    }
}

impl ZeroCopySend for ResponseHeader {
    ghost detail = { fixed_size (codes "request_response::ResponseHeader") 32 8 };

    ghost has_name_length = { (lit≤ tt, lit≤ tt) };

    ghost is_aligned = { eight };

    ghost fills_its_place = { (4, refl) };

    fn variant() -> TypeVariant {
        TypeVariant::FixedSize
    }

    fn type_name() -> &'static str {
        "request_response::ResponseHeader"
    }

    fn size() -> u64 {
        32
    }

    fn alignment() -> u64 {
        8
    }
}
