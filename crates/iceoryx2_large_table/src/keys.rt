//! Keys that are pairs, each a type of its own, so that a map over them can be a type's parameter.

use iceoryx2_description::description::ServiceHash;
use iceoryx2_world::world::Participant;
use std::marker::Model;

/// A participant with a service: by participant, nodes before peers, and then by hash.
#[derive(Clone, Copy, PartialEq, Eq, PartialOrd, Ord)]
pub struct Seat {
    pub participant: Participant,
    pub hash: ServiceHash,
}

impl Model for Seat {
    ghost use Rattle.iceoryx2_description.specs.declared.description.ServiceHash.{ServiceHash};
    ghost use Rattle.iceoryx2_world.specs.declared.world.Participant.{Participant};

    ghost Value = { Participant × ServiceHash };

    ghost view = { λ s. (s.participant, s.hash) };

    ghost inverse = { λ p. record { participant = p.0; hash = p.1 } };
}

/// A node's tag for a service: by node, and then by hash.
#[derive(Clone, Copy, PartialEq, Eq, PartialOrd, Ord)]
pub struct TagKey {
    pub node: u64,
    pub hash: ServiceHash,
}

impl Model for TagKey {
    ghost use Rattle.std.specs.Prelude.{ℕ};
    ghost use Rattle.iceoryx2_description.specs.declared.description.ServiceHash.{ServiceHash};

    ghost Value = { ℕ × ServiceHash };

    ghost view = { λ t. (t.node, t.hash) };

    ghost inverse = { λ p. record { node = p.0; hash = p.1 } };
}
