//! The rule of the two copies: each seat that was told a gate was told that of the versions that
//! are shown.
use crate::shown::Shown;
use atomic_table::{Join, Split};
use crossbeam_utils::rule::{Outcome, Protocol};

/// What a seat knows: whether it was told a gate, and the gate's three numbers. No value of it is
/// made.
pub struct Known {
    pub told: bool,
    pub number: u64,
    pub log_name: u64,
    pub cells_name: u64,
}

/// The rule.
pub struct Gates;

impl<T: Drop> Protocol<Shown<T>, Known> for Gates {
    ghost use Rattle.version_gate.specs.Inner.Seats.{Agree, stranger};

    ghost holds = { λ x views. Agree x.gate views };

    ghost first = { stranger };
}

/// A pass enters.
pub struct Enter;

impl<T: Drop> Outcome<Shown<T>, Known> for Enter {
    ghost use Rattle.version_gate.specs.Inner.Seats.{Enters};

    ghost then = { Enters };
}

/// The publisher shows a version.
pub struct Show;

impl<T: Drop> Outcome<Shown<T>, Known> for Show {
    ghost use Rattle.version_gate.specs.Inner.Seats.{Shows};

    ghost then = { Shows };
}

/// The publisher shows the opening, and learns the gate.
pub struct Teach;

impl<T: Drop> Outcome<Shown<T>, Known> for Teach {
    ghost use Rattle.version_gate.specs.Inner.Seats.{Teaches};

    ghost then = { Teaches };
}

/// The publisher hands on what it was told.
pub struct Copies;

impl Split<Known> for Copies {
    ghost left = { λ v. v };

    ghost right = { λ v. v };
}

/// A new pass takes in what the publisher was told.
pub struct Takes;

impl Join<Known> for Takes {
    ghost use Rattle.version_gate.specs.Inner.Seats.{stranger};

    ghost both = { λ v w. w };

    ghost spent = { stranger };
}
