//! The kinds of bodies, of edits and of additions to the configuration.
ghost use Rattle.std.specs.Prelude.{◌≡◌, ℕ, List, Option};
ghost use Rattle.edit_code.specs.Kinds.{addition_number, all_additions, all_bodies, all_kinds, body_number, kind_number};
ghost use Rattle.edit_code.specs.Tags.{kind_at};

use crate::tags::Tag;

/// What the body of an entry holds.
#[derive(Clone, Copy)]
pub(crate) enum Body {
    One,
    Several,
    Config,
}

/// What an edit does.
#[derive(Clone, Copy)]
pub(crate) enum Kind {
    AddBundle,
    DropBundle,
    AddItem,
    RemoveItem,
    SetLabel,
    SetSegment,
    MoveBoundary,
    SetPoint,
    Split,
    Merge,
    AddLink,
    RemoveLink,
    LinkTimes,
    PutItem,
    PutLabel,
    PutLink,
}

/// What is added to the configuration.
#[derive(Clone, Copy)]
pub(crate) enum Addition {
    Level,
    Attribute,
    Link,
}

impl Tag for Body {
    ghost kinds = { all_bodies };

    ghost number_of = { body_number };

    fn number(self) -> u8 {
        match self {
            Body::One => 1,
            Body::Several => 2,
            Body::Config => 3,
        }
    }

    #[tactic(auto, using(crate::proofs::KindLaws::no_body))]
    fn at(number: u8) -> Option<Body> {
        match number {
            1 => Some(Body::One),
            2 => Some(Body::Several),
            3 => Some(Body::Config),
            _ => None,
        }
    }
}

impl Tag for Kind {
    ghost kinds = { all_kinds };

    ghost number_of = { kind_number };

    fn number(self) -> u8 {
        match self {
            Kind::AddBundle => 1,
            Kind::DropBundle => 2,
            Kind::AddItem => 3,
            Kind::RemoveItem => 4,
            Kind::SetLabel => 5,
            Kind::SetSegment => 6,
            Kind::MoveBoundary => 7,
            Kind::SetPoint => 8,
            Kind::Split => 9,
            Kind::Merge => 10,
            Kind::AddLink => 11,
            Kind::RemoveLink => 12,
            Kind::LinkTimes => 16,
            Kind::PutItem => 17,
            Kind::PutLabel => 18,
            Kind::PutLink => 19,
        }
    }

    #[tactic(auto, using(crate::proofs::KindLaws::no_kind))]
    fn at(number: u8) -> Option<Kind> {
        match number {
            1 => Some(Kind::AddBundle),
            2 => Some(Kind::DropBundle),
            3 => Some(Kind::AddItem),
            4 => Some(Kind::RemoveItem),
            5 => Some(Kind::SetLabel),
            6 => Some(Kind::SetSegment),
            7 => Some(Kind::MoveBoundary),
            8 => Some(Kind::SetPoint),
            9 => Some(Kind::Split),
            10 => Some(Kind::Merge),
            11 => Some(Kind::AddLink),
            12 => Some(Kind::RemoveLink),
            16 => Some(Kind::LinkTimes),
            17 => Some(Kind::PutItem),
            18 => Some(Kind::PutLabel),
            19 => Some(Kind::PutLink),
            _ => None,
        }
    }
}

impl Tag for Addition {
    ghost kinds = { all_additions };

    ghost number_of = { addition_number };

    fn number(self) -> u8 {
        match self {
            Addition::Level => 13,
            Addition::Attribute => 14,
            Addition::Link => 15,
        }
    }

    #[tactic(auto, using(crate::proofs::KindLaws::no_addition))]
    fn at(number: u8) -> Option<Addition> {
        match number {
            13 => Some(Addition::Level),
            14 => Some(Addition::Attribute),
            15 => Some(Addition::Link),
            _ => None,
        }
    }
}
