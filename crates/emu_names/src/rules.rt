//! The rules that an edit may break, and the answer that names the first one.
//!
//! A refusal's rule has a number, which stands at its variant: those of edits here, those of queries,
//! TextGrids, runs and stores (26 to 51 and from 62 on) where these refusals are defined.
ghost use Rattle.std.specs.Prelude.{◌≡◌, IfOk};
ghost use Rattle.emu_names.specs.Rule.{word_of, counted_of};
ghost use Rattle.emu_names.specs.Inner.Rule.{number_of};

use crate::kinds::ItemId;
use crate::shortage::Memory;
use crate::texts::Text;
use std::alloc::{AllocError, AllocFailed, Global};
use thiserror::Error;

/// What has a limit on its number.
#[derive(Clone, Copy, Debug, PartialEq, Eq)]
pub enum What {
    /// The bundles of the database, of which there are at most 10,000.
    Bundles,
    /// The items of one bundle, of which there are at most 65,536.
    BundleItems,
    /// The items of all bundles together, of which there are at most 2,000,000.
    AllItems,
    /// The links of one bundle, of which there are at most 262,144.
    BundleLinks,
    /// The levels of the configuration, of which there are at most 64.
    Levels,
    /// The attributes of a level, of which there are at most 16.
    Attributes,
    /// The link definitions of the configuration, of which there are at most 64.
    LinkDefinitions,
}

impl What {
    /// The same again.
    pub fn copy(&self) -> What
        ensures { result ≡ self.now }
    {
        *self
    }

    /// The word that a reply has for it, as `AllItems`.
    pub fn word(&self) -> &'static str
        ensures { result.now ≡ counted_of self.now }
    {
        match self {
            What::Bundles => "Bundles",
            What::BundleItems => "BundleItems",
            What::AllItems => "AllItems",
            What::BundleLinks => "BundleLinks",
            What::Levels => "Levels",
            What::Attributes => "Attributes",
            What::LinkDefinitions => "LinkDefinitions",
        }
    }
}

/// A rule that an edit breaks, with the name, the id or the counted thing that breaks it.
#[derive(Debug, Drop, PartialEq, Eq)]
pub enum Broken {
    /// Rule 1: a bundle of this key is there already.
    BundleTaken,
    /// Rule 2: no bundle of this key is there.
    NoBundle,
    /// Rule 3: the counted thing would pass its limit.
    TooMany(What),
    /// Rule 4: the sample rate is not 1 to 1,000,000 samples a second.
    RateOut,
    /// Rule 5: no level of the configuration has this name.
    NoLevel(Text),
    /// Rule 6: the level of this name is given twice.
    TwoLevels(Text),
    /// Rule 7: the level of this name is given with another kind than the configuration has.
    LevelKind(Text),
    /// Rule 8: the level has no attribute of this name.
    NoAttribute(Text),
    /// Rule 9: the attribute of this name is given two labels.
    TwoLabels(Text),
    /// Rule 10: a label has over 4,096 bytes.
    LabelTooLong,
    /// Rule 11: a label is neither empty nor among the attribute's legal labels.
    IllegalLabel,
    /// Rule 12: an item of the bundle has this id already.
    IdTaken(ItemId),
    /// Rule 13: no item of the bundle has this id.
    NoItem(ItemId),
    /// Rule 14: a position lies past the level's end, or is given on a level whose items have
    /// times.
    PositionOut,
    /// Rule 15: the time does not have the form that the level's kind asks for.
    TimeKind,
    /// Rule 16: the last sample is 2^40 or more.
    TimeOut,
    /// Rule 17: a segment shares a sample with this neighbour, or lies on its wrong side.
    Overlap(ItemId),
    /// Rule 18: a point does not lie strictly on its side of this neighbour.
    NotRising(ItemId),
    /// Rule 19: no segment follows this one at once, touching it.
    NoNeighbour(ItemId),
    /// Rule 20: the place of a cut or of a boundary is not inside.
    CutOut,
    /// Rule 21: no link definition leads from the level of the first item to that of the second.
    NoLinkDefinition,
    /// Rule 22: the two items are linked already.
    LinkExists,
    /// Rule 23: the two items are not linked.
    NoLink,
    /// Rule 24: the lower item has this parent, and may have one only.
    OneParent(ItemId),
    /// Rule 25: the upper item has this child, and may have one only.
    OneChild(ItemId),
    /// Rule 53: a level or an attribute of the configuration has this name already.
    DoubleName(Text),
    /// Rule 54: a link definition names this level, which the configuration does not have.
    UnknownLevel(Text),
    /// Rule 55: a link definition of the same two levels is there already.
    DoubleLink,
    /// Rule 56: a path of link definitions would lead from a level to itself.
    LevelCycle,
    /// Rule 57: each pair of items that was to be linked is linked already.
    NothingToLink,
}

impl Broken {
    /// The rule's number: 1 to 25, or 53 to 57. The numbers between are those of refusals that are not
    /// by a rule on edits, as of the faults of queries and TextGrids.
    pub fn number(&self) -> u8
        ensures { result ≡ number_of self.now }
    {
        match self {
            Broken::BundleTaken => 1,
            Broken::NoBundle => 2,
            Broken::TooMany(_) => 3,
            Broken::RateOut => 4,
            Broken::NoLevel(_) => 5,
            Broken::TwoLevels(_) => 6,
            Broken::LevelKind(_) => 7,
            Broken::NoAttribute(_) => 8,
            Broken::TwoLabels(_) => 9,
            Broken::LabelTooLong => 10,
            Broken::IllegalLabel => 11,
            Broken::IdTaken(_) => 12,
            Broken::NoItem(_) => 13,
            Broken::PositionOut => 14,
            Broken::TimeKind => 15,
            Broken::TimeOut => 16,
            Broken::Overlap(_) => 17,
            Broken::NotRising(_) => 18,
            Broken::NoNeighbour(_) => 19,
            Broken::CutOut => 20,
            Broken::NoLinkDefinition => 21,
            Broken::LinkExists => 22,
            Broken::NoLink => 23,
            Broken::OneParent(_) => 24,
            Broken::OneChild(_) => 25,
            Broken::DoubleName(_) => 53,
            Broken::UnknownLevel(_) => 54,
            Broken::DoubleLink => 55,
            Broken::LevelCycle => 56,
            Broken::NothingToLink => 57,
        }
    }

    /// The word that a reply has for the rule, as `NoLevel`.
    pub fn word(&self) -> &'static str
        ensures { result.now ≡ word_of self.now }
    {
        match self {
            Broken::BundleTaken => "BundleTaken",
            Broken::NoBundle => "NoBundle",
            Broken::TooMany(_) => "TooMany",
            Broken::RateOut => "RateOut",
            Broken::NoLevel(_) => "NoLevel",
            Broken::TwoLevels(_) => "TwoLevels",
            Broken::LevelKind(_) => "LevelKind",
            Broken::NoAttribute(_) => "NoAttribute",
            Broken::TwoLabels(_) => "TwoLabels",
            Broken::LabelTooLong => "LabelTooLong",
            Broken::IllegalLabel => "IllegalLabel",
            Broken::IdTaken(_) => "IdTaken",
            Broken::NoItem(_) => "NoItem",
            Broken::PositionOut => "PositionOut",
            Broken::TimeKind => "TimeKind",
            Broken::TimeOut => "TimeOut",
            Broken::Overlap(_) => "Overlap",
            Broken::NotRising(_) => "NotRising",
            Broken::NoNeighbour(_) => "NoNeighbour",
            Broken::CutOut => "CutOut",
            Broken::NoLinkDefinition => "NoLinkDefinition",
            Broken::LinkExists => "LinkExists",
            Broken::NoLink => "NoLink",
            Broken::OneParent(_) => "OneParent",
            Broken::OneChild(_) => "OneChild",
            Broken::DoubleName(_) => "DoubleName",
            Broken::UnknownLevel(_) => "UnknownLevel",
            Broken::DoubleLink => "DoubleLink",
            Broken::LevelCycle => "LevelCycle",
            Broken::NothingToLink => "NothingToLink",
        }
    }

    /// The same rule again. The only refusal is want of memory.
    pub fn copy(&self, alloc: Global) -> Result<Broken, Memory>
        ensures { IfOk result (λ made. made ≡ self.now) }
    {
        let made = match self {
            Broken::BundleTaken => Broken::BundleTaken,
            Broken::NoBundle => Broken::NoBundle,
            Broken::TooMany(what) => Broken::TooMany(*what),
            Broken::RateOut => Broken::RateOut,
            Broken::NoLevel(name) => Broken::NoLevel(name.copy(alloc)?),
            Broken::TwoLevels(name) => Broken::TwoLevels(name.copy(alloc)?),
            Broken::LevelKind(name) => Broken::LevelKind(name.copy(alloc)?),
            Broken::NoAttribute(name) => Broken::NoAttribute(name.copy(alloc)?),
            Broken::TwoLabels(name) => Broken::TwoLabels(name.copy(alloc)?),
            Broken::LabelTooLong => Broken::LabelTooLong,
            Broken::IllegalLabel => Broken::IllegalLabel,
            Broken::IdTaken(id) => Broken::IdTaken(*id),
            Broken::NoItem(id) => Broken::NoItem(*id),
            Broken::PositionOut => Broken::PositionOut,
            Broken::TimeKind => Broken::TimeKind,
            Broken::TimeOut => Broken::TimeOut,
            Broken::Overlap(id) => Broken::Overlap(*id),
            Broken::NotRising(id) => Broken::NotRising(*id),
            Broken::NoNeighbour(id) => Broken::NoNeighbour(*id),
            Broken::CutOut => Broken::CutOut,
            Broken::NoLinkDefinition => Broken::NoLinkDefinition,
            Broken::LinkExists => Broken::LinkExists,
            Broken::NoLink => Broken::NoLink,
            Broken::OneParent(id) => Broken::OneParent(*id),
            Broken::OneChild(id) => Broken::OneChild(*id),
            Broken::DoubleName(name) => Broken::DoubleName(name.copy(alloc)?),
            Broken::UnknownLevel(name) => Broken::UnknownLevel(name.copy(alloc)?),
            Broken::DoubleLink => Broken::DoubleLink,
            Broken::LevelCycle => Broken::LevelCycle,
            Broken::NothingToLink => Broken::NothingToLink,
        };
        Ok(made)
    }
}

/// Why an edit is refused.
#[derive(Debug, Drop, PartialEq, Eq, Error)]
pub enum Fault {
    /// The edit breaks this rule.
    #[error("the edit breaks the rule {}", .0.word())]
    Broken(Broken),
    /// Memory ran out.
    #[error("out of memory")]
    Memory,
}

impl Fault {
    /// The same fault again. The only refusal is want of memory.
    pub fn copy(&self, alloc: Global) -> Result<Fault, Memory>
        ensures { IfOk result (λ made. made ≡ self.now) }
    {
        match self {
            Fault::Broken(rule) => Ok(Fault::Broken(rule.copy(alloc)?)),
            Fault::Memory => Ok(Fault::Memory),
        }
    }
}

impl From<Memory> for Fault {
    ghost use Rattle.std.specs.Prelude.{◌≡◌};
    ghost use Rattle.emu_names.specs.declared.rules.Fault.TheVariants.{Memory as OutOfMemory};

    ghost from_gives = { λ _ e. e ≡ OutOfMemory };

    fn from(_error: Memory) -> Fault {
        Fault::Memory
    }
}

impl From<AllocError> for Fault {
    ghost use Rattle.std.specs.Prelude.{◌≡◌};
    ghost use Rattle.emu_names.specs.declared.rules.Fault.TheVariants.{Memory as OutOfMemory};

    ghost from_gives = { λ _ e. e ≡ OutOfMemory };

    fn from(_error: AllocError) -> Fault {
        Fault::Memory
    }
}

impl<T: Drop> From<AllocFailed<T>> for Fault {
    ghost use Rattle.std.specs.Prelude.{◌≡◌};
    ghost use Rattle.emu_names.specs.declared.rules.Fault.TheVariants.{Memory as OutOfMemory};

    ghost from_gives = { λ _ e. e ≡ OutOfMemory };

    fn from(_error: AllocFailed<T>) -> Fault {
        Fault::Memory
    }
}
