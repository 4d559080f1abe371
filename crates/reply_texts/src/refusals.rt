//! What a refusal says, as members that are put into an object.
ghost use Rattle.std.specs.Prelude.{◌≡◌, OnOk};
ghost use Rattle.serde_json.specs.View.{members_view};
ghost use Rattle.reply_texts.specs.Members.{with_all};
ghost use Rattle.reply_texts.specs.Refusals.{ask_members, at_place, at_what, config_members, grid_members, in_tier, of_item, of_name, of_part, of_what, placed, plain, prepare_members, query_members, refusal_members, rule_members, shape_members};

use crate::members::{put_text, put_whole};
use config_json::ConfigFault;
use emu_names::{Broken, ItemId, Memory, Text};
use eql_resolve::{AskFault, PrepareFault};
use eql_syntax::QueryFault;
use json_view::Shape;
use serde_json::{Map, Value};
use session_core::Refusal;
use std::alloc::Global;
use textgrid::GridFault;

/// Puts a word that says no more.
fn put_plain(
    members: &mut Map<String, Value>,
    alloc: Global,
    key: &str,
    word: &str,
) -> Result<(), Memory>
    ensures { OnOk result (members_view members.new.entries
        ≡ with_all (plain key.now word.now) (members_view members.old.entries)) }
{
    put_text(members, alloc, key, word)
}

/// Puts a word with a place, or with the number of a pattern.
fn put_place(
    members: &mut Map<String, Value>,
    alloc: Global,
    key: &str,
    word: &str,
    at: u64,
) -> Result<(), Memory>
    ensures { OnOk result (members_view members.new.entries
        ≡ with_all (at_place key.now word.now at) (members_view members.old.entries)) }
{
    put_text(members, alloc, key, word)?;
    put_whole(members, alloc, "at", at)
}

/// Puts a word with a place and with what is wanted there.
fn put_wanted(
    members: &mut Map<String, Value>,
    alloc: Global,
    key: &str,
    word: &str,
    at: u64,
    what: &str,
) -> Result<(), Memory>
    ensures { OnOk result (members_view members.new.entries
        ≡ with_all (at_what key.now word.now at what.now) (members_view members.old.entries)) }
{
    put_place(members, alloc, key, word, at)?;
    put_text(members, alloc, "what", what)
}

/// Puts a word with a tier of a TextGrid and an entry of it.
fn put_entry(
    members: &mut Map<String, Value>,
    alloc: Global,
    key: &str,
    word: &str,
    tier: u32,
    entry: u32,
) -> Result<(), Memory>
    ensures { OnOk result (members_view members.new.entries
        ≡ with_all (in_tier key.now word.now tier entry) (members_view members.old.entries)) }
{
    put_text(members, alloc, key, word)?;
    put_whole(members, alloc, "tier", tier as u64)?;
    put_whole(members, alloc, "entry", entry as u64)
}

/// Puts a word with an item.
fn put_item(
    members: &mut Map<String, Value>,
    alloc: Global,
    key: &str,
    word: &str,
    id: ItemId,
) -> Result<(), Memory>
    ensures { OnOk result (members_view members.new.entries
        ≡ with_all (of_item key.now word.now id.0) (members_view members.old.entries)) }
{
    put_text(members, alloc, key, word)?;
    put_whole(members, alloc, "id", id.0 as u64)
}

/// Puts a word with a name. The only refusal is want of memory.
pub fn put_name(
    members: &mut Map<String, Value>,
    alloc: Global,
    key: &str,
    word: &str,
    name: &Text,
) -> Result<(), Memory>
    ensures { OnOk result (members_view members.new.entries
        ≡ with_all (of_name key.now word.now name.now) (members_view members.old.entries)) }
{
    put_text(members, alloc, key, word)?;
    put_text(members, alloc, "name", name.as_str())
}

/// Puts a word with what there are too many of.
fn put_what(
    members: &mut Map<String, Value>,
    alloc: Global,
    key: &str,
    word: &str,
    what: &str,
) -> Result<(), Memory>
    ensures { OnOk result (members_view members.new.entries
        ≡ with_all (of_what key.now word.now what.now) (members_view members.old.entries)) }
{
    put_text(members, alloc, key, word)?;
    put_text(members, alloc, "what", what)
}

/// Puts a rule that an edit breaks.
fn put_rule(
    members: &mut Map<String, Value>,
    alloc: Global,
    key: &str,
    broken: &Broken,
) -> Result<(), Memory>
    ensures { OnOk result (members_view members.new.entries
        ≡ with_all (rule_members key.now broken.now) (members_view members.old.entries)) }
{
    let word = broken.word();
    match broken {
        Broken::TooMany(what) => put_what(members, alloc, key, word, what.word()),
        Broken::NoLevel(name)
        | Broken::TwoLevels(name)
        | Broken::LevelKind(name)
        | Broken::NoAttribute(name)
        | Broken::TwoLabels(name)
        | Broken::DoubleName(name)
        | Broken::UnknownLevel(name) => put_name(members, alloc, key, word, name),
        Broken::IdTaken(id)
        | Broken::NoItem(id)
        | Broken::Overlap(id)
        | Broken::NotRising(id)
        | Broken::NoNeighbour(id)
        | Broken::OneParent(id)
        | Broken::OneChild(id) => put_item(members, alloc, key, word, *id),
        Broken::BundleTaken
        | Broken::NoBundle
        | Broken::RateOut
        | Broken::LabelTooLong
        | Broken::IllegalLabel
        | Broken::PositionOut
        | Broken::TimeKind
        | Broken::TimeOut
        | Broken::CutOut
        | Broken::NoLinkDefinition
        | Broken::LinkExists
        | Broken::NoLink
        | Broken::DoubleLink
        | Broken::LevelCycle
        | Broken::NothingToLink => put_plain(members, alloc, key, word),
    }
}

/// Puts a rule that an edit breaks, with the place of the edit where it is told.
fn put_broken(
    members: &mut Map<String, Value>,
    alloc: Global,
    key: &str,
    broken: &Broken,
    place: Option<u32>,
) -> Result<(), Memory>
    ensures { OnOk result (members_view members.new.entries
        ≡ with_all (placed place (rule_members key.now broken.now)) (members_view members.old.entries)) }
{
    match place {
        None => put_rule(members, alloc, key, broken),
        Some(place) => {
            put_whole(members, alloc, "place", place as u64)?;
            put_rule(members, alloc, key, broken)
        }
    }
}

/// Puts the fault of a TextGrid. The only refusal is want of memory.
pub fn put_grid(
    members: &mut Map<String, Value>,
    alloc: Global,
    key: &str,
    fault: GridFault,
) -> Result<(), Memory>
    ensures { OnOk result (members_view members.new.entries
        ≡ with_all (grid_members key.now fault) (members_view members.old.entries)) }
{
    match fault {
        GridFault::BadEncoding(at) => put_place(members, alloc, key, "BadEncoding", at),
        GridFault::BadText(at) => put_place(members, alloc, key, "BadText", at),
        GridFault::TooManyDigits(at) => put_place(members, alloc, key, "TooManyDigits", at),
        GridFault::Expected { at, what } => {
            put_wanted(members, alloc, key, "Expected", at, what.word())
        }
        GridFault::NegativeTime { tier, entry } => {
            put_entry(members, alloc, key, "NegativeTime", tier, entry)
        }
        GridFault::TimeTooLarge { tier, entry } => {
            put_entry(members, alloc, key, "TimeTooLarge", tier, entry)
        }
        GridFault::EmptyInterval { tier, entry } => {
            put_entry(members, alloc, key, "EmptyInterval", tier, entry)
        }
        GridFault::Memory => put_plain(members, alloc, key, "Memory"),
    }
}

/// Puts the fault of a query's text.
fn put_query(
    members: &mut Map<String, Value>,
    alloc: Global,
    key: &str,
    fault: QueryFault,
) -> Result<(), Memory>
    ensures { OnOk result (members_view members.new.entries
        ≡ with_all (query_members key.now fault) (members_view members.old.entries)) }
{
    match fault {
        QueryFault::TextTooLong => put_plain(members, alloc, key, "TextTooLong"),
        QueryFault::Syntax(at) => put_place(members, alloc, key, "Syntax", at as u64),
        QueryFault::TooDeep(at) => put_place(members, alloc, key, "TooDeep", at as u64),
        QueryFault::TwoMarks(at) => put_place(members, alloc, key, "TwoMarks", at as u64),
        QueryFault::Memory => put_plain(members, alloc, key, "Memory"),
    }
}

/// Puts the fault of a query's text or of one of its patterns.
fn put_prepare(
    members: &mut Map<String, Value>,
    alloc: Global,
    key: &str,
    fault: PrepareFault,
) -> Result<(), Memory>
    ensures { OnOk result (members_view members.new.entries
        ≡ with_all (prepare_members key.now fault) (members_view members.old.entries)) }
{
    match fault {
        PrepareFault::Query(fault) => put_query(members, alloc, key, fault),
        PrepareFault::BadPattern(k) => put_place(members, alloc, key, "BadPattern", k as u64),
        PrepareFault::PatternTooLarge(k) => {
            put_place(members, alloc, key, "PatternTooLarge", k as u64)
        }
        PrepareFault::Memory => put_plain(members, alloc, key, "Memory"),
    }
}

/// Puts the fault of a query under a configuration.
fn put_ask(
    members: &mut Map<String, Value>,
    alloc: Global,
    key: &str,
    fault: &AskFault,
) -> Result<(), Memory>
    ensures { OnOk result (members_view members.new.entries
        ≡ with_all (ask_members key.now fault.now) (members_view members.old.entries)) }
{
    match fault {
        AskFault::UnknownName(name) => put_name(members, alloc, key, "UnknownName", name),
        AskFault::MixedLevels => put_plain(members, alloc, key, "MixedLevels"),
        AskFault::SequenceLevels => put_plain(members, alloc, key, "SequenceLevels"),
        AskFault::NoPath => put_plain(members, alloc, key, "NoPath"),
        AskFault::AmbiguousTime => put_plain(members, alloc, key, "AmbiguousTime"),
        AskFault::BadTimeLevel => put_plain(members, alloc, key, "BadTimeLevel"),
        AskFault::Memory => put_plain(members, alloc, key, "Memory"),
    }
}

/// Puts the refusal of a request. The only refusal of its own is want of memory.
pub fn put_refusal(
    members: &mut Map<String, Value>,
    alloc: Global,
    key: &str,
    refusal: &Refusal,
) -> Result<(), Memory>
    ensures { OnOk result (members_view members.new.entries
        ≡ with_all (refusal_members key.now refusal.now) (members_view members.old.entries)) }
{
    match refusal {
        Refusal::Rule { rule, place } => put_broken(members, alloc, key, rule, *place),
        Refusal::Grid(fault) => put_grid(members, alloc, key, *fault),
        Refusal::Prepare(fault) => put_prepare(members, alloc, key, *fault),
        Refusal::Resolve(fault) => put_ask(members, alloc, key, fault),
        Refusal::TooManyTuples => put_plain(members, alloc, key, "TooManyTuples"),
        Refusal::NoLook => put_plain(members, alloc, key, "NoLook"),
        Refusal::LookOpen => put_plain(members, alloc, key, "LookOpen"),
        Refusal::NotAccepted => put_plain(members, alloc, key, "NotAccepted"),
        Refusal::NoInverse => put_plain(members, alloc, key, "NoInverse"),
        Refusal::TooManyEdits => put_plain(members, alloc, key, "TooManyEdits"),
        Refusal::HistoryFull => put_plain(members, alloc, key, "HistoryFull"),
        Refusal::StoreFull => put_plain(members, alloc, key, "StoreFull"),
        Refusal::Disk => put_plain(members, alloc, key, "Disk"),
        Refusal::Memory => put_plain(members, alloc, key, "Memory"),
    }
}

/// Puts a part of another form than was wanted. The only refusal is want of memory.
pub fn put_shape(
    members: &mut Map<String, Value>,
    alloc: Global,
    key: &str,
    shape: &Shape,
) -> Result<(), Memory>
    ensures { OnOk result (members_view members.new.entries
        ≡ with_all (shape_members key.now shape.now) (members_view members.old.entries)) }
{
    put_text(members, alloc, key, "Shape")?;
    put_text(members, alloc, "path", shape.path.as_str())?;
    put_text(members, alloc, "wanted", shape.wanted.word())
}

/// Puts the fault of a configuration. The only refusal of its own is want of memory.
pub fn put_config(
    members: &mut Map<String, Value>,
    alloc: Global,
    key: &str,
    fault: &ConfigFault,
) -> Result<(), Memory>
    ensures { OnOk result (members_view members.new.entries
        ≡ with_all (config_members key.now fault.now) (members_view members.old.entries)) }
{
    match fault {
        ConfigFault::Shape(shape) => put_shape(members, alloc, key, shape),
        ConfigFault::TooMany(what) => put_what(members, alloc, key, "TooMany", what.word()),
        ConfigFault::DoubleName(name) => put_name(members, alloc, key, "DoubleName", name),
        ConfigFault::UnknownLevel(name) => put_name(members, alloc, key, "UnknownLevel", name),
        ConfigFault::DoubleLink => put_plain(members, alloc, key, "DoubleLink"),
        ConfigFault::LevelCycle => put_plain(members, alloc, key, "LevelCycle"),
        ConfigFault::Memory => put_plain(members, alloc, key, "Memory"),
    }
}
