//! Queries with what they ask of a database, or with why they cannot be asked.

use crate::made::{config_of, prepared_of};
use db_config::Config;
use emu_names::{Memory, Text};
use eql_resolve::{AskFault, Asked, Prepared, resolve};
use std::alloc::{AllocError, Global};
use std::process::Abort;
use std::test::Fail;

/// ITEM levels Word, Foot and Syl; below Word the SEGMENT levels Phonetic and Gesture and the EVENT
/// level Tone, below Foot the level Syl, and below that Phonetic.
static DATABASE: &str =
    "{\"name\":\"t\",\"levelDefinitions\":[{\"name\":\"Word\",\"type\":\"ITEM\",\"attributeDefinitions\":[{\"name\":\"Text\"},{\"name\":\"Accent\"},{\"name\":\"Word\"}]},{\"name\":\"Phonetic\",\"type\":\"SEGMENT\",\"attributeDefinitions\":[{\"name\":\"Phonetic\"}]},{\"name\":\"Gesture\",\"type\":\"SEGMENT\",\"attributeDefinitions\":[{\"name\":\"Gesture\"}]},{\"name\":\"Tone\",\"type\":\"EVENT\",\"attributeDefinitions\":[{\"name\":\"Pitch\"}]},{\"name\":\"Foot\",\"type\":\"ITEM\",\"attributeDefinitions\":[{\"name\":\"Foot\"}]},{\"name\":\"Syl\",\"type\":\"ITEM\",\"attributeDefinitions\":[{\"name\":\"Syl\"}]}],\"linkDefinitions\":[{\"type\":\"ONE_TO_MANY\",\"superlevelName\":\"Word\",\"sublevelName\":\"Phonetic\"},{\"type\":\"ONE_TO_MANY\",\"superlevelName\":\"Word\",\"sublevelName\":\"Gesture\"},{\"type\":\"ONE_TO_MANY\",\"superlevelName\":\"Gesture\",\"sublevelName\":\"Tone\"},{\"type\":\"ONE_TO_MANY\",\"superlevelName\":\"Foot\",\"sublevelName\":\"Syl\"},{\"type\":\"ONE_TO_MANY\",\"superlevelName\":\"Syl\",\"sublevelName\":\"Phonetic\"}]}";

const AMBIGUOUS: &str = "two levels could give the times";

const BAD_TIME: &str = "the level cannot give the times";

const NO_PATH: &str = "no path leads between the levels";

const SEQUENCE: &str = "the parts of a sequence are on two levels";

const MIXED: &str = "the conditions are on two levels";

const NO_NOPE: &str = "there is no level or attribute Nope";

/// A query, the name for the times or nothing, and what is asked: the level of the query, the level and
/// attribute that its results show, and the level of their times; or why it cannot be asked.
type Row = (&'static str, &'static str, &'static str);

static ROWS: [Row; 30] = [
    ("[Word == w]", "", AMBIGUOUS),
    ("[Word == w]", "Phonetic", "0 0/2 1"),
    ("[Word == w]", "Gesture", "0 0/2 2"),
    ("[Word == w]", "Word", BAD_TIME),
    ("[Word == w]", "Text", BAD_TIME),
    ("[Word == w]", "Tone", BAD_TIME),
    ("[Accent == w]", "Phonetic", "0 0/1 1"),
    ("[Foot == w]", "", "4 4/0 1"),
    ("[Tone == w]", "", "3 3/0 -"),
    ("[Tone == w]", "Phonetic", BAD_TIME),
    ("[Phonetic == w]", "", "1 1/0 -"),
    ("[Word == w ^ #Phonetic == a]", "", "0 1/0 -"),
    ("[#Word == w ^ Phonetic == a]", "", AMBIGUOUS),
    ("[Phonetic == w ^ #Word == a]", "", AMBIGUOUS),
    ("[Phonetic == w ^ #Word == a]", "Gesture", "1 0/2 2"),
    ("[Phonetic == w ^ Word == a]", "Gesture", BAD_TIME),
    ("[Foot == w ^ Word == a]", "", NO_PATH),
    ("[Foot == w -> Syl == a]", "", SEQUENCE),
    ("[[Foot == w ^ Syl == a] -> Foot == b]", "", "4 4/0 1"),
    ("Foot == w & Syl == a", "", MIXED),
    ("Foot == w & Nope == a & Syl == b", "", NO_NOPE),
    ("[[Foot == w -> Syl == a] -> Nope == a]", "", SEQUENCE),
    ("[Foot == w -> [Nope == a -> Syl == a]]", "", NO_NOPE),
    ("Start(Foot, Syl) == 1", "", "5 5/0 1"),
    ("Start(Syl, Foot) == 1", "", NO_PATH),
    ("Start(Foot, Foot) == 1", "", NO_PATH),
    ("Num(Foot, Phonetic) >= 3", "", "4 4/0 1"),
    ("Num(Nope, Nada) >= 3", "", NO_NOPE),
    (
        "Medial(Accent, Phonetic) == 0 & #Phonetic == a",
        "",
        "1 1/0 -",
    ),
    ("Start == a", "", "there is no level or attribute Start"),
];

/// What a query asks, as the table says it.
fn told(alloc: Global, asked: &Asked) -> Result<String, AllocError> {
    let level = asked.query().level();
    let shown = asked.query().shown_place();
    match asked.time() {
        Some(time) => format!(in alloc; "{level} {}/{} {time}", shown.level, shown.attribute),
        None => format!(in alloc; "{level} {}/{} -", shown.level, shown.attribute),
    }
}

/// The text of a copy of a fault.
fn fault_told(alloc: Global, fault: &AskFault) -> Result<String, AllocError> {
    match fault.copy(alloc) {
        Ok(copied) => format!(in alloc; "{copied}"),
        Err(_) => Err(AllocError),
    }
}

/// What a prepared query asks of the database, or why it cannot be asked.
fn answer(
    alloc: Global,
    config: &Config,
    prepared: &Prepared,
    time: Option<&Text>,
) -> Result<String, AllocError> {
    match resolve(alloc, config, prepared, time) {
        Ok(asked) => told(alloc, &asked),
        Err(fault) => fault_told(alloc, &fault),
    }
}

/// Asks a prepared query of the database, and compares.
fn expect_answer(
    rt: &impl Abort,
    alloc: Global,
    config: &Config,
    prepared: &Prepared,
    time: Option<&Text>,
    row: &Row,
) -> Result<(), AllocError> {
    let found = answer(alloc, config, prepared, time)?;
    assert_eq!(rt; found.as_str(), row.2, "{}", row.0);
    Ok(())
}

/// Asks a prepared query with the row's name for the times, and compares.
fn expect_row(
    rt: &impl Abort,
    alloc: Global,
    config: &Config,
    prepared: &Prepared,
    row: &Row,
) -> Result<(), Memory> {
    if row.1.is_empty() {
        return Ok(expect_answer(rt, alloc, config, prepared, None, row)?);
    }
    let name = Text::new(alloc, row.1)?;
    Ok(expect_answer(rt, alloc, config, prepared, Some(&name), row)?)
}

/// Prepares the query of a row, asks the database, and compares.
fn check(rt: &impl Abort, alloc: Global, config: &Config, row: &Row) -> Result<(), Fail> {
    let prepared = prepared_of(alloc, row.0)?;
    let expected = expect_row(rt, alloc, config, &prepared, row);
    drop(prepared);
    Ok(expected?)
}

/// Checks the rows of the table.
fn check_all(rt: &impl Abort, alloc: Global, config: &Config) -> Result<(), Fail> {
    for row in &ROWS {
        check(rt, alloc, config, row)?;
    }
    Ok(())
}

#[test]
fn names_are_resolved(rt: HostRuntime) -> Result<(), Fail> {
    let config = config_of(rt.alloc(), DATABASE)?;
    let checked = check_all(&rt, rt.alloc(), &config);
    drop(config);
    checked
}
