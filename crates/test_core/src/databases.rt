//! What a database answers to an act that is tested, done and tested again, and a copy of it.
use crate::made::{adding, config, key};
use db_config::Config;
use edit_rules::{Act, ChangeFault, Database, Edit, Edits, apply, check};
use std::alloc::Global;
use std::process::Abort;
use std::test::Fail;

/// The act that adds the bundle, with one word.
fn adding_one(alloc: Global) -> Result<Act, Fail> {
    Ok(Act::Edits(adding(alloc, 1)?))
}

/// The act that drops the bundle.
fn dropping(alloc: Global) -> Result<Act, Fail> {
    let key = key(alloc, "s1", "b1")?;
    let edits = Edits::one(alloc, Edit::DropBundle { key })?;
    Ok(Act::Edits(edits))
}

/// The word of an answer.
fn word(answer: &Result<(), ChangeFault>) -> &'static str {
    match answer {
        Ok(()) => "ok",
        Err(ChangeFault::Broken(breach)) => breach.rule.word(),
        Err(ChangeFault::Memory) => "memory",
    }
}

/// Tests an act, does it, and tests it again.
fn expect_act(rt: &impl Abort, alloc: Global, database: &mut Database, act: Act, again: &str) {
    let before = word(&check(alloc, database, &act));
    let done = word(&apply(alloc, database, &act));
    let after = word(&check(alloc, database, &act));
    drop(act);
    assert_eq!(rt; (before, done, after), ("ok", "ok", again));
}

/// Drops the bundle of a database, and compares a copy that was made before.
fn expect_dropped(
    rt: &impl Abort,
    alloc: Global,
    database: &mut Database,
    copied: &Database,
) -> Result<(), Fail> {
    expect_act(rt, alloc, database, dropping(alloc)?, "NoBundle");
    assert_eq!(rt; (copied.len(), database.len()), (1, 0));
    Ok(())
}

/// Adds the bundle to a database, makes a copy, and drops the bundle.
fn expect_acts(rt: &impl Abort, alloc: Global, database: &mut Database) -> Result<(), Fail> {
    expect_act(rt, alloc, database, adding_one(alloc)?, "BundleTaken");
    let copied = database.copy(alloc)?;
    let compared = expect_dropped(rt, alloc, database, &copied);
    drop(copied);
    compared
}

/// A database of a configuration.
fn database_of(alloc: Global, config: Config) -> Result<Database, Fail> {
    Ok(Database::new(alloc, config)?)
}

#[test]
fn acts_on_a_database(rt: HostRuntime) -> Result<(), Fail> {
    let config = config(rt.alloc())?;
    let mut database = database_of(rt.alloc(), config)?;
    let compared = expect_acts(&rt, rt.alloc(), &mut database);
    drop(database);
    compared
}
