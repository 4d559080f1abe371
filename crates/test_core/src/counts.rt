//! What no clause says: that edits of the greatest sizes succeed where memory is ample.
use crate::made::{adding, config};
use db_config::Config;
use edit_rules::{Breach, ChangeFault, Counts, Edits, change};
use emu_names::Broken;
use std::alloc::Global;
use std::process::Abort;
use std::test::Fail;

/// What ends an edit, in a word; `none` where it is taken.
fn word<T>(ended: &Result<T, ChangeFault>) -> &'static str {
    match ended {
        Ok(_) => "none",
        Err(
            ChangeFault::Broken(
                Breach {
                    rule: Broken::TooMany(what),
                    ..
                },
            ),
        ) => what.word(),
        Err(ChangeFault::Broken(_)) => "another rule",
        Err(ChangeFault::Memory) => "memory",
    }
}

/// What ends a list of edits of a database with so many bundles and items.
fn ended(alloc: Global, config: &Config, counts: Counts, edits: &Edits) -> &'static str {
    let made = change(alloc, config, counts, None, edits);
    let word = word(&made);
    drop(made);
    word
}

/// Adds one bundle of so many words to so many bundles with so many items.
fn added(alloc: Global, config: &Config, counts: Counts, count: u32) -> Result<&'static str, Fail> {
    let edits = adding(alloc, count)?;
    let word = ended(alloc, config, counts, &edits);
    drop(edits);
    Ok(word)
}

/// How many bundles and items there are, how many words the bundle has that is added, and what ends the edit.
static ROWS: [(u32, u32, u32, &str); 6] = [
    (0, 0, 65536, "none"),
    (0, 0, 65537, "BundleItems"),
    (9999, 1_966_080, 33920, "none"),
    (31, 1_966_080, 33921, "AllItems"),
    (9999, 2_000_000, 0, "none"),
    (10000, 0, 0, "Bundles"),
];

/// Adds each of the bundles, and compares.
fn expect_rows<R: Abort>(rt: &R, alloc: Global, config: &Config) -> Result<(), Fail> {
    for &(bundles, items, count, wanted) in &ROWS {
        let text = added(alloc, config, Counts { bundles, items }, count)?;
        assert_eq!(rt; text, wanted, "{bundles} {items} {count}");
    }
    Ok(())
}

#[test]
fn counts_keep_the_limits(rt: HostRuntime) -> Result<(), Fail> {
    let config = config(rt.alloc())?;
    let compared = expect_rows(&rt, rt.alloc(), &config);
    drop(config);
    compared
}
