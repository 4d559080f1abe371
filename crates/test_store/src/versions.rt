//! 10,000 bundles that are put in and taken out in three orders; a configuration that gets a level.
ghost use Rattle.std.specs.Prelude.{◌≡◌, IfOk};
ghost use Rattle.bundle_state.specs.Built.{FitsConfig};

use crate::compared::same;
use bundle_index::Indexed;
use bundle_state::Bundle;
use config_json::read_config;
use db_config::{Config, LevelDef};
use emu_names::{BundleKey, Fault, Memory, Name, NameFault, Series, Text};
use json_view::View;
use level_items::Annot;
use serde_json::Value;
use std::alloc::Global;
use std::process::Abort;
use std::test::Fail;
use version_tree::Version;

static DATABASE: &str =
    r#"{"name":"t","levelDefinitions":[{"name":"Word","type":"ITEM","attributeDefinitions":[{"name":"Word"}]}]}"#;

/// The same, with a level more.
static WIDER: &str =
    r#"{"name":"t","levelDefinitions":[{"name":"Word","type":"ITEM","attributeDefinitions":[{"name":"Word"}]},{"name":"Tone","type":"EVENT","attributeDefinitions":[{"name":"Tone"}]}]}"#;

/// How many bundles there are.
const COUNT: u32 = 10_000;

/// Steps by which the numbers of bundles are gone through: upwards, downwards, and to and fro.
static STEPS: [u32; 3] = [1, 9_999, 7_001];

/// The configuration of a value.
fn config_of_value(alloc: Global, value: &Value) -> Result<Config, Fail> {
    let view = View::root(alloc, value)?;
    Ok(read_config(alloc, &view)?)
}

/// The configuration of a text.
fn config_of_text(alloc: Global, text: &str) -> Result<Config, Fail> {
    let value = Value::from_str(alloc, text)?;
    config_of_value(alloc, &value)
}

/// The configuration of the database.
fn config_of(alloc: Global) -> Result<Config, Fail> {
    config_of_text(alloc, DATABASE)
}

/// The name of a session.
fn session_of(alloc: Global, number: u32) -> Result<Name, NameFault> {
    let session = format!(in alloc; "s{:02}", number / 500)?;
    Name::new(alloc, session.as_str())
}

/// The name of a bundle.
fn bundle_of(alloc: Global, number: u32) -> Result<Name, NameFault> {
    let bundle = format!(in alloc; "b{number:05}")?;
    Name::new(alloc, bundle.as_str())
}

/// The key of a bundle, whose keys rise as the numbers do.
fn key_of(alloc: Global, number: u32) -> Result<BundleKey, NameFault> {
    Ok(BundleKey {
        session: session_of(alloc, number)?,
        bundle: bundle_of(alloc, number)?,
    })
}

/// An annotation without items.
fn annot_of(alloc: Global) -> Result<Annot, Memory> {
    Ok(Annot {
        annotates: Text::new(alloc, "")?,
        rate: 20_000,
        levels: Series::new(alloc),
        links: Series::new(alloc),
    })
}

/// The bundle of an annotation.
#[tactic(auto, using(bundle_state::proofs::Calling::fits_built))]
fn built(alloc: Global, config: &Config, key: BundleKey, annot: &Annot) -> Result<Bundle, Fault>
    ensures { IfOk result (λ bundle. FitsConfig config.now bundle) }
{
    Bundle::build(alloc, config, key, annot)
}

/// The bundle of a number, with an annotation.
fn bundle_with(alloc: Global, config: &Config, number: u32, annot: &Annot) -> Result<Bundle, Fail>
    ensures { IfOk result (λ bundle. FitsConfig config.now bundle) }
{
    let key = key_of(alloc, number)?;
    Ok(built(alloc, config, key, annot)?)
}

/// The bundle of a number.
fn bundle_numbered(alloc: Global, config: &Config, number: u32) -> Result<Bundle, Fail>
    ensures { IfOk result (λ bundle. FitsConfig config.now bundle) }
{
    let annot = annot_of(alloc)?;
    let bundle = bundle_with(alloc, config, number, &annot);
    drop(annot);
    bundle
}

/// The bundle of a number, with its columns.
fn indexed(alloc: Global, config: &Config, number: u32) -> Result<Indexed, Fail>
    ensures { IfOk result (λ made. FitsConfig config.now made.bundle) }
{
    let bundle = bundle_numbered(alloc, config, number)?;
    Ok(Indexed::new(alloc, bundle)?)
}

/// The version without a bundle, where it is there.
fn without(alloc: Global, version: &Version, key: &BundleKey) -> Result<Version, Memory> {
    match version.get(key) {
        Some(_) => version.without(alloc, key),
        None => version.copy(alloc),
    }
}

/// The name of the bundle at a place.
fn name_at(version: &Version, place: usize) -> Option<&str> {
    if place < version.len() {
        Some(version.at(place).bundle().key().bundle.as_str())
    } else {
        None
    }
}

/// Checks that a bundle stands at a place, and is found.
fn check_at(rt: &impl Abort, version: &Version, place: usize, key: &BundleKey) {
    let found = (name_at(version, place), version.get(key).is_some());
    same(rt, found, (Some(key.bundle.as_str()), true));
}

/// Checks that the bundle of a number stands at a place, and is found.
fn check_number(
    rt: &impl Abort,
    alloc: Global,
    version: &Version,
    place: usize,
    number: u32,
) -> Result<(), NameFault> {
    let key = key_of(alloc, number)?;
    check_at(rt, version, place, &key);
    drop(key);
    Ok(())
}

/// Checks that just the bundles from a number on stand in order.
fn check(rt: &impl Abort, alloc: Global, version: &Version, first: u32) -> Result<(), NameFault> {
    same(rt, version.len(), (COUNT - first.min(COUNT)) as usize);
    let mut number = first;
    for place in 0..version.len() {
        check_number(rt, alloc, version, place, number)?;
        number = number.saturating_add(1);
    }
    Ok(())
}

/// The version with the bundle of a number, where there is room.
fn with_number(alloc: Global, version: &Version, number: u32) -> Result<Version, Fail> {
    if version.len() >= COUNT as usize {
        return Ok(version.copy(alloc)?);
    }
    let next = indexed(alloc, version.config(), number)?;
    Ok(version.with(alloc, next)?)
}

/// The version with the bundle of a number, where there is room, in the place of the one before.
fn put_number(alloc: Global, version: Version, number: u32) -> Result<Version, Fail> {
    let next = with_number(alloc, &version, number);
    drop(version);
    next
}

/// A version with all bundles, put in by steps.
fn filled(alloc: Global, step: u32) -> Result<Version, Fail> {
    let mut version = empty(alloc)?;
    let mut number = 0;
    for _bundle in 0..COUNT {
        version = put_number(alloc, version, number)?;
        number = number.saturating_add(step) % COUNT;
    }
    Ok(version)
}

/// A version without bundles.
fn empty(alloc: Global) -> Result<Version, Fail> {
    Ok(Version::new(alloc, config_of(alloc)?)?)
}

/// The version without the bundle of a number, where it is there.
fn without_number(alloc: Global, version: &Version, number: u32) -> Result<Version, Fail> {
    let key = key_of(alloc, number)?;
    let left = without(alloc, version, &key);
    drop(key);
    Ok(left?)
}

/// The version without the bundle of a number below a limit, in the place of the one before.
fn take_number(alloc: Global, version: Version, number: u32, limit: u32) -> Result<Version, Fail> {
    if number >= limit {
        return Ok(version);
    }
    let left = without_number(alloc, &version, number);
    drop(version);
    left
}

/// A version without the bundles below a limit, taken out by steps.
fn emptied(alloc: Global, version: &Version, step: u32, limit: u32) -> Result<Version, Fail> {
    let mut left = version.copy(alloc)?;
    let mut number = 0;
    for _bundle in 0..COUNT {
        left = take_number(alloc, left, number, limit)?;
        number = number.saturating_add(step) % COUNT;
    }
    Ok(left)
}

/// How many bundles are left when all are taken out of a version.
fn left_of(alloc: Global, version: &Version, step: u32) -> Result<usize, Fail> {
    let left = emptied(alloc, version, step, COUNT)?;
    let count = left.len();
    drop(left);
    Ok(count)
}

/// Checks the half of the bundles that is left, and takes it out too.
fn expect_half(rt: &impl Abort, alloc: Global, half: &Version, step: u32) -> Result<(), Fail> {
    check(rt, alloc, half, 5_000)?;
    let left = left_of(alloc, half, step)?;
    same(rt, left, 0);
    Ok(())
}

/// Takes the bundles out of a version, first one half, and checks what is left.
fn expect_emptied(rt: &impl Abort, alloc: Global, full: &Version, step: u32) -> Result<(), Fail> {
    let half = emptied(alloc, full, step, 5_000)?;
    let compared = expect_half(rt, alloc, &half, step);
    drop(half);
    compared
}

/// Fills a version, and checks it.
fn expect_full(rt: &impl Abort, alloc: Global, step: u32) -> Result<(), Fail> {
    let full = filled(alloc, step)?;
    let compared = expect_kept(rt, alloc, &full, step);
    drop(full);
    compared
}

/// Checks a full version, and once more when the bundles were taken out of its copy.
fn expect_kept(rt: &impl Abort, alloc: Global, full: &Version, step: u32) -> Result<(), Fail> {
    check(rt, alloc, full, 0)?;
    expect_emptied(rt, alloc, full, step)?;
    check(rt, alloc, full, 0)?;
    Ok(())
}

#[test]
fn bundles_come_and_go(rt: HostRuntime) -> Result<(), Fail> {
    for &step in &STEPS {
        expect_full(&rt, rt.alloc(), step)?;
    }
    Ok(())
}

/// The version under its configuration with a level more.
fn with_level(alloc: Global, version: &Version, def: &LevelDef) -> Result<Version, Fail> {
    let config = config_additions::with_level(alloc, version.config(), def)?;
    Ok(version.with_config(alloc, config)?)
}

/// The version with the last level of a configuration more.
fn widened(alloc: Global, version: &Version, wider: &Config) -> Result<Version, Fail> {
    match wider.parts().levels.as_slice().last() {
        Some(def) => with_level(alloc, version, def),
        None => Ok(version.copy(alloc)?),
    }
}

/// How many levels the bundle at a place has.
fn levels_at(version: &Version, place: usize) -> Option<usize> {
    if place < version.len() {
        Some(version.at(place).bundle().level_count())
    } else {
        None
    }
}

/// A version with the bundles of the numbers 0 to 2.
fn three(alloc: Global) -> Result<Version, Fail> {
    let mut version = empty(alloc)?;
    for number in 0..3 {
        version = put_number(alloc, version, number)?;
    }
    Ok(version)
}

/// Checks that each of three bundles has so many levels, and stands at its place.
fn expect_levels(
    rt: &impl Abort,
    alloc: Global,
    version: &Version,
    count: usize,
) -> Result<(), Fail> {
    for number in 0..3 {
        let place = number as usize;
        check_number(rt, alloc, version, place, number)?;
        same(rt, levels_at(version, place), Some(count));
    }
    Ok(())
}

/// Checks the levels and the numbers of a version and of the next one.
fn expect_both(
    rt: &impl Abort,
    alloc: Global,
    version: &Version,
    next: &Version,
) -> Result<(), Fail> {
    expect_levels(rt, alloc, version, 1)?;
    expect_levels(rt, alloc, next, 2)?;
    same(rt, (version.number(), next.number()), (3, 4));
    Ok(())
}

/// Checks a version and the next one, which has the last level of a configuration more.
fn expect_next(
    rt: &impl Abort,
    alloc: Global,
    version: &Version,
    wider: &Config,
) -> Result<(), Fail> {
    let next = widened(alloc, version, wider)?;
    let compared = expect_both(rt, alloc, version, &next);
    drop(next);
    compared
}

/// Checks a version of three bundles and the next one.
fn expect_widened(rt: &impl Abort, alloc: Global, wider: &Config) -> Result<(), Fail> {
    let version = three(alloc)?;
    let compared = expect_next(rt, alloc, &version, wider);
    drop(version);
    compared
}

#[test]
fn levels_come(rt: HostRuntime) -> Result<(), Fail> {
    let wider = config_of_text(rt.alloc(), WIDER)?;
    let compared = expect_widened(&rt, rt.alloc(), &wider);
    drop(wider);
    compared
}
