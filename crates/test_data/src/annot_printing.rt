//! Bundles that are printed, with the texts that their format gives.
ghost use Rattle.std.specs.Prelude.{IfOk};
ghost use Rattle.bundle_state.specs.Built.{FitsConfig};

use crate::compared::same;
use annot_json::{print_annot, read_annot};
use bundle_state::Bundle;
use config_json::read_config;
use db_config::Config;
use emu_names::{BundleKey, Fault, Name, NameFault};
use json_view::View;
use level_items::Annot;
use serde_json::Value;
use std::alloc::Global;
use std::process::Abort;
use std::test::Fail;

/// A configuration, an annotation of it, and the text of the bundle b1 that it makes.
type Row = (&'static str, &'static str, &'static str);

static ROWS: [Row; 3] = [
    (
        r#"{"name":"t","levelDefinitions":[{"name":"Phonetic","type":"SEGMENT","attributeDefinitions":[{"name":"Phonetic","type":"STRING"}]}],"linkDefinitions":[]}"#,
        r#"{"name":"b1","annotates":"b1.wav","sampleRate":20000,"levels":[{"name":"Phonetic","type":"SEGMENT","items":[{"id":1,"sampleStart":3749,"sampleDur":1389,"labels":[{"name":"Phonetic","value":"V"}]},{"id":2,"sampleStart":5139,"sampleDur":1664,"labels":[{"name":"Phonetic","value":"m"}]}]}],"links":[]}"#,
        r#"{"annotates":"b1.wav","levels":[{"items":[{"id":1,"labels":[{"name":"Phonetic","value":"V"}],"sampleDur":1389,"sampleStart":3749},{"id":2,"labels":[{"name":"Phonetic","value":"m"}],"sampleDur":1664,"sampleStart":5139}],"name":"Phonetic","type":"SEGMENT"}],"links":[],"name":"b1","sampleRate":20000}"#,
    ),
    // a link that is given twice is printed once
    (
        r#"{"name":"t","levelDefinitions":[{"name":"Syllable","type":"ITEM","attributeDefinitions":[{"name":"Syllable"}]},{"name":"Phoneme","type":"ITEM","attributeDefinitions":[{"name":"Phoneme"}]}],"linkDefinitions":[{"type":"ONE_TO_MANY","superlevelName":"Syllable","sublevelName":"Phoneme"}]}"#,
        r#"{"sampleRate":1,"levels":[{"name":"Phoneme","type":"ITEM","items":[{"id":2}]},{"name":"Syllable","type":"ITEM","items":[{"id":1,"labels":[{"name":"Syllable","value":"S"}]}]}],"links":[{"fromID":1,"toID":2},{"fromID":1,"toID":2}]}"#,
        r#"{"annotates":"","levels":[{"items":[{"id":1,"labels":[{"name":"Syllable","value":"S"}]}],"name":"Syllable","type":"ITEM"},{"items":[{"id":2,"labels":[{"name":"Phoneme","value":""}]}],"name":"Phoneme","type":"ITEM"}],"links":[{"fromID":1,"toID":2}],"name":"b1","sampleRate":1}"#,
    ),
    // a level that is not given is printed empty
    (
        r#"{"name":"t","levelDefinitions":[{"name":"Tone","type":"EVENT","attributeDefinitions":[{"name":"Tone"}]}]}"#,
        r#"{"sampleRate":1000000}"#,
        r#"{"annotates":"","levels":[{"items":[],"name":"Tone","type":"EVENT"}],"links":[],"name":"b1","sampleRate":1000000}"#,
    ),
];

/// The configuration of a value.
fn config_of_value(alloc: Global, value: &Value) -> Result<Config, Fail> {
    let view = View::root(alloc, value)?;
    Ok(read_config(alloc, &view)?)
}

/// The configuration of a text.
pub(crate) fn config_of(alloc: Global, text: &str) -> Result<Config, Fail> {
    let value = Value::from_str(alloc, text)?;
    config_of_value(alloc, &value)
}

/// The annotation of a value.
fn annot_of_value(alloc: Global, value: &Value) -> Result<Annot, Fail> {
    let view = View::root(alloc, value)?;
    Ok(read_annot(alloc, &view)?)
}

/// The annotation of a text.
pub(crate) fn annot_of(alloc: Global, text: &str) -> Result<Annot, Fail> {
    let value = Value::from_str(alloc, text)?;
    annot_of_value(alloc, &value)
}

/// The key of the bundle b1.
pub(crate) fn key_of(alloc: Global) -> Result<BundleKey, NameFault> {
    Ok(BundleKey {
        session: Name::new(alloc, "s1")?,
        bundle: Name::new(alloc, "b1")?,
    })
}

/// The bundle of an annotation.
#[tactic(auto, using(bundle_state::proofs::Calling::fits_built))]
fn built(alloc: Global, config: &Config, key: BundleKey, annot: &Annot) -> Result<Bundle, Fault>
    ensures { IfOk result (λ bundle. FitsConfig config.now bundle) }
{
    Bundle::build(alloc, config, key, annot)
}

/// The bundle b1 of an annotation.
pub(crate) fn bundle_of(alloc: Global, config: &Config, annot: &Annot) -> Result<Bundle, Fail>
    ensures { IfOk result (λ bundle. FitsConfig config.now bundle) }
{
    let key = key_of(alloc)?;
    Ok(built(alloc, config, key, annot)?)
}

/// Prints a bundle, and compares.
fn expect_text(
    rt: &impl Abort,
    alloc: Global,
    config: &Config,
    bundle: &Bundle,
    wanted: &str,
) -> Result<(), Fail>
    requires { FitsConfig config.now bundle.now }
{
    let text = print_annot(alloc, config, bundle)?;
    same(rt, text.as_str(), wanted);
    Ok(())
}

/// Prints the bundle b1 of an annotation, and compares.
fn expect_bundle(
    rt: &impl Abort,
    alloc: Global,
    config: &Config,
    annot: &Annot,
    wanted: &str,
) -> Result<(), Fail> {
    let bundle = bundle_of(alloc, config, annot)?;
    let compared = expect_text(rt, alloc, config, &bundle, wanted);
    drop(bundle);
    compared
}

/// Prints the bundle b1 of the annotation of a text, and compares.
fn expect_annot(
    rt: &impl Abort,
    alloc: Global,
    config: &Config,
    annot: &str,
    wanted: &str,
) -> Result<(), Fail> {
    let annot = annot_of(alloc, annot)?;
    let compared = expect_bundle(rt, alloc, config, &annot, wanted);
    drop(annot);
    compared
}

/// Prints the bundle of a row, and compares.
fn expect_row(rt: &impl Abort, alloc: Global, row: &Row) -> Result<(), Fail> {
    let &(config, annot, wanted) = row;
    let config = config_of(alloc, config)?;
    let compared = expect_annot(rt, alloc, &config, annot, wanted);
    drop(config);
    compared
}

#[test]
fn bundles_are_printed(rt: HostRuntime) -> Result<(), Fail> {
    for row in &ROWS {
        expect_row(&rt, rt.alloc(), row)?;
    }
    Ok(())
}
