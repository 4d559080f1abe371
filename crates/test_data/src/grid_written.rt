//! Bundles that are written as TextGrids, with the texts that their layout gives, and what these give when they are read.
ghost use Rattle.std.specs.Prelude.{◌≤◌};
ghost use Rattle.bundle_state.specs.Built.{FitsConfig};

use crate::annot_printing::{annot_of, bundle_of, config_of};
use crate::compared::{same, same_start};
use crate::grid_told::told;
use bundle_state::Bundle;
use db_config::Config;
use grid_writing::{WriteFault, write_textgrid};
use level_items::Annot;
use std::alloc::{AllocError, Global};
use std::process::Abort;
use std::test::Fail;

/// A configuration, an annotation of it, the TextGrid of its bundle, and what that gives at the bundle's rate.
type Row = (&'static str, &'static str, u32, &'static str, &'static str);

static ROWS: [Row; 5] = [
    // a filler before the first segment
    (
        r#"{"name":"t","levelDefinitions":[{"name":"Phonetic","type":"SEGMENT","attributeDefinitions":[{"name":"Phonetic"}]}]}"#,
        r#"{"sampleRate":20000,"levels":[{"name":"Phonetic","type":"SEGMENT","items":[{"id":1,"sampleStart":3749,"sampleDur":1389,"labels":[{"name":"Phonetic","value":"V"}]},{"id":2,"sampleStart":5139,"sampleDur":1664,"labels":[{"name":"Phonetic","value":"m"}]}]}]}"#,
        20000,
        "File type = \"ooTextFile\"\nObject class = \"TextGrid\"\n\nxmin = 0.00000000\nxmax = 0.34020000\ntiers? <exists>\nsize = 1\nitem []:\n    item [1]:\n        class = \"IntervalTier\"\n        name = \"Phonetic\"\n        xmin = 0.00000000\n        xmax = 0.34020000\n        intervals: size = 3\n        intervals [1]:\n            xmin = 0.00000000\n            xmax = 0.18745000\n            text = \"\"\n        intervals [2]:\n            xmin = 0.18745000\n            xmax = 0.25695000\n            text = \"V\"\n        intervals [3]:\n            xmin = 0.25695000\n            xmax = 0.34020000\n            text = \"m\"\n",
        "20000/Phonetic SEGMENT 1:0+3748: 2:3749+1389:V 3:5139+1664:m",
    ),
    // no item: the grid has one sample
    (
        r#"{"name":"t","levelDefinitions":[{"name":"Phonetic","type":"SEGMENT","attributeDefinitions":[{"name":"Phonetic"}]}]}"#,
        r#"{"sampleRate":1000000}"#,
        1000000,
        "File type = \"ooTextFile\"\nObject class = \"TextGrid\"\n\nxmin = 0.00000000\nxmax = 0.00000100\ntiers? <exists>\nsize = 1\nitem []:\n    item [1]:\n        class = \"IntervalTier\"\n        name = \"Phonetic\"\n        xmin = 0.00000000\n        xmax = 0.00000100\n        intervals: size = 1\n        intervals [1]:\n            xmin = 0.00000000\n            xmax = 0.00000100\n            text = \"\"\n",
        "1000000/Phonetic SEGMENT 1:0+0:",
    ),
    // no level with times
    (
        r#"{"name":"t","levelDefinitions":[{"name":"Word","type":"ITEM","attributeDefinitions":[{"name":"Word"}]}]}"#,
        r#"{"sampleRate":1,"levels":[{"name":"Word","type":"ITEM","items":[{"id":1}]}]}"#,
        1,
        "File type = \"ooTextFile\"\nObject class = \"TextGrid\"\n\nxmin = 0.00000000\nxmax = 1.00000000\ntiers? <exists>\nsize = 0\nitem []:\n",
        "1",
    ),
    // quotes; the first of two attributes; a point past the last segment, and a gap between two
    (
        r#"{"name":"t","levelDefinitions":[{"name":"a \"b\"","type":"SEGMENT","attributeDefinitions":[{"name":"x"},{"name":"y"}]},{"name":"Word","type":"ITEM","attributeDefinitions":[{"name":"Word"}]},{"name":"Tone","type":"EVENT","attributeDefinitions":[{"name":"Tone"}]}]}"#,
        r#"{"sampleRate":4,"levels":[{"name":"a \"b\"","type":"SEGMENT","items":[{"id":1,"sampleStart":0,"sampleDur":1,"labels":[{"name":"x","value":"say \"a\""},{"name":"y","value":"z"}]},{"id":2,"sampleStart":3,"sampleDur":0}]},{"name":"Word","type":"ITEM","items":[{"id":9}]},{"name":"Tone","type":"EVENT","items":[{"id":5,"samplePoint":0,"labels":[{"name":"Tone","value":"H*"}]},{"id":4,"samplePoint":5}]}]}"#,
        4,
        "File type = \"ooTextFile\"\nObject class = \"TextGrid\"\n\nxmin = 0.00000000\nxmax = 1.50000000\ntiers? <exists>\nsize = 2\nitem []:\n    item [1]:\n        class = \"IntervalTier\"\n        name = \"a \"\"b\"\"\"\n        xmin = 0.00000000\n        xmax = 1.50000000\n        intervals: size = 4\n        intervals [1]:\n            xmin = 0.00000000\n            xmax = 0.50000000\n            text = \"say \"\"a\"\"\"\n        intervals [2]:\n            xmin = 0.50000000\n            xmax = 0.75000000\n            text = \"\"\n        intervals [3]:\n            xmin = 0.75000000\n            xmax = 1.00000000\n            text = \"\"\n        intervals [4]:\n            xmin = 1.00000000\n            xmax = 1.50000000\n            text = \"\"\n    item [2]:\n        class = \"TextTier\"\n        name = \"Tone\"\n        xmin = 0.00000000\n        xmax = 1.50000000\n        points: size = 2\n        points [1]:\n            number = 0.00000000\n            mark = \"H*\"\n        points [2]:\n            number = 1.25000000\n            mark = \"\"\n",
        "4/a \"b\" SEGMENT 1:0+1:say \"a\" 2:2+0: 3:3+0: 4:4+1:/Tone EVENT 5:0:H* 6:5:",
    ),
    // the last sample that an item may have
    (
        r#"{"name":"t","levelDefinitions":[{"name":"Tone","type":"EVENT","attributeDefinitions":[{"name":"Tone"}]}]}"#,
        r#"{"sampleRate":3,"levels":[{"name":"Tone","type":"EVENT","items":[{"id":1,"samplePoint":1099511627775}]}]}"#,
        3,
        "File type = \"ooTextFile\"\nObject class = \"TextGrid\"\n\nxmin = 0.00000000\nxmax = 366503875925.33333333\ntiers? <exists>\nsize = 1\nitem []:\n    item [1]:\n        class = \"TextTier\"\n        name = \"Tone\"\n        xmin = 0.00000000\n        xmax = 366503875925.33333333\n        points: size = 1\n        points [1]:\n            number = 366503875925.00000000\n            mark = \"\"\n",
        "3/Tone EVENT 1:1099511627775:",
    ),
];

/// What writing a bundle answers: the text, or the fault as a text.
fn written(alloc: Global, config: &Config, bundle: &Bundle) -> Result<String, AllocError>
    requires { FitsConfig config.now bundle.now }
{
    match write_textgrid(alloc, config, bundle) {
        Ok(text) => String::from_str(alloc, text.as_str()),
        Err(WriteFault::TooManyEntries(name)) => format!(in alloc; "too many entries: {name}"),
        Err(WriteFault::Memory) => String::from_str(alloc, "out of memory"),
    }
}

/// What writing the bundle of an annotation answers.
fn bundle_written(alloc: Global, config: &Config, annot: &Annot) -> Result<String, Fail> {
    let bundle = bundle_of(alloc, config, annot)?;
    let text = written(alloc, config, &bundle);
    drop(bundle);
    Ok(text?)
}

/// What writing the bundle of the annotation of a text answers.
fn annot_written(alloc: Global, config: &Config, annot: &str) -> Result<String, Fail> {
    let annot = annot_of(alloc, annot)?;
    let text = bundle_written(alloc, config, &annot);
    drop(annot);
    text
}

/// What writing the bundle of a configuration and an annotation answers, which are given as texts.
fn written_of(alloc: Global, config: &str, annot: &str) -> Result<String, Fail> {
    let config = config_of(alloc, config)?;
    let text = annot_written(alloc, &config, annot);
    drop(config);
    text
}

/// Writes the bundle of a row and reads it again, and compares.
fn expect_row(rt: &impl Abort, alloc: Global, row: &Row) -> Result<(), Fail> {
    let &(config, annot, rate, wanted, again) = row;
    assert!(rt; 1 <= rate && rate <= 1_000_000);
    let text = written_of(alloc, config, annot)?;
    let read = told(alloc, rate, text.as_bytes())?;
    same(rt, text.as_str(), wanted);
    same(rt, read.as_str(), again);
    Ok(())
}

#[test]
fn bundles_are_written(rt: HostRuntime) -> Result<(), Fail> {
    for row in &ROWS {
        expect_row(&rt, rt.alloc(), row)?;
    }
    Ok(())
}

/// An annotation with so many segments of one sample, and a sample that none holds before each.
fn segments_apart(alloc: Global, count: u64) -> Result<String, AllocError>
    requires { count ≤ 65536 }
{
    let mut text = String::from_str(
        alloc,
        r#"{"sampleRate":16000,"levels":[{"name":"Phonetic","type":"SEGMENT","items":["#,
    )?;
    for item in 0..count {
        let comma = if item == 0 { "" } else { "," };
        let id = item + 1;
        let start = 2 * item + 1;
        let one = format!(in alloc;
            "{comma}{{\"id\":{id},\"sampleStart\":{start},\"sampleDur\":0}}"
        )?;
        text.push_str(one.as_str())?;
    }
    text.push_str("]}]}")?;
    Ok(text)
}

/// How many segments a level has, and what writing it begins with: two entries for each.
static CROWDS: [(u64, &str); 2] = [(32768, "File type"), (32769, "too many entries: Phonetic")];

#[test]
fn crowded_tiers_are_refused(rt: HostRuntime) -> Result<(), Fail> {
    for &(count, wanted) in &CROWDS {
        assert!(&rt; count <= 65_536);
        let annot = segments_apart(rt.alloc(), count)?;
        let text = written_of(rt.alloc(), ROWS[1].0, annot.as_str())?;
        same_start(&rt, text.as_str(), wanted);
    }
    Ok(())
}
