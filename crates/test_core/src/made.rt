//! A configuration, keys and annotations of it, and rows.
use config_json::read_config;
use db_config::Config;
use edit_rules::{Edit, Edits};
use emu_names::{BundleKey, ItemId, LevelKind, Memory, Name, NameFault, Series, Text};
use eql_rows::Row;
use json_view::View;
use level_items::{Annot, AnnotItem, AnnotLevel, Time};
use serde_json::Value;
use std::alloc::Global;
use std::test::Fail;

/// Items Word, with one attribute of the level's name.
static DATABASE: &str =
    r#"{"name":"t","levelDefinitions":[{"name":"Word","type":"ITEM","attributeDefinitions":[{"name":"Word"}]}]}"#;

/// The configuration of a JSON value.
fn config_of(alloc: Global, value: &Value) -> Result<Config, Fail> {
    let view = View::root(alloc, value)?;
    Ok(read_config(alloc, &view)?)
}

/// The configuration with the level Word.
pub fn config(alloc: Global) -> Result<Config, Fail> {
    let value = Value::from_str(alloc, DATABASE)?;
    let config = config_of(alloc, &value);
    drop(value);
    config
}

/// The key of a bundle.
pub fn key(alloc: Global, session: &str, bundle: &str) -> Result<BundleKey, NameFault> {
    let session = Name::new(alloc, session)?;
    let bundle = Name::new(alloc, bundle)?;
    Ok(BundleKey { session, bundle })
}

/// Items without labels, with the ids from 0 on.
fn items(alloc: Global, count: u32) -> Result<Vec<AnnotItem>, Memory> {
    let mut items = Vec::new(alloc);
    for id in 0..count {
        items.push(AnnotItem {
            id: ItemId(id),
            time: Time::NoTime,
            labels: Series::new(alloc),
        })?;
    }
    Ok(items)
}

/// So many words without labels, with the ids from 0 on.
fn words(alloc: Global, count: u32) -> Result<Annot, Memory> {
    let name = Text::new(alloc, "Word")?;
    let annotates = Text::new(alloc, "b1.wav")?;
    let level = AnnotLevel {
        name,
        kind: LevelKind::Item,
        items: Series::from_vec(items(alloc, count)?),
    };
    Ok(Annot {
        annotates,
        rate: 20000,
        levels: Series::from_vec(vec![in alloc; level]?),
        links: Series::new(alloc),
    })
}

/// The list of the edit that adds a bundle of so many words.
pub fn adding(alloc: Global, count: u32) -> Result<Edits, Fail> {
    let key = key(alloc, "s1", "b1")?;
    let annot = words(alloc, count)?;
    Ok(Edits::one(alloc, Edit::AddBundle { key, annot })?)
}

/// The row of one item of a level `Phonetic`.
pub fn row(alloc: Global, session: &str, bundle: &str, labels: &str) -> Result<Row, Memory> {
    let session = Text::new(alloc, session)?;
    let bundle = Text::new(alloc, bundle)?;
    let level = Text::new(alloc, "Phonetic")?;
    let attribute = Text::new(alloc, "Phonetic")?;
    let labels = Text::new(alloc, labels)?;
    Ok(Row {
        session,
        bundle,
        level,
        attribute,
        labels,
        start: Some(256_925),
        end: Some(340_175),
        sample_start: Some(5_139),
        sample_end: Some(6_803),
        rate: 20_000,
        start_item: ItemId(2),
        end_item: ItemId(2),
        start_pos: 1,
        end_pos: 1,
    })
}
