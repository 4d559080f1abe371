//! The items of a level and of a result, and their labels.
ghost use Rattle.std.specs.Prelude.{◌≡◌, ◌<◌, ◌++◌, length, IfOk, OnOk, string_bytes};
ghost use Rattle.level_items.specs.Levels.{items_at, label_of};
ghost use Rattle.eql_rows.specs.Spans.{IsStretchIn};
ghost use Rattle.eql_rows.specs.Rows.{id_at, items_of, joined_labels};

use crate::span::Span;
use bundle_state::Bundle;
use emu_names::{ItemId, Memory, Text};
use level_items::Item;
use std::alloc::Global;

/// The items of a level.
pub fn items_at(bundle: &Bundle, level: usize) -> &[Item]
    requires { level < length bundle.now.levels }
    ensures { result.now ≡ items_at bundle.now.levels level }
{
    bundle.level(level).as_slice()
}

/// The label of an item for an attribute of its level.
pub fn label_of(item: &Item, attribute: usize) -> &str
    ensures { result.now ≡ label_of attribute item.now }
{
    match item.labels.as_slice().get(attribute) {
        Some(label) => label.as_str(),
        None => "",
    }
}

/// The id of the item at a position.
pub(crate) fn id_at(items: &[Item], position: usize) -> ItemId
    ensures { result ≡ id_at items.now position }
{
    match items.get(position) {
        Some(item) => item.id,
        None => ItemId(0),
    }
}

/// The items of a result.
pub fn items_of(bundle: &Bundle, span: Span) -> &[Item]
    requires span { IsStretchIn bundle.now span }
    requires level { span.level < length bundle.now.levels }
    ensures { result.now ≡ items_of bundle.now span }
{
    &items_at(bundle, span.level as usize)[span.first as usize..span.last as usize + 1]
}

/// Writes the labels of items with `->` between them.
fn push_labels(out: &mut String, attribute: usize, items: &[Item]) -> Result<(), Memory>
    ensures { OnOk result
        (string_bytes out.new ≡ string_bytes out.old ++ joined_labels attribute items.now) }
{
    let [first, others @ ..] = items else {
        return Ok(());
    };
    out.push_str(label_of(first, attribute))?;
    for item in others {
        out.push_str("->")?;
        out.push_str(label_of(item, attribute))?;
    }
    Ok(())
}

/// The label of an item for an attribute of its level, which shares the item's bytes. The only refusal is want of
/// memory.
fn own_label(alloc: Global, item: &Item, attribute: usize) -> Result<Text, Memory>
    ensures { IfOk result (λ made. made ≡ label_of attribute item.now) }
{
    match item.labels.as_slice().get(attribute) {
        Some(label) => label.copy(alloc),
        None => Text::new(alloc, ""),
    }
}

/// The labels of items, joined by `->`; that of one item shares its bytes. The only refusal is want of memory.
pub fn joined_labels(alloc: Global, attribute: usize, items: &[Item]) -> Result<Text, Memory>
    ensures { IfOk result (λ made. made ≡ joined_labels attribute items.now) }
{
    if let [item] = items {
        return own_label(alloc, item, attribute);
    }
    let mut text = String::new(alloc);
    push_labels(&mut text, attribute, items)?;
    Text::from_string(text)
}
