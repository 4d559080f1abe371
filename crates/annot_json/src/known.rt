//! Texts of the items of a level that were read before, for later ones to share: a level has few distinct
//! labels, as a rule.
use emu_names::Text;
use level_items::{AnnotItem, AnnotLabel};

/// Among how many of the last items a label is looked for.
const NEAR: usize = 64;

// The label at a place of an item.
fn label_at(item: &AnnotItem, place: usize) -> Option<&AnnotLabel> {
    item.labels.as_slice().get(place)
}

/// The name of the label at a place of the last of these items.
pub(crate) fn last_name(items: &[AnnotItem], place: usize) -> Option<&Text> {
    match label_at(items.last()?, place) {
        Some(label) => Some(&label.name),
        None => None,
    }
}

/// The value of the label at a place of one of the last of these items, where one of them is this text.
pub(crate) fn known_value<'a>(
    items: &'a [AnnotItem],
    place: usize,
    text: &str,
) -> Option<&'a Text> {
    let from = items.len().saturating_sub(NEAR);
    for item in &items[from..] {
        let Some(label) = label_at(item, place) else {
            continue;
        };
        if label.value.as_str() == text {
            return Some(&label.value);
        }
    }
    None
}
