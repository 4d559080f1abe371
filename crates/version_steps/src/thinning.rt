//! Lists of labels that are made anew where they are crowded by labels of no item.
ghost use Rattle.std.specs.Prelude.{◌≡◌, IfOk};

use bundle_index::Indexed;
use bundle_state::Bundle;
use edit_rules::Edit;
use emu_names::{Memory, Text};
use level_items::AnnotLabel;
use std::alloc::Global;

/// How many labels the items of a bundle have together.
fn label_count(bundle: &Bundle) -> usize {
    let mut count: usize = 0;
    for level in 0..bundle.level_count() {
        let items = bundle.level(level).as_slice();
        if let Some(item) = items.first() {
            let labels = items.len().saturating_mul(item.labels.len());
            count = count.saturating_add(labels);
        }
    }
    count
}

/// Whether a label stands behind so many others in the list of a bundle's labels that more than half of these
/// are labels of no item any longer.
fn stands_late(indexed: &Indexed, label: &Text) -> bool {
    match indexed.label_number(label.as_str()) {
        Some(number) => number as usize / 2 > label_count(indexed.bundle()),
        None => false,
    }
}

/// Whether one of these labels stands late.
fn stand_late(indexed: &Indexed, labels: &[AnnotLabel]) -> bool {
    for label in labels {
        if stands_late(indexed, &label.value) {
            return true;
        }
    }
    false
}

/// Whether a label that an edit gave stands late. Only a label that is given can make the list longer, and it
/// stands last then.
fn is_crowded(indexed: &Indexed, edit: &Edit) -> bool {
    match edit {
        Edit::SetLabel { label, .. } | Edit::PutLabel { label, .. } => stands_late(indexed, label),
        Edit::AddItem { item, .. } | Edit::PutItem { item, .. } => {
            stand_late(indexed, item.labels.as_slice())
        }
        _ => false,
    }
}

/// Whether edits that were made left more than twice as many labels in the list of a bundle's labels as its
/// items have.
fn are_crowded(indexed: &Indexed, edits: &[Edit]) -> bool {
    for edit in edits {
        if is_crowded(indexed, edit) {
            return true;
        }
    }
    false
}

/// The same bundle with columns, and a list of labels, that are made of its items anew. The only refusal is
/// want of memory.
fn made_anew(alloc: Global, indexed: &Indexed) -> Result<Indexed, Memory>
    ensures { IfOk result (λ made. made.bundle ≡ indexed.now.bundle) }
{
    let bundle = indexed.bundle().copy(alloc)?;
    Indexed::new(alloc, bundle)
}

/// The same bundle with its columns, whose list of labels is made anew where it is crowded by labels that no
/// item has any longer. The only refusal is want of memory.
pub(crate) fn thinned(alloc: Global, indexed: Indexed, edits: &[Edit]) -> Result<Indexed, Memory>
    ensures { IfOk result (λ made. made.bundle ≡ indexed.bundle) }
{
    if are_crowded(&indexed, edits) {
        made_anew(alloc, &indexed)
    } else {
        Ok(indexed)
    }
}
