//! The labels that an item of a bundle is given, each tested for its attribute.
ghost use Rattle.std.specs.Prelude.{◌≡◌, [], IfOk, option_copied};
ghost use Rattle.std.specs.List.{find};
ghost use Rattle.emu_names.specs.Inner.Gives.{FindsFault};
ghost use Rattle.emu_names.specs.Texts.{same_text};
ghost use Rattle.bundle_state.specs.Rules.{label_names};
ghost use Rattle.bundle_state.specs.Labels.{label_fault, given_label_fault, new_labels_fault};

use crate::annot_rules::are_labelled;
use db_config::AttributeDef;
use emu_names::limits::LABEL_BYTES;
use emu_names::{Broken, Fault, Text};
use level_items::AnnotLabel;
use std::alloc::Global;

/// Tests a label for an attribute: its length, and, where `is_tested` is true, whether it is legal.
fn label_passes(def: &AttributeDef, label: &Text, is_tested: bool) -> Result<(), Fault>
    ensures { FindsFault result (label_fault is_tested def.now label.now) }
{
    if label.as_str().len() > LABEL_BYTES {
        return Err(Fault::Broken(Broken::LabelTooLong));
    }
    if !is_tested || def.is_legal(label.as_str()) {
        Ok(())
    } else {
        Err(Fault::Broken(Broken::IllegalLabel))
    }
}

/// A copy of a label for an attribute. Refused are one of over 4,096 bytes (`LabelTooLong`) and, where
/// `is_tested` is true, one that is not legal (`IllegalLabel`).
pub fn label_passed(
    alloc: Global,
    def: &AttributeDef,
    label: &Text,
    is_tested: bool,
) -> Result<Text, Fault>
    ensures passed { FindsFault result (label_fault is_tested def.now label.now) }
    ensures copied { IfOk result (λ own. own ≡ label.now) }
{
    label_passes(def, label, is_tested)?;
    let own = label.copy(alloc)?;
    Ok(own)
}

/// The attribute of this name.
fn attribute_named<'a>(defs: &'a [AttributeDef], name: &Text) -> Option<&'a AttributeDef>
    ensures { option_copied result ≡ find (λ d. same_text d.name name.now) defs.now }
{
    for def in defs {
        if def.name.as_str() == name.as_str() {
            return Some(def);
        }
    }
    None
}

/// Tests a label that stands behind those of `before`.
fn given_label_passes(
    alloc: Global,
    defs: &[AttributeDef],
    before: &[AnnotLabel],
    label: &AnnotLabel,
    is_tested: bool,
) -> Result<(), Fault>
    ensures { FindsFault result (given_label_fault is_tested (label_names before.now) label.now
        (find (λ d. same_text d.name label.now.name) defs.now)) }
{
    let Some(def) = attribute_named(defs, &label.name) else {
        return Err(Fault::Broken(Broken::NoAttribute(label.name.copy(alloc)?)));
    };
    if are_labelled(before, &label.name) {
        return Err(Fault::Broken(Broken::TwoLabels(label.name.copy(alloc)?)));
    }
    label_passes(def, &label.value, is_tested)
}

/// Tests the labels of a new item. Refused are, of each label in turn, an unknown attribute (`NoAttribute`),
/// one that is named twice (`TwoLabels`) and what `label_passed` refuses.
pub fn new_labels_pass(
    alloc: Global,
    defs: &[AttributeDef],
    labels: &[AnnotLabel],
    is_tested: bool,
) -> Result<(), Fault>
    ensures { FindsFault result (new_labels_fault is_tested defs.now [] labels.now) }
{
    for place in 0..labels.len() {
        match given_label_passes(alloc, defs, &labels[..place], &labels[place], is_tested) {
            Ok(()) => {}
            Err(fault) => return Err(fault),
        }
    }
    Ok(())
}
