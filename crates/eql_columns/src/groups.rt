//! Groups of labels, each with what is known of short labels, and the items whose labels are in a group.
ghost use Rattle.std.specs.Prelude.{◌≡◌, ◌≢◌, ◌<◌, true, length, map, IfOk, IfSome, Some};
ghost use Rattle.std.specs.List.{slice_get};
ghost use Rattle.level_items.specs.Levels.{label_of};
ghost use Rattle.bundle_index.specs.Inner.Keys.{IsKeyOf};
ghost use Rattle.bundle_index.specs.Inner.Numbered.{IsColumnOf};
ghost use Rattle.eql_columns.specs.Inner.Labels.{is_among, label_at, IsAnswerTo};

use crate::answers::Answers;
use bundle_index::Indexed;
use db_config::GroupValues;
use emu_names::{Memory, Text};
use eql_rows::label_of;
use lane_bits::BitRow;
use level_items::Item;
use std::alloc::Global;
use std::marker::Model;

/// Whether two lists have the same labels.
fn are_same(one: &[Text], other: &[Text]) -> bool
    ensures { result ≡ true → one.now ≡ other.now }
{
    if one.len() != other.len() {
        return false;
    }
    for at in 0..one.len() {
        if one[at].as_str() != other[at].as_str() {
            return false;
        }
    }
    true
}

/// The labels of a group, which contracts see as their list. It keeps what it answered to short labels of late, by
/// their keys.
#[derive(Drop)]
pub(crate) struct Group {
    labels: GroupValues,
    answers: Answers,
}

impl Model for Group {
    ghost use Rattle.std.specs.Prelude.{List, ℕ};
    ghost use Rattle.eql_columns.specs.Inner.Labels.{is_among, AreKnownOf};

    ghost Value = { List (List ℕ) };

    ghost view = { λ g. g.labels };

    ghost invariant = { λ g. AreKnownOf (is_among g.labels) g.answers };
}

impl Group {
    /// A group of these labels. The only refusal is want of memory.
    pub(crate) fn new(alloc: Global, labels: &GroupValues) -> Result<Group, Memory>
        ensures { IfOk result (λ made. made ≡ labels.now) }
    {
        let answers = Answers::none(alloc)?;
        match labels.copy(alloc) {
            Ok(labels) => Ok(Group { labels, answers }),
            Err(fault) => Err(fault),
        }
    }

    /// Whether this is the group of these labels.
    pub(crate) fn is_of(&self, labels: &GroupValues) -> bool
        ensures { result ≡ true → self.now ≡ labels.now }
    {
        are_same(self.labels.as_slice(), labels.as_slice())
    }

    /// Whether the labels of a key are in the group, where that is still known. Of the key 0 nothing is known.
    pub(crate) fn known(&self, key: u64) -> Option<bool>
        ensures answer { IfSome result (IsAnswerTo (is_among self.now) key) }
        ensures key { IfSome result (λ _. key ≢ 0) }
    {
        self.answers.find(key)
    }

    /// Keeps whether the labels of a key are in the group, in the place of what was kept there.
    fn keep(&mut self, key: u64, is: bool)
        requires { IsAnswerTo (is_among self.old) key is }
        ensures { self.new ≡ self.old }
    {
        self.answers.keep(key, is);
    }

    /// Whether the label of this key is in the group. The answer is known from then on, unless the key is 0, until that
    /// to another key takes its place.
    pub(crate) fn learn(&mut self, key: u64, label: &str) -> bool
        requires { key ≢ 0 → IsKeyOf label.now key }
        ensures found { result ≡ is_among self.old label.now }
        ensures same { self.new ≡ self.old }
    {
        let is = db_config::is_among(label, self.labels.as_slice());
        self.keep(key, is);
        is
    }
}

/// Whether the label of the item at a position, which has this number, is in a group: as it is known of the label's
/// key, else as the group answers, which is known then.
fn holds_at(
    group: &mut Group,
    indexed: &Indexed,
    number: u32,
    attribute: usize,
    items: &[Item],
    at: usize,
) -> bool
    requires at { at < length items.now }
    requires number { slice_get indexed.now.labels number ≡ Some (label_at attribute items.now at) }
    ensures answer { result ≡ is_among group.old (label_at attribute items.now at) }
    ensures same { group.new ≡ group.old }
{
    let key = indexed.label_key(number);
    match group.known(key) {
        Some(is) => is,
        None => group.learn(key, label_of(&items[at], attribute)),
    }
}

/// Sets each bit of a row to whether the label of the item at its place is in a group.
pub(crate) fn set_held(
    group: &mut Group,
    indexed: &Indexed,
    column: &[u32],
    attribute: usize,
    items: &[Item],
    row: &mut BitRow,
)
    requires numbers { IsColumnOf indexed.now.labels column.now (map (label_of attribute) items.now) }
    requires long { length row.old ≡ length items.now }
    ensures { row.new ≡ map (λ item. is_among group.old (label_of attribute item)) items.now }
{
    for at in 0..items.len() {
        let is = holds_at(group, indexed, column[at], attribute, items, at);
        row.set(at, is);
    }
}
