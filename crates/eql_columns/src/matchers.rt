//! The matchers of the patterns and the groups of labels that were asked for, each of which is made once.
ghost use Rattle.std.specs.Prelude.{◌≡◌, ◌≢◌, true, IfOk, IfSome, Some};
ghost use Rattle.std.specs.List.{slice_get};
ghost use Rattle.bundle_index.specs.Inner.Keys.{IsKeyOf};
ghost use Rattle.label_match.specs.Pattern.{matches_label};
ghost use Rattle.eql_columns.specs.Inner.Labels.{IsAnswerTo};

use crate::answers::Answers;
use crate::groups::Group;
use db_config::GroupValues;
use emu_names::Memory;
use label_match::{Matching, Pattern};
use std::alloc::Global;
use std::marker::Model;

/// A pattern with its matcher, which contracts see as the bytes of the pattern's text. It keeps what it answered to
/// short labels of late, by their keys, which are the same in all bundles.
#[derive(Drop)]
pub(crate) struct Matcher<'p> {
    pattern: &'p Pattern,
    matching: Matching<'p>,
    answers: Answers,
}

impl<'p> Model for Matcher<'p> {
    ghost use Rattle.std.specs.Prelude.{◌≡◌, List, ℕ};
    ghost use Rattle.label_match.specs.Pattern.{matches_label};
    ghost use Rattle.eql_columns.specs.Inner.Labels.{AreKnownOf};

    ghost Value = { List ℕ };

    ghost view = { λ m. m.pattern.now };

    ghost invariant = { λ m. (m.matching ≡ m.pattern.now) × AreKnownOf (matches_label m.pattern.now) m.answers };
}

impl<'p> Matcher<'p> {
    /// The matcher of a pattern, made anew. The only refusal is want of memory.
    fn new(alloc: Global, pattern: &'p Pattern) -> Result<Matcher<'p>, Memory>
        ensures { IfOk result (λ made. made ≡ pattern.now) }
    {
        let answers = Answers::none(alloc)?;
        match pattern.matcher(alloc) {
            Ok(matching) => Ok(Matcher {
                pattern,
                matching,
                answers,
            }),
            Err(_) => Err(Memory),
        }
    }

    /// Whether this is the matcher of a pattern.
    fn is_of(&self, pattern: &Pattern) -> bool
        ensures { result ≡ true → self.now ≡ pattern.now }
    {
        self.pattern.as_str() == pattern.as_str()
    }

    /// Whether the pattern matches the whole label, as `Pattern::matches` says it.
    fn matches(&mut self, label: &str) -> bool
        ensures found { result ≡ matches_label self.old label.now }
        ensures same { self.new ≡ self.old }
    {
        self.matching.matches(label)
    }

    /// What the pattern answered to the labels of a key, where that is still known. Of the key 0 nothing is known.
    pub(crate) fn known(&self, key: u64) -> Option<bool>
        ensures answer { IfSome result (IsAnswerTo (matches_label self.now) key) }
        ensures key { IfSome result (λ _. key ≢ 0) }
    {
        self.answers.find(key)
    }

    /// Keeps what the pattern answers to the labels of a key, in the place of what was kept there.
    fn keep(&mut self, key: u64, is: bool)
        requires { IsAnswerTo (matches_label self.old) key is }
        ensures { self.new ≡ self.old }
    {
        self.answers.keep(key, is);
    }

    /// Whether the pattern matches the whole label of this key, as `Pattern::matches` says it. The answer is known from
    /// then on, unless the key is 0, until that to another key takes its place.
    pub(crate) fn learn(&mut self, key: u64, label: &str) -> bool
        requires { key ≢ 0 → IsKeyOf label.now key }
        ensures found { result ≡ matches_label self.old label.now }
        ensures same { self.new ≡ self.old }
    {
        let is = self.matches(label);
        self.keep(key, is);
        is
    }
}

/// The matchers of the patterns that were asked for so far. A query has few patterns, and whoever asks it of one
/// bundle after another hands these on, so that each matcher is made once and keeps what it has learned of the
/// labels before. No clause says what they hold: a matcher that is not there is made. The same goes for the groups
/// of labels.
#[derive(Drop)]
pub struct Matchers<'p> {
    made: Vec<Matcher<'p>>,
    groups: Vec<Group>,
}

impl<'p> Matchers<'p> {
    /// No matcher yet.
    pub fn new(alloc: Global) -> Matchers<'p> {
        Matchers {
            made: Vec::new(alloc),
            groups: Vec::new(alloc),
        }
    }

    /// The place of the matcher of a pattern, where it was made.
    fn find(&self, pattern: &Pattern) -> Option<usize>
        ensures { IfSome result (λ at. slice_get self.now.made.items at ≡ Some pattern.now) }
    {
        for at in 0..self.made.len() {
            if self.made[at].is_of(pattern) {
                return Some(at);
            }
        }
        None
    }

    /// Puts the matcher of a pattern last, and answers its place. The only refusal is want of memory.
    fn add(&mut self, alloc: Global, pattern: &'p Pattern) -> Result<usize, Memory>
        ensures { IfOk result (λ at. slice_get self.new.made.items at ≡ Some pattern.now) }
    {
        let at = self.made.len();
        self.made.push(Matcher::new(alloc, pattern)?)?;
        Ok(at)
    }

    /// The place of the matcher of a pattern, which is made where there is none. The only refusal is want of memory.
    fn place(&mut self, alloc: Global, pattern: &'p Pattern) -> Result<usize, Memory>
        ensures { IfOk result (λ at. slice_get self.new.made.items at ≡ Some pattern.now) }
    {
        match self.find(pattern) {
            Some(at) => Ok(at),
            None => self.add(alloc, pattern),
        }
    }

    /// The matcher of a pattern, which is made where there is none. The only refusal is want of memory.
    pub(crate) fn matcher(
        &mut self,
        alloc: Global,
        pattern: &'p Pattern,
    ) -> Result<&mut Matcher<'p>, Memory>
        ensures { IfOk result (λ matcher. matcher.now ≡ pattern.now) }
    {
        let at = self.place(alloc, pattern)?;
        Ok(&mut self.made[at])
    }

    /// The place of the group of these labels, where it was made.
    fn find_group(&self, labels: &GroupValues) -> Option<usize>
        ensures { IfSome result (λ at. slice_get self.now.groups.items at ≡ Some labels.now) }
    {
        for at in 0..self.groups.len() {
            if self.groups[at].is_of(labels) {
                return Some(at);
            }
        }
        None
    }

    /// Puts the group of these labels last, and answers its place. The only refusal is want of memory.
    fn add_group(&mut self, alloc: Global, labels: &GroupValues) -> Result<usize, Memory>
        ensures { IfOk result (λ at. slice_get self.new.groups.items at ≡ Some labels.now) }
    {
        let at = self.groups.len();
        self.groups.push(Group::new(alloc, labels)?)?;
        Ok(at)
    }

    /// The place of the group of these labels, which is made where there is none. The only refusal is want of memory.
    fn group_place(&mut self, alloc: Global, labels: &GroupValues) -> Result<usize, Memory>
        ensures { IfOk result (λ at. slice_get self.new.groups.items at ≡ Some labels.now) }
    {
        match self.find_group(labels) {
            Some(at) => Ok(at),
            None => self.add_group(alloc, labels),
        }
    }

    /// The group of these labels, which is made where there is none. The only refusal is want of memory.
    pub(crate) fn group(
        &mut self,
        alloc: Global,
        labels: &GroupValues,
    ) -> Result<&mut Group, Memory>
        ensures { IfOk result (λ group. group.now ≡ labels.now) }
    {
        let at = self.group_place(alloc, labels)?;
        Ok(&mut self.groups[at])
    }
}
