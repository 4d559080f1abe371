//! A view of a place in a JSON value, which knows its path.
ghost use Rattle.std.specs.Prelude.{◌≡◌, ◌≤◌, ◌<◌, ℕ, [], ◌∷◌, IfOk, IfErr, Some, length, map, option_map, string_bytes};
ghost use Rattle.serde_json.specs.View.{view};
ghost use Rattle.json_view.specs.Inner.Gives.{Gives, Tells};
ghost use Rattle.json_view.specs.Lists.{each_of, texts_at};
ghost use Rattle.json_view.specs.Inner.Lists.{element_of};
ghost use Rattle.json_view.specs.Parts.{elements_at, list_in, member_of, object_of, optional_of, present, shape, text_at, whole_at};
ghost use Rattle.json_view.specs.Inner.Parts.{optional_text, text_member, text_member_as, whole_member, whole_member_as};
ghost use Rattle.json_view.specs.Paths.{root_path, member_path, element_path};
ghost use Rattle.json_view.specs.Seen.{seen};
ghost use Rattle.json_view.specs.Inner.Seen.{path_of, seen_at};

use crate::faults::{PathText, Shape, ViewFault};
use crate::path::Path;
use crate::text_views::TextViews;
use crate::wants::Wanted;
use serde_json::Value;
use std::alloc::Global;

/// A place in a JSON value: the value that stands there, and its path.
#[derive(Drop)]
pub struct View<'a> {
    alloc: Global,
    value: &'a Value,
    path: Path<'a>,
}

impl<'a> View<'a> {
    /// The whole value, at the path `$`. It fails only for want of memory.
    pub fn root(alloc: Global, value: &'a Value) -> Result<View<'a>, ViewFault>
        ensures all { IfOk result (λ v. seen_at v ≡ seen (view value.now) root_path) }
        ensures memory { IfErr result (λ e. e ≡ ViewFault.Memory) }
    {
        Ok(View {
            alloc,
            value,
            path: Path::Whole,
        })
    }

    /// The member of this name. Where the value is no object, or has no such member, or `null`
    /// there, the fault is a `Shape` with the member's path and the form that is wanted of it.
    #[tactic(auto, unfolding(crate::specs::Parts::member_of))]
    pub fn member<'b>(&'b self, name: &'b str, wanted: Wanted) -> Result<View<'b>, ViewFault>
        ensures { Gives seen_at result (member_of name.now wanted (seen_at self.now)) }
    {
        match self.present(name) {
            Some(value) => Ok(self.below(value, Path::Member(&self.path, name))),
            None => Err(self.refuse_member(name, wanted)),
        }
    }

    /// Whether the value is an object: the first step of each reader of one. Where it is none, the
    /// fault is a `Shape` with this view's path and the form `Object`.
    #[tactic(auto, unfolding(crate::specs::Parts::object_of))]
    pub fn object(&self) -> Result<(), ViewFault>
        ensures { Gives (λ _. seen_at self.now) result (object_of (seen_at self.now)) }
    {
        if self.value.is_object() {
            Ok(())
        } else {
            Err(self.refuse(Wanted::Object))
        }
    }

    /// The member of this name, or `None` where the value is an object that has no such member, or
    /// `null` there. Where the value is no object, the fault is a `Shape` with this view's path and
    /// the form `Object`.
    #[tactic(auto, unfolding(crate::specs::Parts::optional_of))]
    pub fn optional<'b>(&'b self, name: &'b str) -> Result<Option<View<'b>>, ViewFault>
        ensures { Gives (option_map seen_at) result (optional_of name.now (seen_at self.now)) }
    {
        if !self.value.is_object() {
            return Err(self.refuse(Wanted::Object));
        }
        match self.present(name) {
            Some(value) => Ok(Some(self.below(value, Path::Member(&self.path, name)))),
            None => Ok(None),
        }
    }

    /// The number of elements of a list. Where the value is no list, the fault is a `Shape` with
    /// this view's path and the form `List`.
    #[tactic(auto, unfolding(crate::specs::Parts::elements_at))]
    pub fn list_len(&self) -> Result<usize, ViewFault>
        ensures list { Gives (λ _. list_in (seen_at self.now).value)
            result (elements_at (seen_at self.now)) }
        ensures count { IfOk result (λ n. n ≡ length (list_in (seen_at self.now).value)) }
    {
        if !self.value.is_array() {
            return Err(self.refuse(Wanted::List));
        }
        Ok(self.listed().len())
    }

    /// The element at this place of a list, counted from 0. It fails only for want of memory.
    #[tactic(auto, using(crate::proofs::Elements::element_listed))]
    pub fn at(&self, place: usize) -> Result<View<'_>, ViewFault>
        requires { place < length (list_in (seen_at self.now).value) }
        ensures element { IfOk result (λ v.
            element_of place (seen_at self.now) ≡ Some (seen_at v)) }
        ensures memory { IfErr result (λ e. e ≡ ViewFault.Memory) }
    {
        Ok(self.below(&self.listed()[place], Path::Element(&self.path, place)))
    }

    /// The text. Where the value is no text, the fault is a `Shape` with this view's path and the
    /// form `Text`.
    pub fn text(&self) -> Result<&'a str, ViewFault>
        ensures { Gives (λ t. t.now) result (text_at (seen_at self.now)) }
    {
        text_in(self.alloc, self.value, &self.path)
    }

    /// The whole number, from 0 to `most`. Where the value is no such number, the fault is a
    /// `Shape` with this view's path and the form `Whole`. Numbers with a fraction or an exponent,
    /// `-0`, and numbers from 2^64 on are no whole numbers.
    #[tactic(auto, unfolding(crate::specs::Parts::whole_at))]
    pub fn whole(&self, most: u64) -> Result<u64, ViewFault>
        ensures number { Gives (λ n. n) result (whole_at most (seen_at self.now)) }
        ensures bound { IfOk result (λ n. n ≤ most) }
    {
        match self.value.as_u64() {
            Some(number) if number <= most => Ok(number),
            _ => Err(self.refuse(Wanted::Whole)),
        }
    }

    /// The texts of a list of texts, or of a text alone, which counts as a list of one. Where the
    /// value is neither a text nor a list, the fault is a `Shape` with this view's path and the
    /// form `List`; else it is that of the first element that is no text, with the element's path
    /// and the form `Text`.
    #[tactic(auto, unfolding(crate::specs::Lists::texts_at))]
    pub fn texts(&self) -> Result<TextViews<'a>, ViewFault>
        ensures { Gives (λ t. t) result (texts_at (seen_at self.now)) }
    {
        match self.value.as_str() {
            Some(text) => self.lone_text(text),
            None => self.listed_texts(),
        }
    }

    /// The fault that another form was wanted here: a `Shape` with this view's path.
    pub fn refuse(&self, wanted: Wanted) -> ViewFault
        ensures { Tells result (shape (seen_at self.now).path wanted) }
    {
        shape_at(self.alloc, &self.path, wanted)
    }
}

// The parts of members, each read without a view of the member: only a fault has a path made for it.
impl<'a> View<'a> {
    /// The text of the member of this name: what `member` and then `text` give.
    #[tactic(auto, unfolding(crate::specs::Parts::text_at, crate::specs::Inner::Parts::text_as))]
    pub fn text_member(&self, name: &str) -> Result<&'a str, ViewFault>
        ensures { Gives (λ t. t.now) result (text_member name.now (seen_at self.now)) }
    {
        self.text_member_as(name, Wanted::Text)
    }

    /// The text of the member of this name, for a reader that wants this form of it: each fault is a
    /// `Shape` with the member's path and that form.
    #[tactic(auto, unfolding(crate::specs::Parts::member_of, crate::specs::Inner::Parts::text_as))]
    pub fn text_member_as(&self, name: &str, wanted: Wanted) -> Result<&'a str, ViewFault>
        ensures { Gives (λ t. t.now) result
            (text_member_as wanted name.now (seen_at self.now)) }
    {
        match self.present(name) {
            Some(value) => match value.as_str() {
                Some(text) => Ok(text),
                None => Err(self.refuse_member(name, wanted)),
            },
            None => Err(self.refuse_member(name, wanted)),
        }
    }

    /// The text of the member of this name, or `None` where it is missing: what `optional` and then
    /// `text` give.
    #[tactic(auto, unfolding(crate::specs::Parts::optional_of, crate::specs::Parts::text_at))]
    pub fn optional_text(&self, name: &str) -> Result<Option<&'a str>, ViewFault>
        ensures { Gives (option_map (λ t. t.now)) result
            (optional_text name.now (seen_at self.now)) }
    {
        if !self.value.is_object() {
            return Err(self.refuse(Wanted::Object));
        }
        match self.present(name) {
            Some(value) => match value.as_str() {
                Some(text) => Ok(Some(text)),
                None => Err(self.refuse_member(name, Wanted::Text)),
            },
            None => Ok(None),
        }
    }

    /// The whole number of the member of this name, from 0 to `most`: what `member` and then `whole`
    /// give.
    #[tactic(auto, unfolding(crate::specs::Parts::whole_at, crate::specs::Inner::Parts::whole_as))]
    pub fn whole_member(&self, name: &str, most: u64) -> Result<u64, ViewFault>
        ensures number { Gives (λ n. n) result
            (whole_member name.now most (seen_at self.now)) }
        ensures bound { IfOk result (λ n. n ≤ most) }
    {
        self.whole_member_as(name, most, Wanted::Whole)
    }

    /// The whole number of the member of this name, from 0 to `most`, for a reader that wants this
    /// form of it: each fault is a `Shape` with the member's path and that form.
    #[tactic(auto, unfolding(crate::specs::Parts::member_of, crate::specs::Inner::Parts::whole_as))]
    pub fn whole_member_as(&self, name: &str, most: u64, wanted: Wanted) -> Result<u64, ViewFault>
        ensures number { Gives (λ n. n) result
            (whole_member_as wanted name.now most (seen_at self.now)) }
        ensures bound { IfOk result (λ n. n ≤ most) }
    {
        match self.present(name) {
            Some(value) => match value.as_u64() {
                Some(whole) if whole <= most => Ok(whole),
                _ => Err(self.refuse_member(name, wanted)),
            },
            None => Err(self.refuse_member(name, wanted)),
        }
    }

    /// The fault that another form was wanted of the member of this name: a `Shape` with the
    /// member's path.
    pub fn refuse_member(&self, name: &str, wanted: Wanted) -> ViewFault
        ensures { Tells result (shape (member_path (seen_at self.now).path name.now) wanted) }
    {
        shape_at(self.alloc, &Path::Member(&self.path, name), wanted)
    }
}

// What the public calls are made of.
impl<'a> View<'a> {
    // The member of this name that is there.
    fn present(&self, name: &str) -> Option<&'a Value>
        ensures { option_map (λ v. view v.now) result ≡ present name.now (seen_at self.now).value }
    {
        match self.value.get(name) {
            Some(Value::Null) => None,
            found => found,
        }
    }

    // The elements of a list; no other value has any.
    #[tactic(auto, using(crate::proofs::Elements::listed_array, crate::proofs::Elements::listed_other))]
    fn listed(&self) -> &'a [Value]
        ensures { map view result.now ≡ list_in (seen_at self.now).value }
    {
        match self.value.as_array() {
            Some(list) => list.as_slice(),
            None => &[],
        }
    }

    // A place below this one.
    fn below<'b>(&self, value: &'b Value, path: Path<'b>) -> View<'b>
        ensures { seen_at result ≡ seen (view value.now) (path_of path.entry) }
    {
        View {
            alloc: self.alloc,
            value,
            path,
        }
    }

    fn lone_text(&self, text: &'a str) -> Result<TextViews<'a>, ViewFault>
        ensures ok { IfOk result (λ t. t ≡ text.now ∷ []) }
        ensures memory { IfErr result (λ e. e ≡ ViewFault.Memory) }
    {
        let mut texts = TextViews::new(self.alloc);
        texts.push(text)?;
        Ok(texts)
    }

    #[tactic(auto, using(crate::proofs::Each::each_steps, crate::proofs::Elements::element_listed), unfolding(crate::specs::Lists::each_of))]
    fn listed_texts(&self) -> Result<TextViews<'a>, ViewFault>
        ensures { Gives (λ t. t) result (each_of text_at (seen_at self.now)) }
    {
        let count = self.list_len()?;
        let mut texts = TextViews::new(self.alloc);
        for place in 0..count {
            let value = &self.listed()[place];
            match text_in(self.alloc, value, &Path::Element(&self.path, place)) {
                Ok(text) => texts.push(text)?,
                Err(fault) => return Err(fault),
            }
        }
        Ok(texts)
    }
}

// The fault that another form was wanted at a place.
fn shape_at(alloc: Global, path: &Path, wanted: Wanted) -> ViewFault
    ensures { Tells result (shape (path_of path.now) wanted) }
{
    match path.text(alloc) {
        Ok(text) => ViewFault::Shape(Shape {
            path: PathText::of(text),
            wanted,
        }),
        Err(_) => ViewFault::Memory,
    }
}

// The text at a place.
#[tactic(auto, unfolding(crate::specs::Parts::text_at))]
fn text_in<'a>(alloc: Global, value: &'a Value, path: &Path) -> Result<&'a str, ViewFault>
    ensures { Gives (λ t. t.now) result (text_at (seen (view value.now) (path_of path.now))) }
{
    match value.as_str() {
        Some(text) => Ok(text),
        None => Err(shape_at(alloc, path, Wanted::Text)),
    }
}
