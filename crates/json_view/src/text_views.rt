//! A list of texts, lent by the JSON value that they stand in.
use std::alloc::{AllocFailed, Global};
use std::marker::Model;

/// The texts of a list, in its order.
#[derive(Drop)]
pub struct TextViews<'a> {
    texts: Vec<&'a str>,
}

impl<'a> Model for TextViews<'a> {
    ghost use Rattle.std.specs.Prelude.{ℕ, List, map};

    ghost Value = { List (List ℕ) };

    ghost view = { λ v. map (λ t. t.now) v.texts.items };
}

impl<'a> TextViews<'a> {
    ghost use Rattle.std.specs.Prelude.{◌≡◌, ◌↔◌, ◌<◌, ◌++◌, ◌∷◌, [], IsTrue, OnOk, Some, length, map};
    ghost use Rattle.std.specs.List.{slice_get};

    /// No texts.
    pub(crate) fn new(alloc: Global) -> TextViews<'a>
        ensures { result ≡ [] }
    {
        TextViews {
            texts: Vec::new(alloc),
        }
    }

    /// Puts a text at the end. It fails only for want of memory.
    pub(crate) fn push(&mut self, text: &'a str) -> Result<(), AllocFailed<&'a str>>
        ensures { OnOk result (self.new ≡ self.old ++ text.now ∷ []) }
    {
        self.texts.push(text)?;
        Ok(())
    }

    /// How many texts there are.
    pub fn len(&self) -> usize
        ensures { result ≡ length self.now }
    {
        self.texts.len()
    }

    /// Whether there is no text.
    pub fn is_empty(&self) -> bool
        ensures { IsTrue result ↔ (self.now ≡ []) }
    {
        self.texts.is_empty()
    }

    /// The text at this place, counted from 0.
    pub fn get(&self, place: usize) -> &'a str
        requires { place < length self.now }
        ensures { slice_get self.now place ≡ Some result.now }
    {
        self.texts[place]
    }

    /// The texts as a slice.
    pub fn as_slice(&self) -> &[&'a str]
        ensures { map (λ t. t.now) result.now ≡ self.now }
    {
        self.texts.as_slice()
    }
}
