//! The distinct labels of a bundle, each with its number, as indexed bundles share them.
ghost use Rattle.std.specs.Prelude.{◌≡◌, ◌<◌, [], IfOk, IsTrue, OnOk, length, position, slice_get, Some};
ghost use Rattle.std.specs.Str.{bytes_eq};
ghost use Rattle.bundle_index.specs.Inner.Numbered.{AreNumbered, HasGrown};

use emu_names::Memory;
use indexmap::IndexSet;
use std::alloc::{AllocError, Global};
use std::marker::Model;
use std::sync::Arc;

/// The most labels that can be numbered.
const MOST_LABELS: usize = 4_294_967_295;

/// Distinct labels, which contracts see as their list. The number of a label is its place in the list.
#[derive(Drop)]
struct LabelSet {
    set: IndexSet<String>,
}

impl Model for LabelSet {
    ghost use Rattle.std.specs.Prelude.{List, ℕ, map, string_bytes};
    ghost use Rattle.bundle_index.specs.Inner.Numbered.{AreNumbered};

    ghost Value = { List (List ℕ) };

    ghost view = { λ s. map string_bytes s.set.keys };

    ghost invariant = { λ s. AreNumbered (map string_bytes s.set.keys) };
}

impl Clone for LabelSet {
    ghost is_clone = { λ s t. t ≡ s };

    fn clone(&self) -> Result<LabelSet, AllocError> {
        let set = self.set.clone()?;
        Ok(LabelSet { set })
    }
}

impl LabelSet {
    /// The list of no label, which grows by `alloc`.
    fn new(alloc: Global) -> LabelSet
        ensures { result ≡ [] }
    {
        LabelSet {
            set: IndexSet::new(alloc),
        }
    }

    /// The number of a label, where it is in the list. Whoever asks may rely on the numbers.
    fn find(&self, label: &str) -> Option<u32>
        ensures number { result ≡ position (bytes_eq label.now) self.now }
        ensures rule { AreNumbered self.now }
    {
        match self.set.get_index_of(label) {
            Some(place) => Some(place as u32),
            None => None,
        }
    }

    /// How many labels there are. Whoever asks may rely on the numbers.
    fn len(&self) -> usize
        ensures len { result ≡ length self.now }
        ensures rule { AreNumbered self.now }
    {
        self.set.len()
    }

    /// The label of a number.
    fn get(&self, place: usize) -> &str
        requires { place < length self.now }
        ensures { slice_get self.now place ≡ Some result.now }
    {
        self.set.as_slice()[place].as_str()
    }

    /// Puts a label last, and answers its number. The only refusal is want of memory, or of a number.
    fn put(&mut self, alloc: Global, label: &str) -> Result<u32, Memory>
        ensures number { IfOk result (λ n. slice_get self.new n ≡ Some label.now) }
        ensures grown { OnOk result (HasGrown self.old self.new) }
    {
        if self.set.len() >= MOST_LABELS {
            return Err(Memory);
        }
        let text = String::from_str(alloc, label)?;
        let (place, _) = self.set.insert_full(text)?;
        Ok(place as u32)
    }
}

/// Distinct labels with their numbers, which contracts see as their list. Copies share the list until a
/// label is put into one of them.
#[derive(Drop)]
pub struct Labels {
    inside: Arc<LabelSet>,
}

impl Model for Labels {
    ghost use Rattle.std.specs.Prelude.{List, ℕ};

    ghost Value = { List (List ℕ) };

    ghost view = { λ l. l.inside.value };
}

impl Labels {
    /// The list of no label, which grows by `alloc`. The only refusal is want of memory.
    pub fn new(alloc: Global) -> Result<Labels, Memory>
        ensures { IfOk result (λ made. made ≡ []) }
    {
        let inside = Arc::new(alloc, LabelSet::new(alloc))?;
        Ok(Labels { inside })
    }

    /// The same labels with the same numbers. The only refusal is want of memory.
    pub fn copy(&self) -> Result<Labels, Memory>
        ensures { IfOk result (λ made. made ≡ self.now) }
    {
        let inside = self.inside.clone()?;
        Ok(Labels { inside })
    }

    /// How many labels there are. Whoever asks may rely on the numbers.
    pub fn len(&self) -> usize
        ensures len { result ≡ length self.now }
        ensures rule { AreNumbered self.now }
    {
        self.inside.as_ref().len()
    }

    /// The label of a number.
    pub fn get(&self, place: usize) -> &str
        requires { place < length self.now }
        ensures { slice_get self.now place ≡ Some result.now }
    {
        self.inside.as_ref().get(place)
    }

    /// The number of a label, where it is in the list. Whoever asks may rely on the numbers.
    pub fn find(&self, label: &str) -> Option<u32>
        ensures number { result ≡ position (bytes_eq label.now) self.now }
        ensures rule { AreNumbered self.now }
    {
        self.inside.as_ref().find(label)
    }

    /// The number of a label, which is put last where it is not in the list. The only refusal is want
    /// of memory, or of a number: there are numbers for 4,294,967,295 labels.
    pub fn number(&mut self, alloc: Global, label: &str) -> Result<u32, Memory>
        ensures number { IfOk result (λ n. slice_get self.new n ≡ Some label.now) }
        ensures grown { OnOk result (HasGrown self.old self.new) }
    {
        match self.find(label) {
            Some(number) => Ok(number),
            None => self.put(alloc, label),
        }
    }

    /// The number of a label, as by [`Labels::number`]. This number is tried first, of which nothing is promised.
    pub fn number_near(&mut self, alloc: Global, label: &str, near: u32) -> Result<u32, Memory>
        ensures number { IfOk result (λ n. slice_get self.new n ≡ Some label.now) }
        ensures grown { OnOk result (HasGrown self.old self.new) }
    {
        if self.has_at(near as usize, label) {
            return Ok(near);
        }
        self.number(alloc, label)
    }

    /// Whether this label has this number.
    fn has_at(&self, place: usize, label: &str) -> bool
        ensures { IsTrue result → slice_get self.now place ≡ Some label.now }
    {
        place < self.len() && self.get(place) == label
    }

    /// Puts a label last, and answers its number. The only refusal is want of memory, or of a number.
    fn put(&mut self, alloc: Global, label: &str) -> Result<u32, Memory>
        ensures number { IfOk result (λ n. slice_get self.new n ≡ Some label.now) }
        ensures grown { OnOk result (HasGrown self.old self.new) }
    {
        let own = Arc::make_mut(&mut self.inside)?;
        own.put(alloc, label)
    }
}
