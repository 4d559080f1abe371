//! A list that grows at its end, and that contracts see as the list of its elements.
ghost use Rattle.std.specs.Prelude.{◌≡◌, ◌<◌, ◌≤◌, ◌==◌, ℕ, List, [], ◌∷◌, ◌++◌, length, IfOk, OnOk, OnErr, slice_get, slice_set, take, insert, remove, Some};

use crate::Memory;
use crate::plain::PlainData;
use std::alloc::{AllocError, Global};
use std::marker::Model;

/// A list of any number of elements.
#[derive(Drop)]
pub struct Series<T> {
    items: Vec<T>,
}

impl<T> Model for Series<T> {
    ghost use Rattle.std.specs.Prelude.{List};

    ghost Value = { List T };

    ghost view = { λ s. s.items.items };
}

impl<T> Series<T> {
    /// The list of no element, which grows by `alloc`.
    pub fn new(alloc: Global) -> Series<T>
        ensures { result ≡ [] }
    {
        Series {
            items: Vec::new(alloc),
        }
    }

    /// The elements of `items`.
    pub fn from_vec(items: Vec<T>) -> Series<T>
        ensures { result ≡ items.items }
    {
        Series { items }
    }

    /// How many elements there are.
    pub fn len(&self) -> usize
        ensures { result ≡ length self.now }
    {
        self.items.len()
    }

    /// Whether there is no element.
    pub fn is_empty(&self) -> bool
        ensures { result ≡ (length self.now == 0) }
    {
        self.items.is_empty()
    }

    /// The element at a place, counted from 0.
    pub fn get(&self, place: usize) -> &T
        requires { place < length self.now }
        ensures { slice_get self.now place ≡ Some result.now }
    {
        &self.items[place]
    }

    /// All elements, in order.
    pub fn as_slice(&self) -> &[T]
        ensures { result.now ≡ self.now }
    {
        self.items.as_slice()
    }
}

impl<T: Drop> Series<T> {
    /// Puts an element last. The only refusal is want of memory, which changes nothing.
    pub fn push(&mut self, item: T) -> Result<(), Memory>
        ensures ok { OnOk result (self.new ≡ self.old ++ item ∷ []) }
        ensures err { OnErr result (self.new ≡ self.old) }
    {
        self.items.push(item)?;
        Ok(())
    }

    /// Puts all elements of another list last, in their order. None is copied. The only refusal is want
    /// of memory, which changes nothing.
    pub fn append(&mut self, more: Series<T>) -> Result<(), Memory>
        ensures ok { OnOk result (self.new ≡ self.old ++ more) }
        ensures err { OnErr result (self.new ≡ self.old) }
    {
        let mut behind = more.items;
        self.items.append(&mut behind)?;
        Ok(())
    }

    /// Puts an element at a place, before the element that stands there. The only refusal is want
    /// of memory, which changes nothing.
    pub fn insert(&mut self, place: usize, item: T) -> Result<(), Memory>
        requires { place ≤ length self.old }
        ensures ok { OnOk result (self.new ≡ insert self.old place item) }
        ensures err { OnErr result (self.new ≡ self.old) }
    {
        self.items.insert(place, item)?;
        Ok(())
    }

    /// Puts an element in the place of the one that stands there, which goes.
    pub fn set(&mut self, place: usize, item: T)
        requires { place < length self.old }
        ensures { self.new ≡ slice_set self.old place item }
    {
        self.items[place] = item;
    }

    /// Takes an element out; those behind it move up.
    pub fn remove(&mut self, place: usize) -> T
        requires { place < length self.old }
        ensures item { slice_get self.old place ≡ Some result }
        ensures left { self.new ≡ remove self.old place }
    {
        self.items.remove(place)
    }

    /// Lets all elements but the first `len` go.
    pub fn truncate(&mut self, len: usize)
        ensures { self.new ≡ take len self.old }
    {
        self.items.truncate(len);
    }
}

/// The same elements again. The only refusal is want of memory.
fn copied<T: PlainData>(alloc: Global, items: &[T]) -> Result<Vec<T>, Memory>
    ensures { IfOk result (λ made. made.items ≡ items.now) }
{
    let mut made = Vec::with_capacity(alloc, items.len())?;
    for item in items {
        made.push(item.copy(alloc)?)?;
    }
    Ok(made)
}

impl<T: PlainData> PlainData for Series<T> {
    fn copy(&self, alloc: Global) -> Result<Series<T>, Memory> {
        let items = copied(alloc, self.items.as_slice())?;
        Ok(Series { items })
    }
}

impl<T: PlainData> Clone for Series<T> {
    ghost is_clone = { λ s t. t ≡ s };

    fn clone(&self) -> Result<Series<T>, AllocError> {
        match copied(*self.items.allocator(), self.items.as_slice()) {
            Ok(items) => Ok(Series { items }),
            Err(Memory) => Err(AllocError),
        }
    }
}
