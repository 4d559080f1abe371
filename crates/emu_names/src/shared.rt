//! A value that has several owners and is never changed, which contracts see as the value itself.
ghost use Rattle.std.specs.Prelude.{◌≡◌, ◌<◌, ◌≤◌, length, insert, remove, slice_set, IfOk, OnErr, OnOk};

use crate::Memory;
use crate::plain::PlainData;
use crate::series::Series;
use std::alloc::Global;
use std::marker::Model;
use std::sync::Arc;

/// A value that is kept as long as it has an owner, also where owners are on different threads. A copy
/// is one owner more, and takes the same time however large the value is.
#[derive(Drop)]
pub struct Shared<T> {
    inside: Arc<T>,
}

impl<T> Model for Shared<T> {
    ghost Value = { T };

    ghost view = { λ s. s.inside.value };
}

impl<T: Drop> Shared<T> {
    /// `value`, with one owner. The only refusal is want of memory.
    pub fn new(alloc: Global, value: T) -> Result<Shared<T>, Memory>
        ensures { IfOk result (λ made. made ≡ value) }
    {
        let inside = Arc::new(alloc, value)?;
        Ok(Shared { inside })
    }

    /// The value.
    pub fn as_ref(&self) -> &T
        ensures { result.now ≡ self.now }
    {
        self.inside.as_ref()
    }
}

impl<T: PlainData> Shared<Series<T>> {
    /// Puts an element at a place of the list, before the element that stands there. The other
    /// owners keep the old list: where there are some, this one takes a copy of the list first. The
    /// only refusal is want of memory, which changes nothing.
    pub fn insert(&mut self, place: usize, item: T) -> Result<(), Memory>
        requires { place ≤ length self.old }
        ensures ok { OnOk result (self.new ≡ insert self.old place item) }
        ensures err { OnErr result (self.new ≡ self.old) }
    {
        let list = Arc::make_mut(&mut self.inside)?;
        list.insert(place, item)
    }

    /// Puts an element in the place of the one that stands there. The other owners keep the old list,
    /// as with `insert`. The only refusal is want of memory, which changes nothing.
    pub fn set(&mut self, place: usize, item: T) -> Result<(), Memory>
        requires { place < length self.old }
        ensures ok { OnOk result (self.new ≡ slice_set self.old place item) }
        ensures err { OnErr result (self.new ≡ self.old) }
    {
        let list = Arc::make_mut(&mut self.inside)?;
        list.set(place, item);
        Ok(())
    }

    /// Takes an element out of the list; those behind it move up. The other owners keep the old list,
    /// as with `insert`. The only refusal is want of memory, which changes nothing.
    pub fn remove(&mut self, place: usize) -> Result<(), Memory>
        requires { place < length self.old }
        ensures ok { OnOk result (self.new ≡ remove self.old place) }
        ensures err { OnErr result (self.new ≡ self.old) }
    {
        let list = Arc::make_mut(&mut self.inside)?;
        let _item = list.remove(place);
        Ok(())
    }
}

impl<T: Drop> PlainData for Shared<T> {
    fn copy(&self, _alloc: Global) -> Result<Shared<T>, Memory> {
        let inside = self.inside.clone()?;
        Ok(Shared { inside })
    }
}
