//! A value that copies share until one of them changes it, which contracts see as the value itself.
ghost use Rattle.std.specs.Prelude.{◌≡◌, IfOk};

use emu_names::{Memory, PlainData};
use std::alloc::Global;
use std::marker::Model;
use std::sync::Arc;

/// A value that is kept as long as it has an owner, also where owners are on different threads. A copy
/// is one owner more, and takes the same time however large the value is.
#[derive(Drop)]
pub struct Handle<T> {
    /// What the owners share. To change it, take `Arc::make_mut` of it.
    pub inside: Arc<T>,
}

impl<T> Model for Handle<T> {
    ghost Value = { T };

    ghost view = { λ s. s.inside.value };
}

impl<T: Drop> Handle<T> {
    /// `value`, with one owner. The only refusal is want of memory.
    pub fn new(alloc: Global, value: T) -> Result<Handle<T>, Memory>
        ensures { IfOk result (λ made. made ≡ value) }
    {
        let inside = Arc::new(alloc, value)?;
        Ok(Handle { inside })
    }

    /// The value.
    pub fn as_ref(&self) -> &T
        ensures { result.now ≡ self.now }
    {
        self.inside.as_ref()
    }
}

impl<T: Drop> PlainData for Handle<T> {
    fn copy(&self, _alloc: Global) -> Result<Handle<T>, Memory> {
        let inside = self.inside.clone()?;
        Ok(Handle { inside })
    }
}
