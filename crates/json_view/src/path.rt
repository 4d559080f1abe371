//! How a place in a JSON value is reached from the whole value.
ghost use Rattle.std.specs.Prelude.{◌≡◌, IfOk, string_bytes};
ghost use Rattle.json_view.specs.Inner.Seen.{path_of};

use std::alloc::{AllocError, Global};

/// The steps from the whole value to a place in it. Each borrows the one above it, so that a text is made of them
/// for a fault alone.
#[derive(Drop)]
pub(crate) enum Path<'a> {
    /// The whole value.
    Whole,
    /// The member of this name.
    Member(&'a Path<'a>, &'a str),
    /// The element at this place, counted from 0.
    Element(&'a Path<'a>, usize),
}

impl<'a> Path<'a> {
    /// The path as a fault shows it. It fails only for want of memory.
    pub(crate) fn text(&self, alloc: Global) -> Result<String, AllocError>
        ensures { IfOk result (λ made. string_bytes made ≡ path_of self.now) }
    {
        match self {
            Path::Whole => String::from_str(alloc, "$"),
            Path::Member(above, name) => {
                let above = above.text(alloc)?;
                format!(in alloc; "{}.{}", above, name)
            }
            Path::Element(above, place) => {
                let above = above.text(alloc)?;
                format!(in alloc; "{}[{}]", above, place)
            }
        }
    }
}
