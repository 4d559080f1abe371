//! The fault of a reader: the path of the part that is not there, and the form that was wanted.
ghost use Rattle.std.specs.Prelude.{◌≡◌, IfOk, string_bytes};

use crate::wants::Wanted;
use std::alloc::{AllocError, AllocFailed, Global};
use std::error::Error;
use std::fmt;
use std::marker::Model;

/// The path of a place in a JSON value: `$` is the whole value, `.name` a member, `[k]` the element
/// at place k, counted from 0.
#[derive(Debug, Drop)]
pub struct PathText {
    text: String,
}

impl Model for PathText {
    ghost use Rattle.std.specs.Prelude.{ℕ, List, string_bytes};

    ghost Value = { List ℕ };

    ghost view = { λ p. string_bytes p.text };
}

impl PathText {
    /// The path with this text.
    pub(crate) fn of(text: String) -> PathText
        ensures { result ≡ string_bytes text }
    {
        PathText { text }
    }

    /// The path's text.
    pub fn as_str(&self) -> &str
        ensures { result.now ≡ self.now }
    {
        self.text.as_str()
    }

    /// A copy of the path. It fails only for want of memory.
    pub fn copy(&self, alloc: Global) -> Result<PathText, AllocError>
        ensures { IfOk result (λ p. p ≡ self.now) }
    {
        let text = String::from_str(alloc, self.text.as_str())?;
        Ok(PathText { text })
    }
}

/// What a value should have been, and where.
#[derive(Debug, Drop)]
pub struct Shape {
    /// The path of the part that is not there, or has another form.
    pub path: PathText,
    /// The form that was wanted of it.
    pub wanted: Wanted,
}

impl Shape {
    /// A copy of the fault. It fails only for want of memory.
    pub fn copy(&self, alloc: Global) -> Result<Shape, AllocError>
        ensures { IfOk result (λ s. s ≡ self.now) }
    {
        let path = self.path.copy(alloc)?;
        Ok(Shape {
            path,
            wanted: self.wanted,
        })
    }
}

/// Why a part of a value was not read.
#[derive(Debug, Drop)]
pub enum ViewFault {
    /// The value has another form than was wanted.
    Shape(Shape),
    /// Memory ran out.
    Memory,
}

impl From<AllocError> for ViewFault {
    ghost use Rattle.json_view.specs.declared.faults.ViewFault.TheVariants.{Memory};

    ghost from_gives = { λ _ e. e ≡ Memory };

    fn from(_error: AllocError) -> ViewFault {
        ViewFault::Memory
    }
}

impl<T: Drop> From<AllocFailed<T>> for ViewFault {
    ghost use Rattle.json_view.specs.declared.faults.ViewFault.TheVariants.{Memory};

    ghost from_gives = { λ _ e. e ≡ Memory };

    fn from(_error: AllocFailed<T>) -> ViewFault {
        ViewFault::Memory
    }
}

impl fmt::Display for ViewFault {
    ghost use Rattle.std.specs.Prelude.{Some};
    ghost use Rattle.json_view.specs.Inner.Words.{fault_text};

    ghost output = { λ e. Some (fault_text e) };

    fn fmt<W: fmt::Write>(&self, f: &mut fmt::Formatter<W>) -> fmt::Result {
        match self {
            ViewFault::Shape(shape) => {
                write!(f, "{}: {} wanted", shape.path.as_str(), shape.wanted.word())
            }
            ViewFault::Memory => write!(f, "out of memory"),
        }
    }
}

impl Error for ViewFault {}
