//! What a folder stores at its paths.
ghost use Rattle.std.specs.Prelude.{◌≡◌, IfOk, None, Some};

use crate::entries::FileBytes;
use crate::faults::Memory;
use std::alloc::Global;
use std::marker::Model;

/// The path of a file or folder, whose parts are joined by `/`. Contracts see it as the list of its
/// bytes in UTF-8.
#[derive(Debug, Drop)]
pub struct FilePath {
    text: String,
}

impl Model for FilePath {
    ghost use Rattle.std.specs.Prelude.{List, ℕ, string_bytes};

    ghost Value = { List ℕ };

    ghost view = { λ p. string_bytes p.text };
}

impl FilePath {
    /// The path `text`. The only refusal is want of memory.
    pub fn new(alloc: Global, text: &str) -> Result<FilePath, Memory>
        ensures { IfOk result (λ made. made ≡ text.now) }
    {
        let text = String::from_str(alloc, text)?;
        Ok(FilePath { text })
    }

    /// The path as text.
    pub fn as_str(&self) -> &str
        ensures { result.now ≡ self.now }
    {
        self.text.as_str()
    }
}

/// What is stored at a path of a folder in memory.
#[derive(Debug, Drop)]
pub struct Stored {
    /// The path.
    pub path: FilePath,
    /// The bytes of a file, or none for a folder.
    pub bytes: Option<FileBytes>,
}

impl Stored {
    /// A file of these bytes at a path. The only refusal is want of memory.
    pub fn file(alloc: Global, path: &str, bytes: &[u8]) -> Result<Stored, Memory>
        ensures path { IfOk result (λ made. made.path ≡ path.now) }
        ensures bytes { IfOk result (λ made. made.bytes ≡ Some bytes.now) }
    {
        let bytes = FileBytes::from_slice(alloc, bytes)?;
        let path = FilePath::new(alloc, path)?;
        Ok(Stored {
            path,
            bytes: Some(bytes),
        })
    }

    /// A folder at a path. A path with more parts makes folders of the paths above it by itself. The
    /// only refusal is want of memory.
    pub fn folder(alloc: Global, path: &str) -> Result<Stored, Memory>
        ensures path { IfOk result (λ made. made.path ≡ path.now) }
        ensures bytes { IfOk result (λ made. made.bytes ≡ None) }
    {
        let path = FilePath::new(alloc, path)?;
        Ok(Stored { path, bytes: None })
    }
}
