//! Lists of words.
ghost use Rattle.std.specs.Prelude.{◌≡◌, ◌<◌, ◌++◌, ◌∷◌, [], length, slice_get, Some, IfOk, OnOk, OnErr};

use emu_names::{Memory, Text};
use std::alloc::Global;
use std::marker::Model;

/// A list of words, which contracts see as the list of their bytes.
#[derive(Debug, Drop)]
pub struct Words {
    list: Vec<Text>,
}

impl Model for Words {
    ghost use Rattle.std.specs.Prelude.{List, ℕ};

    ghost Value = { List (List ℕ) };

    ghost view = { λ w. w.list.items };
}

impl Words {
    /// No words.
    pub fn new(alloc: Global) -> Words
        ensures { result ≡ [] }
    {
        Words {
            list: Vec::new(alloc),
        }
    }

    /// How many words there are.
    pub fn len(&self) -> usize
        ensures { result ≡ length self.now }
    {
        self.list.len()
    }

    /// The word at a place, counted from 0.
    pub fn get(&self, place: usize) -> &Text
        requires { place < length self.now }
        ensures { slice_get self.now place ≡ Some result.now }
    {
        &self.list[place]
    }

    /// Puts a word last. The only refusal is want of memory, which changes nothing.
    pub fn push(&mut self, word: Text) -> Result<(), Memory>
        ensures ok { OnOk result (self.new ≡ self.old ++ word ∷ []) }
        ensures err { OnErr result (self.new ≡ self.old) }
    {
        self.list.push(word)?;
        Ok(())
    }

    /// The words and one more.
    pub fn with(self, word: Text) -> Result<Words, Memory>
        ensures { IfOk result (λ words. words ≡ self ++ word ∷ []) }
    {
        let mut list = self.list;
        list.push(word)?;
        Ok(Words { list })
    }

    /// The words.
    pub fn as_slice(&self) -> &[Text]
        ensures { result.now ≡ self.now }
    {
        self.list.as_slice()
    }

    /// The same words again. The only refusal is want of memory.
    pub fn copy(&self, alloc: Global) -> Result<Words, Memory>
        ensures { IfOk result (λ made. made ≡ self.now) }
    {
        let list = copied_words(alloc, self.list.as_slice())?;
        Ok(Words { list })
    }
}

/// The same words again.
fn copied_words(alloc: Global, words: &[Text]) -> Result<Vec<Text>, Memory>
    ensures { IfOk result (λ made. made.items ≡ words.now) }
{
    let mut made = Vec::new(alloc);
    for word in words {
        made.push(word.copy(alloc)?)?;
    }
    Ok(made)
}
