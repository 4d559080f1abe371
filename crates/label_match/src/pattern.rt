//! A pattern that matches whole labels.
ghost use Rattle.std.specs.Prelude.{◌≡◌, true, false, Err, IfOk, OnOk};
ghost use Rattle.regex.specs.Patterns.{default_config};
ghost use Rattle.regex.specs.Strings.{regex_source, regex_config, IsReadFromSource};
ghost use Rattle.label_match.specs.Pattern.{are_patterns, is_shallow, matches_label, read_in};

use crate::faults::{Memory, PatternFault};
use crate::matching::Matching;
use regex::{Error, Regex};
use std::alloc::Global;
use std::marker::Model;

/// A pattern of labels, which contracts see as the bytes of its text.
#[derive(Drop)]
pub struct Pattern {
    text: String,
    whole: Regex,
}

impl Model for Pattern {
    ghost use Rattle.std.specs.Prelude.{List, ℕ, string_bytes};
    ghost use Rattle.label_match.specs.Inner.Kept.{IsOfText};

    ghost Value = { List ℕ };

    ghost view = { λ p. string_bytes p.text };

    ghost invariant = { λ p. IsOfText (string_bytes p.text) p.whole };
}

impl Pattern {
    /// The pattern of a text.
    pub(crate) fn new(alloc: Global, text: &str) -> Result<Pattern, PatternFault>
        ensures ok { IfOk result (λ made. made ≡ text.now) }
        ensures read { OnOk result (are_patterns text.now ≡ true) }
        ensures syntax { result ≡ Err PatternFault.Syntax → are_patterns text.now ≡ false }
        ensures size { result ≡ Err PatternFault.Size → is_shallow (read_in text.now) ≡ true }
    {
        let _alone = regex_of(alloc, text)?;
        let set = format!(in alloc; "^(?:{text})$")?;
        let whole = regex_of(alloc, set.as_str())?;
        let text = String::from_str(alloc, text)?;
        Ok(Pattern { text, whole })
    }

    /// The text that the pattern was made of.
    pub fn as_str(&self) -> &str
        ensures { result.now ≡ self.now }
    {
        self.text.as_str()
    }

    /// Whether the pattern matches the whole label: whether the regular expression that is read in
    /// its text, set between `^(?:` and `)$`, is found in the label. The only refusal is want of
    /// memory.
    pub fn matches(&self, alloc: Global, label: &str) -> Result<bool, Memory>
        ensures { IfOk result (λ found. found ≡ matches_label self.now label.now) }
    {
        let mut matching = self.matcher(alloc)?;
        Ok(matching.matches(label))
    }

    /// What asks label after label whether the pattern matches it. The only refusal is want of
    /// memory.
    pub fn matcher(&self, alloc: Global) -> Result<Matching<'_>, Memory>
        ensures { IfOk result (λ made. made ≡ self.now) }
    {
        let matcher = self.whole.matcher(alloc)?;
        Ok(Matching {
            pattern: self,
            matcher,
        })
    }
}

/// The regular expression of a text, under the options that a regular expression has by itself.
fn regex_of(alloc: Global, source: &str) -> Result<Regex, PatternFault>
    ensures source { IfOk result (λ made. regex_source made ≡ source.now) }
    ensures config { IfOk result (λ made. regex_config made ≡ default_config) }
    ensures made { IfOk result IsReadFromSource }
    ensures read { OnOk result (is_shallow (read_in source.now) ≡ true) }
    ensures syntax { result ≡ Err PatternFault.Syntax → is_shallow (read_in source.now) ≡ false }
    ensures size { result ≡ Err PatternFault.Size → is_shallow (read_in source.now) ≡ true }
{
    match Regex::new(alloc, source) {
        Ok(made) => Ok(made),
        Err(Error::Syntax(_)) => Err(PatternFault::Syntax),
        Err(Error::OutOfMemory) => Err(PatternFault::Memory),
        Err(Error::CompiledTooBig) => Err(PatternFault::Size),
        Err(Error::Internal) => Err(PatternFault::Size),
    }
}

/// What may be sent to a thread and shared by threads.
fn crosses<T: Send + Sync>() {}

/// A pattern may be sent to a thread and shared by threads.
pub fn patterns_cross_threads() {
    crosses::<Pattern>();
}
