//! The search for one pattern in label after label.
ghost use Rattle.std.specs.Prelude.{◌≡◌};
ghost use Rattle.label_match.specs.Pattern.{matches_label};

use crate::pattern::Pattern;
use regex::Matcher;
use std::marker::Model;

/// Asks label after label whether one pattern matches it. What a search needs besides the pattern
/// is made once, and kept from label to label. Contracts see it as the bytes of the pattern's text.
#[derive(Drop)]
pub struct Matching<'p> {
    pub(crate) pattern: &'p Pattern,
    pub(crate) matcher: Matcher<'p>,
}

impl<'p> Model for Matching<'p> {
    ghost use Rattle.std.specs.Prelude.{List, ℕ};
    ghost use Rattle.regex.specs.Strings.{matcher_pattern};
    ghost use Rattle.label_match.specs.Inner.Kept.{Tells};

    ghost Value = { List ℕ };

    ghost view = { λ m. m.pattern.now };

    ghost invariant = { λ m. Tells m.pattern.now (matcher_pattern m.matcher) };
}

impl<'p> Matching<'p> {
    /// Whether the pattern matches the whole label, as `Pattern::matches` says it.
    pub fn matches(&mut self, label: &str) -> bool
        ensures found { result ≡ matches_label self.old label.now }
        ensures same { self.new ≡ self.old }
    {
        self.matcher.is_match(label)
    }
}
