//! The maker that the program uses.
ghost use Rattle.std.specs.Prelude.{◌≡◌, ◌≢◌, ◌≤◌, true, false, Err, IfOk, OnOk};
ghost use Rattle.label_match.specs.Pattern.{are_patterns, is_shallow, read_in};
ghost use Rattle.emu_names.specs.Count.{Rose};

use crate::faults::PatternFault;
use crate::maker::PatternMaker;
use crate::pattern::Pattern;
use std::alloc::Global;
use std::marker::Model;

/// Makes patterns, and counts those that are too large. Contracts see it as that count, which has
/// 64 bits and stands still at its end.
#[derive(Drop)]
pub struct RegexMaker {
    refusals: u64,
}

impl Model for RegexMaker {
    ghost use Rattle.std.specs.Prelude.{ℕ};

    ghost Value = { ℕ };

    ghost view = { λ m. m.refusals };
}

impl RegexMaker {
    /// A maker that has refused no pattern.
    pub fn new() -> RegexMaker
        ensures { result ≡ 0 }
    {
        RegexMaker { refusals: 0 }
    }

    /// How often a pattern was refused as too large.
    pub fn refusals(&self) -> u64
        ensures { result ≡ self.now }
    {
        self.refusals
    }
}

impl PatternMaker for RegexMaker {
    ghost refusals = { λ m. m };

    fn compile(&mut self, alloc: Global, text: &str) -> Result<Pattern, PatternFault>
        ensures ok { IfOk result (λ made. made ≡ text.now) }
        ensures read { OnOk result (are_patterns text.now ≡ true) }
        ensures syntax { result ≡ Err PatternFault.Syntax → are_patterns text.now ≡ false }
        ensures size { result ≡ Err PatternFault.Size → Rose self.old self.new }
        ensures later { self.old ≤ self.new }

        // The grammar reads the text of a pattern that is refused as too large.
        ensures too_large { result ≡ Err PatternFault.Size → is_shallow (read_in text.now) ≡ true }

        // Nothing else counts as a refusal.
        ensures steady { result ≢ Err PatternFault.Size → self.new ≡ self.old }
    {
        match Pattern::new(alloc, text) {
            Ok(made) => Ok(made),
            Err(PatternFault::Syntax) => Err(PatternFault::Syntax),
            Err(PatternFault::Memory) => Err(PatternFault::Memory),
            Err(PatternFault::Size) => {
                self.refusals = self.refusals.saturating_add(1);
                Err(PatternFault::Size)
            }
        }
    }
}
