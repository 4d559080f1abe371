//! A maker that refuses the calls that it is told to refuse.
ghost use Rattle.std.specs.Prelude.{◌≡◌, ◌≢◌, ◌≤◌, true, false, Contains, Err, IfOk, OnOk};
ghost use Rattle.label_match.specs.Pattern.{are_patterns};
ghost use Rattle.emu_names.specs.Count.{Rose};
ghost use Rattle.emu_names.specs.Inner.Count.{next_count};

use crate::faults::PatternFault;
use crate::maker::PatternMaker;
use crate::pattern::Pattern;
use std::alloc::Global;
use std::marker::Model;

/// Makes patterns as `RegexMaker` does, but refuses the listed calls as too large.
#[derive(Drop)]
pub struct ListMaker {
    calls: u64,
    refuses: Vec<u64>,
    refusals: u64,
}

impl Model for ListMaker {
    ghost use Rattle.label_match.specs.Inner.Maker.{ListedMaker};

    ghost Value = { ListedMaker };

    ghost view = { λ m.
        record { calls = m.calls; refuses = m.refuses.items; refusals = m.refusals } };
}

impl ListMaker {
    /// A maker that refuses the calls whose numbers, counted from 1, are in `refuses`.
    pub fn new(refuses: Vec<u64>) -> ListMaker
        ensures calls { result.calls ≡ 0 }
        ensures refuses { result.refuses ≡ refuses.items }
        ensures refusals { result.refusals ≡ 0 }
    {
        ListMaker {
            calls: 0,
            refuses,
            refusals: 0,
        }
    }

    /// How often a pattern was refused as too large.
    pub fn refusals(&self) -> u64
        ensures { result ≡ self.now.refusals }
    {
        self.refusals
    }
}

impl PatternMaker for ListMaker {
    ghost refusals = { λ m. m.refusals };

    fn compile(&mut self, alloc: Global, text: &str) -> Result<Pattern, PatternFault>
        ensures ok { IfOk result (λ made. made ≡ text.now) }
        ensures read { OnOk result (are_patterns text.now ≡ true) }
        ensures syntax { result ≡ Err PatternFault.Syntax → are_patterns text.now ≡ false }
        ensures size { result ≡ Err PatternFault.Size → Rose self.old.refusals self.new.refusals }
        ensures later { self.old.refusals ≤ self.new.refusals }

        // Each listed call is refused as too large, and nothing else counts as a refusal.
        ensures listed { Contains self.old.refuses (next_count self.old.calls)
            → result ≡ Err PatternFault.Size }
        ensures steady { result ≢ Err PatternFault.Size → self.new.refusals ≡ self.old.refusals }
        ensures counted { self.new.calls ≡ next_count self.old.calls }
        ensures kept { self.new.refuses ≡ self.old.refuses }
    {
        self.calls = self.calls.saturating_add(1);
        if self.refuses.contains(&self.calls) {
            self.refusals = self.refusals.saturating_add(1);
            return Err(PatternFault::Size);
        }
        match Pattern::new(alloc, text) {
            Err(PatternFault::Size) => {
                self.refusals = self.refusals.saturating_add(1);
                Err(PatternFault::Size)
            }
            made => made,
        }
    }
}
