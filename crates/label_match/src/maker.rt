//! What makes patterns of texts.
ghost use Rattle.std.specs.Prelude.{◌≡◌, ◌≤◌, ℕ, true, false, Err, IfOk, OnOk};
ghost use Rattle.label_match.specs.Pattern.{are_patterns};
ghost use Rattle.emu_names.specs.Count.{Rose};

use crate::faults::PatternFault;
use crate::pattern::Pattern;
use std::alloc::Global;

/// What makes patterns of texts, and counts those that it refuses for their size.
pub trait PatternMaker {
    /// How often a pattern was refused as too large. It never falls.
    ghost refusals: { Self → ℕ };

    /// Makes the pattern of a text, which is to match whole labels. `Syntax` comes only where the
    /// text, or the text set between `^(?:` and `)$`, is no regular expression or is nested too
    /// deep. `Size` comes only where the count of refusals rose in this call.
    fn compile(&mut self, alloc: Global, text: &str) -> Result<Pattern, PatternFault>
        ensures ok { IfOk result (λ made. made ≡ text.now) }
        ensures read { OnOk result (are_patterns text.now ≡ true) }
        ensures syntax { result ≡ Err PatternFault.Syntax → are_patterns text.now ≡ false }
        ensures size { result ≡ Err PatternFault.Size
            → Rose (refusals self.old) (refusals self.new) }
        ensures later { refusals self.old ≤ refusals self.new };
}
