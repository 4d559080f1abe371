//! What ties the list of a pass to the published list.
ghost use Rattle.std.specs.Prelude.{◌≡◌, ◌<◌, ℕ, false, IsTrue};
ghost use mathlib.Core.List.{IsPrefix};
ghost use Rattle.version_gate.specs.Lists.{Numbered};

use crate::pass::Pass;
use crate::publisher::Publisher;

/// Lets a pass learn the published list, and says whether its number is then the published one. If
/// so, the pass has that list, and every list that it had before begins it; if not, the pass's
/// number is the greater. It takes no memory and waits for nobody.
pub fn catch_up<T: Drop>(publisher: &mut Publisher<T>, pass: &mut Pass<T>) -> bool
    requires gate { publisher.old.gate ≡ pass.old.gate }
    ensures published { publisher.new ≡ publisher.old }
    ensures gate { pass.new.gate ≡ pass.old.gate }
    ensures own { IsPrefix pass.old.list pass.new.list }
    ensures whole { IsPrefix publisher.old.list pass.new.list }
    ensures caught { IsTrue result →
        (pass.new.list ≡ publisher.old.list) × IsPrefix pass.old.list publisher.old.list }
    ensures passed { result ≡ false → (k : ℕ) → Numbered k pass.new.list →
        publisher.old.number < k }
{
    pass.learn(publisher.tell());
    pass.seen() == publisher.number()
}
