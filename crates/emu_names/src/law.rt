//! That what several calls raised a count by is what they raised it by together.
ghost use Rattle.std.specs.Prelude.{ℕ, ◌+◌, ◌-◌, ◌^◌, ◌≤◌};
ghost use Rattle.emu_names.specs.Count.{RoseBy, Rose};

/// A law with nothing to run: a count that rose by `j` and then by `k` rose by `j + k`, one that did
/// not fall rose by 0, and one that rose by `j` rose by each smaller number.
pub fn counts_add_up()
    ensures both { (j k a b c : ℕ) → RoseBy j a b → RoseBy k b c → RoseBy (j + k) a c }
    ensures once_more { (k a b c : ℕ) → RoseBy k a b → Rose b c → RoseBy (k + 1) a c }
    ensures none { (a b : ℕ) → a ≤ b → RoseBy 0 a b }
    ensures fewer { (j k a b : ℕ) → j ≤ k → RoseBy k a b → RoseBy j a b }
    ensures later { (k a b : ℕ) → a ≤ 2 ^ 64 - 1 → RoseBy k a b → a ≤ b }
{}
