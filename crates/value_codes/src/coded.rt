//! Values with a code: how many bytes it has, how it is written, and how it is read.
ghost use Rattle.std.specs.Prelude.{◌≡◌, ◌<◌, ◌^◌, ◌++◌, length, min, OnOk};
ghost use Rattle.byte_forms.specs.Forms.{Form};
ghost use Rattle.byte_forms.specs.Parts.{pair};
ghost use Rattle.byte_forms.specs.Inner.Reading.{Gives};

use byte_forms::{CODE_LIMIT, CodeBytes, ReadFault, Rest};
use emu_names::Memory;
use std::alloc::Global;

/// A value that can be written as its code.
pub trait Coded: Drop {
    ghost form: { Form Self };

    /// How many bytes the code has, or 2^32 where it has as many or more. It takes no memory. A value whose code is
    /// shorter has a code.
    fn size(&self) -> u64
        ensures len { result ≡ min (2 ^ 32) (length (form.code self.now)) }
        ensures some { 0 < result }
        ensures fits { result < 2 ^ 32 → form.fits self.now };

    /// Writes the code behind `out`. The only refusal is want of memory.
    fn put(&self, out: &mut CodeBytes) -> Result<(), Memory>
        ensures { OnOk result (out.new ≡ out.old ++ form.code self.now) };
}

/// A value that can be read from its code.
pub trait Readable: Drop {
    ghost form: { Form Self };

    /// The value whose code the bytes begin with, which are then behind it. `Left` comes where they begin with none,
    /// with how many bytes are left from the first that cannot stand there.
    fn read(alloc: Global, from: &mut Rest<'_>) -> Result<Self, ReadFault>
        ensures { Gives result from.new (form.read from.old) };
}

/// Writes two values, one behind the other. The only refusal is want of memory.
#[tactic(auto, unfolding(byte_forms::specs::Parts::pair))]
pub fn put_both<A: Coded, B: Coded>(
    first: &A,
    second: &B,
    out: &mut CodeBytes,
) -> Result<(), Memory>
    ensures { OnOk result (out.new ≡ out.old ++ (pair A.form B.form).code (first.now, second.now)) }
{
    first.put(out)?;
    second.put(out)
}

/// How many bytes the codes of two values have, or 2^32 where they have as many or more.
#[tactic(auto, unfolding(byte_forms::specs::Parts::pair))]
pub fn size_of_both<A: Coded, B: Coded>(first: &A, second: &B) -> u64
    ensures len { result ≡ min (2 ^ 32) (length ((pair A.form B.form).code (first.now, second.now))) }
    ensures some { 0 < result }
    ensures fits { result < 2 ^ 32 → (pair A.form B.form).fits (first.now, second.now) }
{
    (first.size() + second.size()).min(CODE_LIMIT)
}

/// Writes three values, one behind another. The only refusal is want of memory.
#[tactic(auto, unfolding(byte_forms::specs::Parts::pair))]
pub fn put_three<A: Coded, B: Coded, C: Coded>(
    first: &A,
    second: &B,
    third: &C,
    out: &mut CodeBytes,
) -> Result<(), Memory>
    ensures { OnOk result
        (out.new ≡ out.old ++ (pair A.form (pair B.form C.form)).code (first.now, (second.now, third.now))) }
{
    first.put(out)?;
    put_both(second, third, out)
}

/// How many bytes the codes of three values have, or 2^32 where they have as many or more.
#[tactic(auto, unfolding(byte_forms::specs::Parts::pair))]
pub fn size_of_three<A: Coded, B: Coded, C: Coded>(first: &A, second: &B, third: &C) -> u64
    ensures len { result
        ≡ min (2 ^ 32) (length ((pair A.form (pair B.form C.form)).code (first.now, (second.now, third.now)))) }
    ensures some { 0 < result }
    ensures fits { result < 2 ^ 32
        → (pair A.form (pair B.form C.form)).fits (first.now, (second.now, third.now)) }
{
    (first.size() + size_of_both(second, third)).min(CODE_LIMIT)
}

/// Two values that are read one behind the other.
impl<A: Readable, B: Readable> Readable for (A, B) {
    ghost form = { pair A.form B.form };

    #[tactic(auto, unfolding(byte_forms::specs::Parts::pair))]
    fn read(alloc: Global, from: &mut Rest<'_>) -> Result<(A, B), ReadFault> {
        let first = A::read(alloc, from)?;
        let second = B::read(alloc, from)?;
        Ok((first, second))
    }
}
