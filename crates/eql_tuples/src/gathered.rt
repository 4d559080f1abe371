//! A set of tuples that grows, up to 1,000,000 of them.
ghost use Rattle.std.specs.Prelude.{◌≡◌, [], ◌∷◌, true, false, Err, IfOk, OnOk};
ghost use Rattle.eql_tuples.specs.Sets.{put_all, is_over};

use crate::faults::MatchFault;
use crate::kept::Kept;
use crate::tuple::{Tuple, Tuples};
use emu_names::limits::TUPLES;
use emu_names::{Memory, Series};
use std::alloc::Global;
use std::marker::Model;

/// A set of tuples, which contracts see as the list of its tuples in order.
#[derive(Drop)]
pub struct Gathered {
    kept: Kept,
    alloc: Global,
}

impl Model for Gathered {
    ghost use Rattle.std.specs.Prelude.{List};
    ghost use Rattle.eql_tuples.specs.declared.tuple.Tuple.{Tuple};

    ghost Value = { List Tuple };

    ghost use Rattle.eql_tuples.specs.Inner.Kept.{kept_tuples, IsInOrder};

    ghost view = { λ s. kept_tuples s.kept };

    ghost invariant = { λ s. IsInOrder s.kept };
}

impl Gathered {
    /// No tuple. The set grows by `alloc`.
    pub fn new(alloc: Global) -> Gathered
        ensures { result ≡ [] }
    {
        Gathered {
            kept: Kept::Rising(Series::new(alloc)),
            alloc,
        }
    }

    /// Puts a tuple in, unless it is there. `TooManyTuples` comes exactly where there are over 1,000,000
    /// then.
    pub fn put(&mut self, tuple: Tuple) -> Result<(), MatchFault>
        ensures ok { OnOk result (self.new ≡ put_all self.old (tuple ∷ [])) }
        ensures fits { OnOk result (is_over self.new ≡ false) }
        ensures over { result ≡ Err MatchFault.TooManyTuples
            → is_over (put_all self.old (tuple ∷ [])) ≡ true }
    {
        match self.kept.put(self.alloc, tuple) {
            Ok(()) => {}
            Err(_) => return Err(MatchFault::Memory),
        }
        if self.kept.len() > TUPLES {
            return Err(MatchFault::TooManyTuples);
        }
        Ok(())
    }

    /// The tuples in order, in place of the set. The only refusal is want of memory.
    pub fn into_listed(self) -> Result<Tuples, Memory>
        ensures { IfOk result (λ list. list ≡ self) }
    {
        let Gathered { kept, alloc } = self;
        kept.into_listed(alloc)
    }
}
