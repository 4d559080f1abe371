//! The ids that the items of an annotation have taken.
ghost use Rattle.std.specs.Prelude.{◌≡◌, ℕ, [], ◌∷◌, ◌++◌, not, nat_eq, IfOk, OnOk};
ghost use Rattle.std.specs.List.{list_any};

use emu_names::{ItemId, Memory};
use std::alloc::Global;
use std::collections::HashSet;
use std::marker::Model;

/// A set of ids, which contracts see as a list whose order says nothing.
#[derive(Drop)]
pub(crate) struct UsedIds {
    ids: HashSet<u32>,
}

impl Model for UsedIds {
    ghost use Rattle.std.specs.Prelude.{List, ℕ};

    ghost Value = { List ℕ };

    ghost view = { λ t. t.ids.keys };
}

impl UsedIds {
    /// No id, in a set that grows by `alloc`.
    pub(crate) fn new(alloc: Global) -> UsedIds
        ensures { result ≡ [] }
    {
        UsedIds {
            ids: HashSet::new(alloc),
        }
    }

    /// Puts an id in, and answers whether it was not there before. The only refusal is want of memory.
    pub(crate) fn take(&mut self, id: ItemId) -> Result<bool, Memory>
        ensures fresh { IfOk result (λ fresh. fresh ≡ not (list_any (nat_eq id.0) self.old)) }
        ensures taken { OnOk result
            ((q : ℕ) → list_any (nat_eq q) self.new ≡ list_any (nat_eq q) (self.old ++ id.0 ∷ [])) }
    {
        let fresh = self.ids.insert(id.0)?;
        Ok(fresh)
    }
}
