//! How a set of tuples is kept: as a list while the tuples come in order, else as a tree.
ghost use Rattle.std.specs.Prelude.{◌≡◌, length, IfOk, OnOk};
ghost use Rattle.std.specs.declared.cmp.Ordering.TheVariants.{Greater};
ghost use Rattle.std.specs.BTreeSet.{insert_key};
ghost use Rattle.eql_tuples.specs.Sets.{each_once, tuple_cmp};
ghost use Rattle.eql_tuples.specs.Inner.Kept.{kept_tuples, order_behind, IsInOrder};

use crate::tuple::{Tuple, Tuples};
use emu_names::{Memory, Series};
use std::alloc::Global;
use std::cmp::Ordering;
use std::collections::BTreeSet;

/// The tuples of a set.
#[derive(Drop)]
pub(crate) enum Kept {
    /// Each came behind the ones that were there, so the list is in order.
    Rising(Tuples),
    /// Some came before one that was there.
    Mixed(BTreeSet<Tuple>),
}

/// How a tuple compares with the last one of a list. It comes behind a list of no tuple.
fn order_behind(list: &[Tuple], tuple: Tuple) -> Ordering
    ensures { result ≡ order_behind tuple Greater list.now }
{
    match list.last() {
        Some(last) => tuple.cmp(last),
        None => Ordering::Greater,
    }
}

/// The set of some tuples. The only refusal is want of memory.
fn set_of(alloc: Global, list: &[Tuple]) -> Result<BTreeSet<Tuple>, Memory>
    ensures { IfOk result (λ set. set.keys ≡ each_once list.now) }
{
    let mut set = BTreeSet::new(alloc);
    for tuple in list {
        set.insert(*tuple)?;
    }
    Ok(set)
}

/// The tuples of a set, in order. The only refusal is want of memory.
fn listed(alloc: Global, set: &BTreeSet<Tuple>) -> Result<Tuples, Memory>
    ensures { IfOk result (λ list. list ≡ set.now.keys) }
{
    let mut list = Series::from_vec(Vec::with_capacity(alloc, set.len())?);
    for tuple in set {
        list.push(*tuple)?;
    }
    Ok(list)
}

impl Kept {
    /// How many tuples there are.
    pub(crate) fn len(&self) -> usize
        ensures { result ≡ length (kept_tuples self.now) }
    {
        match self {
            Kept::Rising(list) => list.len(),
            Kept::Mixed(set) => set.len(),
        }
    }

    /// Puts a tuple in, unless it is there. The only refusal is want of memory, which changes nothing.
    pub(crate) fn put(&mut self, alloc: Global, tuple: Tuple) -> Result<(), Memory>
        requires order { IsInOrder self.old }
        ensures ok { OnOk result
            (kept_tuples self.new ≡ insert_key tuple_cmp (kept_tuples self.old) tuple) }
        ensures order { IsInOrder self.new }
    {
        match self {
            Kept::Rising(list) => match order_behind(list.as_slice(), tuple) {
                Ordering::Greater => list.push(tuple),
                Ordering::Equal => Ok(()),
                Ordering::Less => {
                    let mut set = set_of(alloc, list.as_slice())?;
                    set.insert(tuple)?;
                    *self = Kept::Mixed(set);
                    Ok(())
                }
            },
            Kept::Mixed(set) => {
                set.insert(tuple)?;
                Ok(())
            }
        }
    }

    /// The tuples in order, in place of this set. The only refusal is want of memory.
    pub(crate) fn into_listed(self, alloc: Global) -> Result<Tuples, Memory>
        ensures { IfOk result (λ list. list ≡ kept_tuples self) }
    {
        match self {
            Kept::Rising(list) => Ok(list),
            Kept::Mixed(set) => listed(alloc, &set),
        }
    }
}
