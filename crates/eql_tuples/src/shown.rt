//! What tuples show of themselves, each stretch once.
ghost use Rattle.std.specs.Prelude.{◌≡◌, ◌<◌, true, false, Err, OnOk};
ghost use Rattle.std.specs.List.{flat_map};
ghost use Rattle.eql_tuples.specs.Sets.{each_once, is_over, put_all};
ghost use Rattle.eql_tuples.specs.Inner.Sets.{GivesSet};
ghost use Rattle.eql_tuples.specs.Shown.{bare, shown};

use crate::faults::MatchFault;
use crate::gathered::Gathered;
use crate::tuple::{Tuple, Tuples};
use std::alloc::Global;

/// A stretch without a mark, by the positions of its first and its last item.
pub fn bare(first: u32, last: u32) -> Tuple
    ensures { result ≡ bare first last }
{
    Tuple {
        first,
        last,
        mark: None,
    }
}

/// Puts in what a tuple shows: its marked item, where the query has a mark, else its stretch.
fn put_shown(gathered: &mut Gathered, marked: bool, tuple: Tuple) -> Result<(), MatchFault>
    requires room { is_over gathered.old ≡ false }
    ensures ok { OnOk result (gathered.new ≡ put_all gathered.old (shown marked tuple)) }
    ensures fits { OnOk result (is_over gathered.new ≡ false) }
    ensures over { result ≡ Err MatchFault.TooManyTuples
        → is_over (put_all gathered.old (shown marked tuple)) ≡ true }
{
    if !marked {
        return gathered.put(bare(tuple.first, tuple.last));
    }
    match tuple.mark {
        Some(at) => gathered.put(bare(at, at)),
        None => Ok(()),
    }
}

/// Puts in what these tuples show.
fn gather_shown(gathered: &mut Gathered, marked: bool, tuples: &[Tuple]) -> Result<(), MatchFault>
    requires room { is_over gathered.old ≡ false }
    ensures ok { OnOk result
        (gathered.new ≡ put_all gathered.old (flat_map (shown marked) tuples.now)) }
    ensures fits { OnOk result (is_over gathered.new ≡ false) }
    ensures over { result ≡ Err MatchFault.TooManyTuples
        → is_over (put_all gathered.old (flat_map (shown marked) tuples.now)) ≡ true }
{
    for tuple in tuples {
        match put_shown(gathered, marked, *tuple) {
            Ok(()) => {}
            Err(fault) => return Err(fault),
        }
    }
    Ok(())
}

/// The set of what these tuples show.
pub fn shown_once(alloc: Global, marked: bool, tuples: &[Tuple]) -> Result<Tuples, MatchFault>
    ensures { GivesSet result (each_once (flat_map (shown marked) tuples.now)) }
{
    let mut gathered = Gathered::new(alloc);
    match gather_shown(&mut gathered, marked, tuples) {
        Ok(()) => {}
        Err(fault) => return Err(fault),
    }
    match gathered.into_listed() {
        Ok(made) => Ok(made),
        Err(_) => Err(MatchFault::Memory),
    }
}
