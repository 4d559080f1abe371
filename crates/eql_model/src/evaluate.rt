//! The tuples of a query in a bundle, worked out plainly.
ghost use Rattle.std.specs.Prelude.{◌≡◌, map};
ghost use Rattle.bundle_state.specs.Built.{FitsConfig};
ghost use Rattle.eql_resolve.specs.Asked.{AreOnOneLevel, dominance, is_marked, level_of, terms};
ghost use Rattle.eql_resolve.specs.Sound.{IsQueryOf};
ghost use Rattle.eql_resolve.specs.Inner.View.{query_in, term_in};
ghost use Rattle.eql_tuples.specs.Inner.Sets.{GivesSet};
ghost use Rattle.eql_model.specs.Meaning.{tuples};
ghost use Rattle.eql_model.specs.Inner.Meaning.{Finds};

use crate::conjunction::conjunction;
use crate::pairs::{covered, sequence};
use bundle_state::Bundle;
use db_config::Config;
use eql_resolve::{AskedQuery, AskedTerm};
use eql_tuples::{MatchFault, Tuple, Tuples};
use std::alloc::Global;

/// The tuples of a conjunction on a level, of which a condition is marked or none is.
fn conjunction_tuples(
    alloc: Global,
    config: &Config,
    bundle: &Bundle,
    level: usize,
    marked: bool,
    conditions: &[AskedTerm],
) -> Result<Tuples, MatchFault>
    requires fits { FitsConfig config.now bundle.now }
    requires within { IsQueryOf config.now (terms (map term_in conditions.now)) }
    requires one_level { AreOnOneLevel (terms (map term_in conditions.now)) }
    requires level { level ≡ level_of (terms (map term_in conditions.now)) }
    requires marked { marked ≡ is_marked (terms (map term_in conditions.now)) }
    ensures { Finds result config.now bundle.now (terms (map term_in conditions.now)) }
{
    let _items = bundle.item_count();
    match conjunction(alloc, config, bundle, level, marked, conditions) {
        Ok(made) => Ok(made),
        Err(_) => Err(MatchFault::Memory),
    }
}

/// The tuples of a dominance, from those of its two parts.
fn dominance_tuples(
    alloc: Global,
    config: &Config,
    bundle: &Bundle,
    left: &AskedQuery,
    right: &AskedQuery,
    lefts: &[Tuple],
    rights: &[Tuple],
) -> Result<Tuples, MatchFault>
    requires fits { FitsConfig config.now bundle.now }
    requires left { IsQueryOf config.now (query_in left.now) }
    requires right { IsQueryOf config.now (query_in right.now) }
    requires left_level { AreOnOneLevel (query_in left.now) }
    requires right_level { AreOnOneLevel (query_in right.now) }
    requires lefts { lefts.now ≡ tuples config.now bundle.now (query_in left.now) }
    requires rights { rights.now ≡ tuples config.now bundle.now (query_in right.now) }
    ensures { GivesSet result (tuples config.now bundle.now
        (dominance (query_in left.now) (query_in right.now))) }
{
    let levels = (left.level(), right.level());
    covered(alloc, config, bundle, levels, lefts, rights)
}

/// The set of the tuples of a query. `TooManyTuples` comes exactly where the query or some part of it
/// has over 1,000,000 tuples; the only other refusal is want of memory.
pub(crate) fn evaluate(
    alloc: Global,
    config: &Config,
    bundle: &Bundle,
    query: &AskedQuery,
) -> Result<Tuples, MatchFault>
    requires fits { FitsConfig config.now bundle.now }
    requires within { IsQueryOf config.now (query_in query.now) }
    requires one_level { AreOnOneLevel (query_in query.now) }
    ensures { Finds result config.now bundle.now (query_in query.now) }
{
    let level = query.level();
    let marked = query.is_marked();
    match query {
        AskedQuery::Terms(conditions) => {
            conjunction_tuples(alloc, config, bundle, level, marked, conditions.as_slice())
        }
        AskedQuery::Sequence(left, right) => {
            let lefts = match evaluate(alloc, config, bundle, left) {
                Ok(found) => found,
                Err(fault) => return Err(fault),
            };
            let rights = match evaluate(alloc, config, bundle, right) {
                Ok(found) => found,
                Err(fault) => return Err(fault),
            };
            sequence(alloc, lefts.as_slice(), rights.as_slice())
        }
        AskedQuery::Dominance(left, right) => {
            let lefts = match evaluate(alloc, config, bundle, left) {
                Ok(found) => found,
                Err(fault) => return Err(fault),
            };
            let rights = match evaluate(alloc, config, bundle, right) {
                Ok(found) => found,
                Err(fault) => return Err(fault),
            };
            dominance_tuples(
                alloc,
                config,
                bundle,
                left,
                right,
                lefts.as_slice(),
                rights.as_slice(),
            )
        }
    }
}
