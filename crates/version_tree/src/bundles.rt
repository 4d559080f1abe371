//! Bundles in the order of their keys: where a key stands among them, and the list with a bundle put at its
//! place or taken out.
ghost use Rattle.std.specs.Prelude.{◌≡◌, ◌≢◌, ◌≤◌, true, false, suc, [], ◌∷◌, length, IfOk, None, option_copied};
ghost use Rattle.std.specs.List.Sorted.{IsPartitionPoint};
ghost use Rattle.edit_rules.specs.Database.{is_before};
ghost use Rattle.version_tree.specs.Inner.Version.{has_key, indexed_with, others, put_indexed};
ghost use Rattle.version_tree.specs.Inner.Pages.{AreRising};
ghost use Rattle.version_tree.specs.Inner.Places.{IsAtMostOneMore, IsGap, has_key_at};
ghost use Rattle.version_tree.specs.Inner.Under.{CanFitAll, fitted_of};
ghost use Rattle.version_tree.specs.Version.{bundles_of};

use crate::splice::spliced;
use bundle_index::Indexed;
use db_config::Config;
use emu_names::{BundleKey, Memory, Series, Shared};
use std::alloc::Global;

/// The places of a list from one to before another one.
#[derive(Clone, Copy)]
struct Gap {
    from: usize,
    to: usize,
}

pub(crate) fn is_before(a: &BundleKey, b: &BundleKey) -> bool
    ensures { result ≡ is_before a.now b.now }
{
    a.cmp(b).is_lt()
}

fn has_key(indexed: &Indexed, key: &BundleKey) -> bool
    ensures { result ≡ has_key key.now indexed.now }
{
    let own = indexed.bundle().key();
    own.session.as_str() == key.session.as_str() && own.bundle.as_str() == key.bundle.as_str()
}

/// How many bundles have a key before this one, found by halving.
fn bundles_before(bundles: &[Shared<Indexed>], key: &BundleKey) -> usize
    requires { AreRising bundles.now }
    ensures within { result ≤ length bundles.now }
    ensures splits { IsPartitionPoint (λ x. is_before x.bundle.key key.now ≡ true)
        (λ x. is_before x.bundle.key key.now ≡ false) bundles.now result }
{
    bundles.partition_point(|indexed| is_before(indexed.as_ref().bundle().key(), key))
}

/// Whether the bundle at a place has this key.
fn has_key_at(bundles: &[Shared<Indexed>], place: usize, key: &BundleKey) -> bool
    ensures { result ≡ has_key_at key.now bundles.now place }
{
    match bundles.get(place) {
        Some(indexed) => has_key(indexed.as_ref(), key),
        None => false,
    }
}

/// Where the bundle of a key stands, or would stand.
fn gap_for(bundles: &[Shared<Indexed>], key: &BundleKey) -> Gap
    requires { AreRising bundles.now }
    ensures { IsGap key.now bundles.now result.from result.to }
{
    let from = bundles_before(bundles, key);
    if has_key_at(bundles, from, key) {
        return Gap { from, to: from + 1 };
    }
    Gap { from, to: from }
}

/// The bundle of a key.
pub(crate) fn bundle_of<'a>(bundles: &'a [Shared<Indexed>], key: &BundleKey) -> Option<&'a Indexed>
    requires { AreRising bundles.now }
    ensures { option_copied result ≡ indexed_with key.now bundles.now }
{
    let gap = gap_for(bundles, key);
    if gap.from < gap.to {
        Some(bundles[gap.from].as_ref())
    } else {
        None
    }
}

/// The list of one bundle. The only refusal is want of memory.
pub(crate) fn only(alloc: Global, new: Indexed) -> Result<Series<Shared<Indexed>>, Memory>
    ensures { IfOk result (λ made. made ≡ new ∷ []) }
{
    let new = Shared::new(alloc, new)?;
    let mut made = Series::new(alloc);
    made.push(new)?;
    Ok(made)
}

/// The bundles with this one in the place of that of its key. The only refusal is want of memory.
pub(crate) fn with(
    alloc: Global,
    bundles: &[Shared<Indexed>],
    new: Indexed,
) -> Result<Series<Shared<Indexed>>, Memory>
    requires { AreRising bundles.now }
    ensures bundles { IfOk result (λ made. made ≡ put_indexed new bundles.now) }
    ensures size { IfOk result (λ made. IsAtMostOneMore bundles.now made) }
{
    let gap = gap_for(bundles, new.bundle().key());
    let new = only(alloc, new)?;
    spliced(alloc, bundles, gap.from, gap.to, new.as_slice())
}

/// The bundles but that of a key, which is there. The only refusal is want of memory.
pub(crate) fn without(
    alloc: Global,
    bundles: &[Shared<Indexed>],
    key: &BundleKey,
) -> Result<Series<Shared<Indexed>>, Memory>
    requires rising { AreRising bundles.now }
    requires there { indexed_with key.now bundles.now ≢ None }
    ensures bundles { IfOk result (λ made. made ≡ others key.now bundles.now) }
    ensures size { IfOk result (λ made. suc (length made) ≡ length bundles.now) }
{
    let gap = gap_for(bundles, key);
    spliced(alloc, bundles, gap.from, gap.to, &[])
}

/// These bundles, each made to fit a configuration. The only refusal is want of memory.
#[tactic(auto, using(crate::proofs::Fitting::none_under, crate::proofs::Fitting::one_under, crate::proofs::Fitting::under_whole, crate::proofs::Fitting::can_fit_at))]
pub(crate) fn under(
    alloc: Global,
    bundles: &[Shared<Indexed>],
    config: &Config,
) -> Result<Series<Shared<Indexed>>, Memory>
    requires { CanFitAll config.now bundles.now }
    ensures { IfOk result (λ made. bundles_of made ≡ fitted_of config.now bundles.now) }
{
    let mut made = Series::new(alloc);
    'bundles: for indexed in bundles {
        let next = indexed.as_ref().fit(alloc, config)?;
        let next = Shared::new(alloc, next)?;
        made.push(next)?;
    }
    Ok(made)
}
