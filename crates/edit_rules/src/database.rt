//! A database, valid by its type.
ghost use Rattle.std.specs.Prelude.{◌≡◌, ◌<◌, ◌≤◌, true, false, ◌+◌, All, IsTrue, map, length, insert, remove, slice_set, IfOk, IfSome, OnErr, OnOk, Some, option_copied};
ghost use Rattle.std.specs.List.{slice_get};
ghost use Rattle.std.specs.List.Sorted.{IsPartitionPoint};
ghost use Rattle.bundle_state.specs.Built.{FitsConfig};
ghost use Rattle.bundle_state.specs.Fitted.{CanFit, fitted};
ghost use Rattle.db_config.specs.Extends.{Extends};
ghost use Rattle.db_config.specs.Valid.{is_valid};
ghost use Rattle.edit_rules.specs.Effects.{fitted_database};
ghost use Rattle.edit_rules.specs.Database.{empty_database, with_bundles, is_before, same_key, bundle_with, all_items, counts_of, KeepsDatabaseRules};
ghost use Rattle.edit_rules.specs.Inner.KeyPlaces.{IsKeyPlace, IsPlaceIn, has_key_at, found_at, put_at};

use bundle_edits::Counts;
use bundle_state::Bundle;
use db_config::Config;
use emu_names::{BundleKey, Memory, PlainData, Series, Shared};
use std::alloc::Global;
use std::marker::Model;

/// Where the bundle of a key stands in the order of keys.
#[derive(Clone, Copy, Debug, PartialEq, Eq)]
pub(crate) enum KeyPlace {
    /// At this place.
    At(usize),
    /// Nowhere; a bundle of this key would go to this place.
    Free(usize),
}

fn same_key(a: &BundleKey, b: &BundleKey) -> bool
    ensures { result ≡ same_key a.now b.now }
{
    a.session.as_str() == b.session.as_str() && a.bundle.as_str() == b.bundle.as_str()
}

fn is_before(a: &BundleKey, b: &BundleKey) -> bool
    ensures { result ≡ is_before a.now b.now }
{
    a.cmp(b).is_lt()
}

/// A database: its configuration, and its bundles in the order of their keys.
///
/// It always keeps the rules: the configuration's; at most 10,000 bundles, which have the configuration's
/// levels and link definitions and keep the rules of bundles; and at most 2,000,000 items together. A
/// bundle is found by halving, and the items are counted once. The configuration and the list of bundles
/// are shared with copies; the list is copied by the first edit behind a copy.
#[derive(Drop)]
pub struct Database {
    config: Shared<Config>,
    list: Shared<Series<Shared<Bundle>>>,
    items: usize,
}

impl Model for Database {
    ghost use Rattle.edit_rules.specs.Database.{DatabaseParts};

    ghost Value = { DatabaseParts };

    ghost use Rattle.edit_rules.specs.Inner.Kept.{IsKept};

    ghost view = { λ d. record { config = d.config; bundles = d.list } };

    ghost invariant = { λ d. IsKept (record { config = d.config; bundles = d.list }) d.items };
}

impl Database {
    /// The database of a configuration, without bundles. The only refusal is want of memory.
    pub fn new(alloc: Global, config: Config) -> Result<Database, Memory>
        ensures { IfOk result (λ made. made ≡ empty_database config) }
    {
        let _parts = config.parts();
        let config = Shared::new(alloc, config)?;
        let list = Shared::new(alloc, Series::new(alloc))?;
        Ok(Database {
            config,
            list,
            items: 0,
        })
    }

    /// The configuration.
    pub fn config(&self) -> &Config
        ensures { result.now ≡ self.now.config }
    {
        self.config.as_ref()
    }

    /// How many bundles there are. Whoever asks may rely on the rules of databases.
    pub fn len(&self) -> usize
        ensures length { result ≡ length self.now.bundles }
        ensures rules { KeepsDatabaseRules self.now }
    {
        self.list.as_ref().len()
    }

    /// The bundle at a place, counted from 0.
    pub fn at(&self, place: usize) -> &Bundle
        requires { place < length self.now.bundles }
        ensures { slice_get self.now.bundles place ≡ Some result.now }
    {
        self.list.as_ref().get(place).as_ref()
    }

    /// How many bundles have a key before this one.
    fn bundles_before(&self, key: &BundleKey) -> usize
        ensures within { result ≤ length self.now.bundles }
        ensures splits { IsPartitionPoint (λ b. is_before b.key key.now ≡ true)
            (λ b. is_before b.key key.now ≡ false) self.now.bundles result }
    {
        let bundles = self.list.as_ref().as_slice();
        bundles.partition_point(|bundle| is_before(bundle.as_ref().key(), key))
    }

    /// Whether the bundle at a place has this key.
    fn has_key_at(&self, place: usize, key: &BundleKey) -> bool
        ensures { result ≡ has_key_at key.now self.now.bundles place }
    {
        match self.list.as_ref().as_slice().get(place) {
            Some(bundle) => same_key(bundle.as_ref().key(), key),
            None => false,
        }
    }

    /// Where the bundle of this key stands, or would stand, found by halving.
    pub(crate) fn place_of(&self, key: &BundleKey) -> KeyPlace
        ensures place { IsKeyPlace key.now self.now.bundles result }
        ensures within { IsPlaceIn self.now.bundles result }
    {
        let _count = self.len();
        let place = self.bundles_before(key);
        if self.has_key_at(place, key) {
            return KeyPlace::At(place);
        }
        KeyPlace::Free(place)
    }

    /// The bundle of this key.
    pub fn bundle(&self, key: &BundleKey) -> Option<&Bundle>
        ensures bundle { option_copied result ≡ bundle_with key.now self.now.bundles }
        ensures fits { IfSome (option_copied result) (λ b. FitsConfig self.now.config b) }
    {
        let _count = self.len();
        match self.place_of(key) {
            KeyPlace::At(place) => Some(self.at(place)),
            KeyPlace::Free(_) => None,
        }
    }

    /// The bundle at the place of a key.
    pub(crate) fn bundle_at(&self, place: &KeyPlace) -> Option<&Bundle>
        requires { IsPlaceIn self.now.bundles place.now }
        ensures bundle { option_copied result ≡ found_at self.now.bundles place.now }
        ensures fits { IfSome (option_copied result) (λ b. FitsConfig self.now.config b) }
    {
        let _count = self.len();
        match place {
            KeyPlace::At(place) => Some(self.at(*place)),
            KeyPlace::Free(_) => None,
        }
    }

    /// How many bundles there are, and how many items together.
    pub(crate) fn counts(&self) -> Counts
        ensures { result ≡ counts_of self.now.bundles }
    {
        Counts {
            bundles: self.list.as_ref().len() as u32,
            items: self.items as u32,
        }
    }

    /// Puts a bundle in the place of one that stands there.
    fn replace(&mut self, alloc: Global, place: usize, new: Bundle) -> Result<(), Memory>
        requires within { place < length self.old.bundles }
        requires rules { KeepsDatabaseRules (with_bundles self.old
            (slice_set self.old.bundles place new)) }
        ensures ok { OnOk result (self.new ≡ with_bundles self.old
            (slice_set self.old.bundles place new)) }
        ensures err { OnErr result (self.new ≡ self.old) }
    {
        let others = self.items_beside(place);
        let items = others + new.item_count();
        let new = Shared::new(alloc, new)?;
        self.list.set(place, new)?;
        self.items = items;
        Ok(())
    }

    /// Takes the bundle at a place out.
    fn take_out(&mut self, place: usize) -> Result<(), Memory>
        requires within { place < length self.old.bundles }
        requires rules { KeepsDatabaseRules (with_bundles self.old
            (remove self.old.bundles place)) }
        ensures ok { OnOk result (self.new ≡ with_bundles self.old
            (remove self.old.bundles place)) }
        ensures err { OnErr result (self.new ≡ self.old) }
    {
        let others = self.items_beside(place);
        self.list.remove(place)?;
        self.items = others;
        Ok(())
    }

    /// Puts a new bundle at a place.
    fn put_in(&mut self, alloc: Global, place: usize, new: Bundle) -> Result<(), Memory>
        requires within { place ≤ length self.old.bundles }
        requires rules { KeepsDatabaseRules (with_bundles self.old
            (insert self.old.bundles place new)) }
        ensures ok { OnOk result (self.new ≡ with_bundles self.old
            (insert self.old.bundles place new)) }
        ensures err { OnErr result (self.new ≡ self.old) }
    {
        let items = self.items + new.item_count();
        let new = Shared::new(alloc, new)?;
        self.list.insert(place, new)?;
        self.items = items;
        Ok(())
    }

    /// How many items all bundles but the one at a place have.
    fn items_beside(&self, place: usize) -> usize
        requires { place < length self.now.bundles }
        ensures { result ≡ all_items (remove self.now.bundles place) }
    {
        self.items - self.at(place).item_count()
    }

    /// Puts a bundle, or none, at a place that was found for its key.
    pub(crate) fn put(
        &mut self,
        alloc: Global,
        place: KeyPlace,
        next: Option<Bundle>,
    ) -> Result<(), Memory>
        requires within { IsPlaceIn self.old.bundles place }
        requires rules { KeepsDatabaseRules (with_bundles self.old
            (put_at self.old.bundles place next)) }
        ensures ok { OnOk result (self.new ≡ with_bundles self.old
            (put_at self.old.bundles place next)) }
        ensures err { OnErr result (self.new ≡ self.old) }
    {
        match (place, next) {
            (KeyPlace::At(place), Some(new)) => self.replace(alloc, place, new),
            (KeyPlace::At(place), None) => self.take_out(place),
            (KeyPlace::Free(place), Some(new)) => self.put_in(alloc, place, new),
            (KeyPlace::Free(_), None) => Ok(()),
        }
    }

    /// Puts the database under a configuration that begins with its own: all bundles are made to fit it. The
    /// only refusal is want of memory, which changes nothing.
    #[tactic(auto, using(crate::proofs::Fits::all_fit_by, crate::proofs::Fits::refit_kept))]
    pub(crate) fn refit(&mut self, alloc: Global, config: Config) -> Result<(), Memory>
        requires extends { Extends self.old.config config }
        requires valid { IsTrue (is_valid config) }
        ensures ok { OnOk result (self.new ≡ fitted_database self.old config) }
        ensures err { OnErr result (self.new ≡ self.old) }
    {
        let _count = self.len();
        let list = fitted(alloc, self.list.as_ref().as_slice(), &config)?;
        let list = Shared::new(alloc, list)?;
        let config = Shared::new(alloc, config)?;
        self.list = list;
        self.config = config;
        Ok(())
    }

    /// The same database again, which shares its bundles. The only refusal is want of memory.
    pub fn copy(&self, alloc: Global) -> Result<Database, Memory>
        ensures { IfOk result (λ made. made ≡ self.now) }
    {
        Ok(Database {
            config: self.config.copy(alloc)?,
            list: self.list.copy(alloc)?,
            items: self.items,
        })
    }
}

/// These bundles, made to fit a configuration. The only refusal is want of memory.
#[tactic(auto, using(crate::proofs::Fits::fit_at))]
fn fitted(
    alloc: Global,
    bundles: &[Shared<Bundle>],
    config: &Config,
) -> Result<Series<Shared<Bundle>>, Memory>
    requires { All (CanFit config.now) bundles.now }
    ensures { IfOk result (λ made. made ≡ map (fitted config.now) bundles.now) }
{
    let mut made = Series::new(alloc);
    for bundle in bundles {
        let next = bundle.as_ref().fit(alloc, config)?;
        made.push(Shared::new(alloc, next)?)?;
    }
    Ok(made)
}

impl PlainData for Database {
    fn copy(&self, alloc: Global) -> Result<Database, Memory> {
        Database::copy(self, alloc)
    }
}
