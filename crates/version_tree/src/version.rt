//! A version of the database.
ghost use Rattle.std.specs.Prelude.{◌≡◌, ◌≢◌, ◌<◌, [], length, IfOk, IfSome, option_copied, Some, None};
ghost use Rattle.std.specs.List.{slice_get};
ghost use Rattle.std.specs.Option.{option_map};
ghost use Rattle.emu_names.specs.declared.limits.TheConstants.{BUNDLES};
ghost use Rattle.db_config.specs.Extends.{Extends};
ghost use Rattle.bundle_state.specs.Built.{FitsConfig};
ghost use Rattle.bundle_state.specs.Valid.{KeepsBundleRules};
ghost use Rattle.edit_rules.specs.Database.{bundle_with, counts_of, empty_database};
ghost use Rattle.edit_rules.specs.Effects.{fitted_database};
ghost use Rattle.version_tree.specs.Inner.Kept.{counts_in};
ghost use Rattle.version_tree.specs.Inner.Pages.{AreRising};
ghost use Rattle.version_tree.specs.Version.{bundles_of, state_of};
ghost use Rattle.version_tree.specs.Inner.Version.{IsUnder, KeepsVersionRules, first_version, indexed_with, others, put_indexed, state_put, version_with, version_without};

use crate::tree::Tree;
use bundle_index::Indexed;
use db_config::Config;
use edit_rules::Counts;
use emu_names::{BundleKey, Memory, PlainData, Shared};
use std::alloc::Global;
use std::marker::Model;

/// A version of the database: its configuration, its bundles with their columns in the order of their keys,
/// and how many edits led to it.
///
/// It is never changed. It always keeps the rules: at most 10,000 bundles, whose keys rise strictly, and
/// each of which keeps the rules of bundles and has the configuration's levels and link definitions. A copy
/// shares all of it, and the next version shares the configuration and all bundles but the one that is put
/// or taken out; under another configuration it shares with each bundle what nothing was added to.
#[derive(Drop)]
pub struct Version {
    config: Shared<Config>,
    bundles: Tree,
    counts: Counts,
    number: u64,
}

impl Model for Version {
    ghost use Rattle.version_tree.specs.Version.{VersionParts};

    ghost Value = { VersionParts };

    ghost use Rattle.version_tree.specs.Inner.Kept.{IsKept};

    ghost view = { λ v. record { config = v.config; bundles = v.bundles; number = v.number } };

    ghost invariant = { λ v.
        IsKept (record { config = v.config; bundles = v.bundles; number = v.number }) v.counts };
}

impl Version {
    /// The version of a configuration, without bundles, to which no edit led. The only refusal is want of
    /// memory.
    pub fn new(alloc: Global, config: Config) -> Result<Version, Memory>
        ensures version { IfOk result (λ made. made ≡ first_version config) }
        ensures state { IfOk result (λ made. state_of made ≡ empty_database config) }
    {
        let config = Shared::new(alloc, config)?;
        let bundles = Tree::new(alloc)?;
        Ok(Version {
            config,
            bundles,
            counts: Counts {
                bundles: 0,
                items: 0,
            },
            number: 0,
        })
    }

    /// The next version, with this bundle in the place of that of its key. This one stays as it is. The
    /// number of edits is one more, and stands still at 2^64 - 1. The only refusal is want of memory.
    pub fn with(&self, alloc: Global, indexed: Indexed) -> Result<Version, Memory>
        requires fits { FitsConfig self.now.config indexed.bundle }
        requires room { indexed_with indexed.bundle.key self.now.bundles ≡ None
            → length self.now.bundles < BUNDLES }
        ensures version { IfOk result (λ next. next ≡ version_with indexed self.now) }
        ensures state { IfOk result (λ next. state_of next
            ≡ state_put indexed.bundle.key (Some indexed.bundle) self.now) }
    {
        let counts = self.counts_with(&indexed);
        let bundles = self.bundles.with(alloc, indexed)?;
        let config = self.config.copy(alloc)?;
        Ok(Version {
            config,
            bundles,
            counts,
            number: self.number.saturating_add(1),
        })
    }

    /// The next version, without the bundle of a key, which is there. This one stays as it is. The number of
    /// edits is one more, and stands still at 2^64 - 1. The only refusal is want of memory.
    pub fn without(&self, alloc: Global, key: &BundleKey) -> Result<Version, Memory>
        requires { indexed_with key.now self.now.bundles ≢ None }
        ensures version { IfOk result (λ next. next ≡ version_without key.now self.now) }
        ensures state { IfOk result (λ next. state_of next ≡ state_put key.now None self.now) }
    {
        let counts = self.counts_without(key);
        let bundles = self.bundles.without(alloc, key)?;
        let config = self.config.copy(alloc)?;
        Ok(Version {
            config,
            bundles,
            counts,
            number: self.number.saturating_add(1),
        })
    }

    /// The next version, under a configuration that begins with this one's: each bundle is made to fit it. This one
    /// stays as it is. The number of edits is one more, and stands still at 2^64 - 1. The only refusal is want of
    /// memory.
    pub fn with_config(&self, alloc: Global, config: Config) -> Result<Version, Memory>
        requires { Extends self.now.config config }
        ensures version { IfOk result (IsUnder config self.now) }
        ensures state { IfOk result (λ next.
            state_of next ≡ fitted_database (state_of self.now) config) }
    {
        let _count = self.len();
        let bundles = self.bundles.under(alloc, &config)?;
        let config = Shared::new(alloc, config)?;
        Ok(Version {
            config,
            bundles,
            counts: self.counts,
            number: self.number.saturating_add(1),
        })
    }

    /// The bundle of a key, found by halving. It takes no memory.
    pub fn get(&self, key: &BundleKey) -> Option<&Indexed>
        ensures bundle { option_copied result ≡ indexed_with key.now self.now.bundles }
        ensures state { option_map (λ x. x.bundle) (option_copied result)
            ≡ bundle_with key.now (state_of self.now).bundles }
        ensures fits { IfSome (option_copied result) (λ x. FitsConfig self.now.config x.bundle) }
    {
        self.bundles.get(key)
    }

    /// The bundle at a place, counted from 0 in the order of keys.
    pub fn at(&self, place: usize) -> &Indexed
        requires { place < length self.now.bundles }
        ensures bundle { slice_get self.now.bundles place ≡ Some result.now }
        ensures fits { FitsConfig self.now.config result.now.bundle }
    {
        self.bundles.at(place)
    }

    /// How many bundles there are. Whoever asks may rely on the rules of versions.
    pub fn len(&self) -> usize
        ensures length { result ≡ length self.now.bundles }
        ensures rules { KeepsVersionRules self.now }
    {
        self.counts.bundles as usize
    }

    /// How many bundles there are, and how many items they have together.
    pub fn counts(&self) -> Counts
        ensures { result ≡ counts_of (state_of self.now).bundles }
    {
        self.counts
    }

    /// How many edits led to this version.
    pub fn number(&self) -> u64
        ensures { result ≡ self.now.number }
    {
        self.number
    }

    /// The configuration.
    pub fn config(&self) -> &Config
        ensures { result.now ≡ self.now.config }
    {
        self.config.as_ref()
    }

    /// The configuration, with one owner more. The only refusal is want of memory.
    pub fn shared_config(&self, alloc: Global) -> Result<Shared<Config>, Memory>
        ensures { IfOk result (λ made. made ≡ self.now.config) }
    {
        self.config.copy(alloc)
    }

    /// The same version again, which shares all that it has. The only refusal is want of memory.
    pub fn copy(&self, alloc: Global) -> Result<Version, Memory>
        ensures { IfOk result (λ made. made ≡ self.now) }
    {
        Ok(Version {
            config: self.config.copy(alloc)?,
            bundles: self.bundles.copy(alloc)?,
            counts: self.counts,
            number: self.number,
        })
    }

    /// The counts of the one bundle of a key, if there is one.
    fn counts_at(&self, key: &BundleKey) -> Counts
        ensures counts { result ≡ counts_in (indexed_with key.now self.now.bundles) }
        ensures rising { AreRising self.now.bundles }
    {
        match self.bundles.get(key) {
            Some(old) => Counts {
                bundles: 1,
                items: old.bundle().item_count() as u32,
            },
            None => Counts {
                bundles: 0,
                items: 0,
            },
        }
    }

    /// The counts with this bundle in the place of that of its key.
    fn counts_with(&self, new: &Indexed) -> Counts
        requires room { indexed_with new.now.bundle.key self.now.bundles ≡ None
            → length self.now.bundles < BUNDLES }
        ensures counts { result ≡ counts_of (bundles_of (put_indexed new.now self.now.bundles)) }
        ensures rising { AreRising self.now.bundles }
        ensures rules { KeepsBundleRules new.now.bundle }
    {
        let old = self.counts_at(new.bundle().key());
        let more = new.bundle().item_count() as u32;
        Counts {
            bundles: self.counts.bundles - old.bundles + 1,
            items: self.counts.items - old.items + more,
        }
    }

    /// The counts without the bundle of a key.
    fn counts_without(&self, key: &BundleKey) -> Counts
        ensures counts { result ≡ counts_of (bundles_of (others key.now self.now.bundles)) }
        ensures rising { AreRising self.now.bundles }
    {
        let old = self.counts_at(key);
        Counts {
            bundles: self.counts.bundles - old.bundles,
            items: self.counts.items - old.items,
        }
    }
}

impl PlainData for Version {
    fn copy(&self, alloc: Global) -> Result<Version, Memory> {
        Version::copy(self, alloc)
    }
}

/// What may be sent to a thread and shared by threads.
fn crosses<T: Send + Sync>() {}

/// A version may be sent to a thread and shared by threads.
pub fn versions_cross_threads() {
    crosses::<Version>();
}
