//! Bundles in the order of their keys, on pages that copies share.
ghost use Rattle.std.specs.Prelude.{◌≡◌, ◌≢◌, ◌<◌, [], length, IfOk, option_copied, Some, None};
ghost use Rattle.std.specs.List.{slice_get};
ghost use Rattle.version_tree.specs.Inner.Version.{indexed_with, others, put_indexed};
ghost use Rattle.version_tree.specs.Inner.Pages.{AreRising};
ghost use Rattle.version_tree.specs.Inner.Under.{CanFitAll, fitted_of};
ghost use Rattle.version_tree.specs.Version.{bundles_of};

use crate::page::Page;
use crate::pages::{bundle_at, bundle_on, pages_under, pages_with, pages_without};
use bundle_index::Indexed;
use db_config::Config;
use emu_names::{BundleKey, Memory, PlainData, Series, Shared};
use std::alloc::Global;
use std::marker::Model;

/// Bundles in the order of their keys, which contracts see as their list.
///
/// Keys rise strictly. The bundles stand on pages of 1 to 128, and any two neighbouring pages have more than
/// 64 together. A copy shares all pages; a tree with one bundle more, less or changed shares all but two.
#[derive(Drop)]
pub(crate) struct Tree {
    pages: Shared<Series<Shared<Page>>>,
}

impl Model for Tree {
    ghost use Rattle.std.specs.Prelude.{List};
    ghost use Rattle.bundle_index.specs.Index.{IndexParts};

    ghost Value = { List IndexParts };

    ghost use Rattle.version_tree.specs.Inner.Pages.{KeepPages, bundles_on};

    ghost view = { λ t. bundles_on t.pages };

    ghost invariant = { λ t. KeepPages t.pages };
}

impl Tree {
    /// No bundles. The only refusal is want of memory.
    pub(crate) fn new(alloc: Global) -> Result<Tree, Memory>
        ensures { IfOk result (λ made. made ≡ []) }
    {
        let pages = Shared::new(alloc, Series::new(alloc))?;
        Ok(Tree { pages })
    }

    /// The bundle of a key.
    pub(crate) fn get(&self, key: &BundleKey) -> Option<&Indexed>
        ensures bundle { option_copied result ≡ indexed_with key.now self.now }
        ensures rising { AreRising self.now }
    {
        bundle_on(self.pages.as_ref().as_slice(), key)
    }

    /// The bundle at a place, counted from 0.
    pub(crate) fn at(&self, place: usize) -> &Indexed
        requires { place < length self.now }
        ensures { slice_get self.now place ≡ Some result.now }
    {
        bundle_at(self.pages.as_ref().as_slice(), place)
    }

    /// The bundles with this one in the place of that of its key. The only refusal is want of memory.
    pub(crate) fn with(&self, alloc: Global, new: Indexed) -> Result<Tree, Memory>
        ensures { IfOk result (λ made. made ≡ put_indexed new self.now) }
    {
        let pages = pages_with(alloc, self.pages.as_ref().as_slice(), new)?;
        let pages = Shared::new(alloc, pages)?;
        Ok(Tree { pages })
    }

    /// The bundles but that of a key, which is there. The only refusal is want of memory.
    pub(crate) fn without(&self, alloc: Global, key: &BundleKey) -> Result<Tree, Memory>
        requires { indexed_with key.now self.now ≢ None }
        ensures { IfOk result (λ made. made ≡ others key.now self.now) }
    {
        let pages = pages_without(alloc, self.pages.as_ref().as_slice(), key)?;
        let pages = Shared::new(alloc, pages)?;
        Ok(Tree { pages })
    }

    /// The bundles, each made to fit a configuration. The only refusal is want of memory.
    pub(crate) fn under(&self, alloc: Global, config: &Config) -> Result<Tree, Memory>
        requires { CanFitAll config.now self.now }
        ensures { IfOk result (λ made. bundles_of made ≡ fitted_of config.now self.now) }
    {
        let pages = pages_under(alloc, self.pages.as_ref().as_slice(), config)?;
        let pages = Shared::new(alloc, pages)?;
        Ok(Tree { pages })
    }

    /// The same bundles again, which share their pages. The only refusal is want of memory.
    pub(crate) fn copy(&self, alloc: Global) -> Result<Tree, Memory>
        ensures { IfOk result (λ made. made ≡ self.now) }
    {
        let pages = self.pages.copy(alloc)?;
        Ok(Tree { pages })
    }
}
