//! A page of bundles in the order of their keys.
ghost use Rattle.std.specs.Prelude.{◌≡◌, ◌≤◌, length};
ghost use Rattle.version_tree.specs.Inner.Pages.{IsPage, starts_by};

use crate::bundles::is_before;
use bundle_index::Indexed;
use emu_names::{BundleKey, Series, Shared};
use std::marker::Model;

/// A page of 1 to 128 bundles, which contracts see as their list.
#[derive(Drop)]
pub(crate) struct Page {
    bundles: Series<Shared<Indexed>>,
}

impl Model for Page {
    ghost use Rattle.std.specs.Prelude.{List};
    ghost use Rattle.bundle_index.specs.Index.{IndexParts};

    ghost Value = { List IndexParts };

    ghost use Rattle.version_tree.specs.Inner.Pages.{IsPage};

    ghost view = { λ p. p.bundles };

    ghost invariant = { λ p. IsPage p.bundles };
}

impl Page {
    /// The page of these bundles.
    pub(crate) fn new(bundles: Series<Shared<Indexed>>) -> Page
        requires { IsPage bundles }
        ensures { result ≡ bundles }
    {
        Page { bundles }
    }

    /// The bundles. Whoever asks may rely on their number.
    pub(crate) fn as_slice(&self) -> &[Shared<Indexed>]
        ensures bundles { result.now ≡ self.now }
        ensures size { IsPage self.now }
    {
        self.bundles.as_slice()
    }

    /// Whether the first key is this one or stands before it.
    pub(crate) fn starts_by(&self, key: &BundleKey) -> bool
        ensures { result ≡ starts_by key.now self.now }
    {
        !is_before(key, self.bundles.get(0).as_ref().bundle().key())
    }
}
