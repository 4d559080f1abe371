//! Laws with nothing to run: what building a bundle comes to.
ghost use Rattle.std.specs.Prelude.{◌≡◌, ℕ, List, Option, Ok, IsTrue};
ghost use Rattle.emu_names.specs.declared.kinds.ItemId.{ItemId};
ghost use Rattle.level_items.specs.declared.items.Item.{Item};
ghost use Rattle.level_items.specs.declared.times.Time.{Time};
ghost use Rattle.level_items.specs.Levels.{is_short};
ghost use Rattle.db_config.specs.declared.parts.ConfigParts.{ConfigParts};
ghost use Rattle.bundle_state.specs.Bundle.{BundleParts, all_ids, item_count};
ghost use Rattle.bundle_state.specs.Built.{FitsConfig};
ghost use Rattle.bundle_state.specs.Fitted.{CanFit, ExtensionsCanFit, fitted, fitted_levels};
ghost use Rattle.bundle_state.specs.Valid.{KeepsBundleRules};
ghost use Rattle.bundle_state.specs.Changed.{item_added, item_removed, label_set, item_retimed, link_added, link_inserted, link_removed};
ghost use Rattle.bundle_state.specs.ChangedLaws.{KeepsForm, KeepsRules, HasRoomFor};
ghost use Rattle.bundle_state.specs.Laws.{BuiltKeepsRules, BuiltFitsConfig, BuiltKeepLinkRule, BuiltLinksAreGiven, LevelsRefuseExactly, BuildingRefusesExactly};

/// A bundle that is built under a valid configuration keeps the rules of bundles.
pub fn built_keeps_rules()
    ensures { BuiltKeepsRules }
{}

/// A bundle that is built has the configuration's levels and link definitions.
pub fn built_fits_config()
    ensures { BuiltFitsConfig }
{}

/// The links of an annotation that break no rule keep the link rule.
pub fn built_keep_link_rule()
    ensures { BuiltKeepLinkRule }
{}

/// They are the pairs that are given, each at its first place.
pub fn built_links_are_given()
    ensures { BuiltLinksAreGiven }
{}

/// The levels of an annotation are refused exactly where they break a rule.
pub fn levels_refuse_exactly()
    ensures { LevelsRefuseExactly }
{}

/// An annotation is refused exactly where it breaks a rule, be it of levels or of links.
pub fn building_refuses_exactly()
    ensures { BuildingRefusesExactly }
{}

/// A bundle that fits a configuration fits it also after each change.
pub fn changed_bundles_fit()
    ensures added { (level : ℕ) → (position : Option ℕ) → (item : Item)
        → KeepsForm (item_added level position item) }
    ensures removed { (id : ItemId) → KeepsForm (item_removed id) }
    ensures labelled { (id : ItemId) → (attribute : ℕ) → (label : List ℕ)
        → KeepsForm (label_set id attribute label) }
    ensures retimed { (id : ItemId) → (time : Time) → KeepsForm (item_retimed id time) }
    ensures linked { (from : ItemId) → (to : ItemId) → KeepsForm (link_added from to) }
    ensures placed { (place : ℕ) → (from : ItemId) → (to : ItemId)
        → KeepsForm (link_inserted place from to) }
    ensures unlinked { (from : ItemId) → (to : ItemId) → KeepsForm (link_removed from to) }
{}

/// A bundle that keeps the rules of bundles keeps them also after each change.
pub fn changed_bundles_keep_rules()
    ensures added { (level : ℕ) → (position : Option ℕ) → (item : Item)
        → (before : BundleParts) → (after : BundleParts)
        → HasRoomFor level item before → KeepsBundleRules before
        → item_added level position item before ≡ Ok after → KeepsBundleRules after }
    ensures removed { (id : ItemId) → KeepsRules (item_removed id) }
    ensures labelled { (id : ItemId) → (attribute : ℕ) → (label : List ℕ) → IsTrue (is_short label)
        → KeepsRules (label_set id attribute label) }
    ensures retimed { (id : ItemId) → (time : Time) → KeepsRules (item_retimed id time) }
    ensures linked { (from : ItemId) → (to : ItemId) → KeepsRules (link_added from to) }
    ensures placed { (place : ℕ) → (from : ItemId) → (to : ItemId)
        → KeepsRules (link_inserted place from to) }
    ensures unlinked { (from : ItemId) → (to : ItemId) → KeepsRules (link_removed from to) }
{}

/// A bundle that fits a configuration can be made to fit one that extends it.
pub fn extensions_can_fit()
    ensures { ExtensionsCanFit }
{}

/// A bundle that is made to fit a configuration fits it, keeps the rules of bundles, and has the same ids, as
/// many items and the same links as before.
pub fn fitted_bundles_keep_rules()
    ensures fits { (config : ConfigParts) → (b : BundleParts) → CanFit config b
        → FitsConfig config (fitted config b) }
    ensures rules { (config : ConfigParts) → (b : BundleParts) → CanFit config b
        → KeepsBundleRules b → KeepsBundleRules (fitted config b) }
    ensures ids { (config : ConfigParts) → (b : BundleParts) → CanFit config b
        → all_ids (fitted_levels config.levels b.levels) ≡ all_ids b.levels }
    ensures count { (config : ConfigParts) → (b : BundleParts) → CanFit config b
        → item_count (fitted_levels config.levels b.levels) ≡ item_count b.levels }
{}
