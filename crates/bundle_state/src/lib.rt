//! The bundles of a database: annotations that keep the rules of their configuration, valid by their
//! type (EMU-SDMS Manual, "The emuDB format": bundles and `_annot.json`).
#![tactic(auto)]

mod annot_rules;
mod bundle;
mod changes;
mod fitted;
mod given_levels;
mod given_links;
mod labels;
mod laws;
mod own;
mod places;
mod used_ids;

pub use bundle::Bundle;
pub use given_levels::made_item;
pub use labels::{label_passed, new_labels_pass};
pub use laws::{
    building_refuses_exactly, built_fits_config, built_keep_link_rule, built_keeps_rules,
    built_links_are_given, changed_bundles_fit, changed_bundles_keep_rules, extensions_can_fit,
    fitted_bundles_keep_rules, levels_refuse_exactly,
};
