//! Laws of queries that a user can check, with nothing to run.
#![tactic(auto)]

mod laws;

pub use laws::{
    brackets_are_free, bundles_keep_their_rows, dominance_selects, edges_are_not_medial,
    end_to_end_is_first_to_last, groups_are_their_values, labels_are_alternatives,
    marked_part_selects, medial_is_no_edge, mirrors_agree, numbers_compare, one_is_both_ends,
    one_start_one_end, order_is_free, places_are_told_below, queries_are_opposite, rows_go_forward,
    segment_lists_go_forward, tests_are_opposite, zero_is_none,
};
