//! Laws with nothing to run: what edits make of the ids and of the links of a bundle.
ghost use Rattle.bundle_edits.specs.Laws.{EditsKeepIds, EditsKeepLinks, TimesLinkExactly};

/// The ids of a bundle behind an edit are those before it with one put in, with one taken out, or the same.
pub fn edits_keep_ids()
    ensures { EditsKeepIds }
{}

/// The links of a bundle that an edit does not take out stay in their order; a new one stands last.
pub fn edits_keep_links()
    ensures { EditsKeepLinks }
{}

/// Links from times add exactly the pairs of a segment of the upper level and an item of the lower one that
/// stands within it and that were no links yet, in their order, behind the links that are there.
pub fn times_link_exactly()
    ensures { TimesLinkExactly }
{}
