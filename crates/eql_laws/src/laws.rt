//! Laws with nothing to run: what a user can check of the tuples, results and rows of queries that go together
//! (EMU-SDMS Manual, "The EMU Query Language (EQL)": simple queries, conjunction, sequence, domination, position
//! and count functions, the columns of a segment list).
ghost use Rattle.eql_laws.specs.Laws.{OrderIsFree, DominanceSelects, MarkedPartSelects, BracketsAreFree, OneStartOneEnd, OneIsBothEnds, EndToEndIsFirstToLast, RowsGoForward, SegmentListsGoForward, MirrorsAgree, BundlesKeepTheirRows, EdgesAreNotMedial, MedialIsNoEdge, PlacesAreToldBelow, TestsAreOpposite, QueriesAreOpposite, GroupsAreTheirValues, LabelsAreAlternatives, NumbersCompare, ZeroIsNone};

/// An item meets exactly one of `==` and `!=` with the same labels, and of `=~` and `!~` with the same
/// patterns.
pub fn tests_are_opposite()
    ensures { TestsAreOpposite }
{}

/// Each item of the level is found by exactly one of `==` and `!=` with the same labels, and of `=~` and
/// `!~` with the same patterns.
pub fn queries_are_opposite()
    ensures { QueriesAreOpposite }
{}

/// A label group finds what its values find that are written out with `|`, where no value names a group.
pub fn groups_are_their_values()
    ensures { GroupsAreTheirValues }
{}

/// `[A == a|b]` finds what `[A == a]` or `[A == b]` finds, so that neither the order of labels nor a label
/// that stands twice changes what is found.
pub fn labels_are_alternatives()
    ensures { LabelsAreAlternatives }
{}

/// `[A == a & B == b]` and `[B == b & A == a]` find the same items: neither the order of conditions nor one
/// that stands twice changes a tuple. What is shown of them is the attribute of the marked condition, else
/// of the first one; where that is the same attribute, the results are the same.
pub fn order_is_free()
    ensures { OrderIsFree }
{}

/// Each result of `[A ^ B]` without a mark is one of `A`.
pub fn dominance_selects()
    ensures { DominanceSelects }
{}

/// Each result of `[#A -> B]` and of `[#A ^ B]` is one of `#A`, and each of `[A -> #B]` and of `[A ^ #B]`
/// one of `#B`. This holds of any parts, be they conjunctions or in brackets. A sequence without a mark has
/// longer results than its parts.
pub fn marked_part_selects()
    ensures { MarkedPartSelects }
{}

/// A dominance of which one part has the mark has the same results with its parts in each other's place:
/// `[A == a ^ #B == b]` and `[#B == b ^ A == a]`. Where no part has it, the results are those of the left
/// part, and so others. The two may differ in whether they have over 1,000,000 tuples.
pub fn mirrors_agree()
    ensures { MirrorsAgree }
{}

/// `[[A -> B] -> C]` and `[A -> [B -> C]]` have the same tuples and the same results. The two may differ in
/// whether some part has over 1,000,000 tuples, since `[A -> B]` is a part of the one alone.
pub fn brackets_are_free()
    ensures { BracketsAreFree }
{}

/// An item below at most one item of the upper level that meets `Start(..) == 1` or `End(..) == 1` meets
/// `Medial(..) == 0`, and does not meet `Medial(..) == 1`.
pub fn edges_are_not_medial()
    ensures { EdgesAreNotMedial }
{}

/// An item below at most one item of the upper level meets `Medial(..) == 0` exactly where it meets
/// `Start(..) == 1` or `End(..) == 1`.
pub fn medial_is_no_edge()
    ensures { MedialIsNoEdge }
{}

/// An item below some item of the upper level meets exactly one of a position function `== 1` and the
/// same one `== 0`; an item below none meets neither.
pub fn places_are_told_below()
    ensures { PlacesAreToldBelow }
{}

/// An item with anything below it on a lower level makes exactly one item of it meet `Start(..) == 1` and
/// exactly one meet `End(..) == 1`.
pub fn one_start_one_end()
    ensures { OneStartOneEnd }
{}

/// These two are one item exactly where the item above them meets `Num(..) == 1`.
pub fn one_is_both_ends()
    ensures { OneIsBothEnds }
{}

/// An item meets exactly one of `Num(..) < n`, `== n` and `> n`; `!=`, `>=` and `<=` are the opposites of
/// `==`, `<` and `>`.
pub fn numbers_compare()
    ensures { NumbersCompare }
{}

/// An item meets `Num(..) == 0` exactly where it dominates no item of the lower level.
pub fn zero_is_none()
    ensures { ZeroIsNone }
{}

/// What items cover from end to end goes from the first sample of the first item to the last sample of the
/// last one, whatever stands between them; no items cover nothing. It is what the row of a stretch of
/// segments or events has as its samples.
pub fn end_to_end_is_first_to_last()
    ensures { EndToEndIsFirstToLast }
{}

/// The row of a stretch of items has a `start` and an `end` or neither, and its `start` is not past its
/// `end`; so it is with `sampleStart` and `sampleEnd`. Rows of requeries are such rows too.
pub fn rows_go_forward()
    ensures { RowsGoForward }
{}

/// No row of a segment list starts past its end.
pub fn segment_lists_go_forward()
    ensures { SegmentListsGoForward }
{}

/// A bundle that is put in or taken out changes no row of the others, nor their order.
pub fn bundles_keep_their_rows()
    ensures { BundlesKeepTheirRows }
{}
