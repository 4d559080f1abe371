//! Laws of the definitions that the contracts cite; they run nothing.
ghost use Rattle.json_view.specs.Laws.{LoneTextIsOne, TextsAreAll, FirstOtherIsFault, OtherIsNoList};

/// What the texts of a value are: those of a list of texts, or a text alone; else the first element
/// that is no text is the fault, or the value that is no list.
pub fn texts_by_cases()
    ensures lone { LoneTextIsOne }
    ensures all { TextsAreAll }
    ensures first { FirstOtherIsFault }
    ensures other { OtherIsNoList }
{}
