//! Laws with nothing to run: what a user can check of requeries (EMU-SDMS Manual, "The EMU Query Language
//! (EQL)": `requery_hier` and `requery_seq`).
ghost use Rattle.requery.specs.Laws.{CarriedToItsOwnLevel, KinIsMutual, MovedThereAndBack};

/// A query whose results are carried to the level and attribute that they are on has the rows of the query.
pub fn carried_to_its_own_level()
    ensures { CarriedToItsOwnLevel }
{}

/// A result that is moved right by so many items, and what it reaches moved left by as many, is the stretch at
/// the same place, if the first move stays within the level.
pub fn moved_there_and_back()
    ensures { MovedThereAndBack }
{}

/// An item is among the kin of another, of which a requery takes the first and the last, exactly where that one
/// is among its own kin: from above and from below the same items are found.
pub fn kin_is_mutual()
    ensures { KinIsMutual }
{}
