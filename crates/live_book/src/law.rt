//! Laws of published lists and of the histories that they show, with nothing to run.
ghost use Rattle.live_book.specs.Laws.{BooksShow, HistoriesBegin, ListsAreNumbered, ListsBegin, ListsEnd, OpeningsShow};

use emu_disk::Disk;

/// The history that a list shows begins the history of each longer list.
#[tactic(auto, using(crate::proofs::Lists::histories_begin))]
pub fn histories_begin()
    ensures { HistoriesBegin }
{}

/// The last version of a list stands under the number of the entries that the list shows, and is the version after
/// them.
pub fn lists_end()
    ensures { ListsEnd }
{}

/// The beginning of a list shows a beginning of the history, where it goes at least to the opening.
#[tactic(auto, using(crate::proofs::Lists::lists_begin))]
pub fn lists_begin()
    ensures { ListsBegin }
{}

/// The last number of a list is how many entries it shows.
#[tactic(auto, using(crate::proofs::Lists::lists_are_numbered))]
pub fn lists_are_numbered()
    ensures { ListsAreNumbered }
{}

/// The published list of a book that several threads edited shows its history, beside the opening.
#[tactic(auto, using(crate::proofs::Living::books_show))]
pub fn books_show<D: Disk>()
    ensures { BooksShow D.may_leave D.faults }
{}

/// The published list of a book shows its history, where the opening is the book as it is.
#[tactic(auto, using(crate::proofs::Living::openings_show))]
pub fn openings_show<D: Disk>()
    ensures { OpeningsShow D.faults }
{}
