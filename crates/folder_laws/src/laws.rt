//! Laws with nothing to run: what a folder lists, and in which order a database folder is gone through.
ghost use Rattle.folder_laws.specs.Laws.{EntriesAreOfContent, NamesAreOfContent, NamesRise, StemsAreOfEntries, StemsRise};

/// A folder lists each name once, in the order of the names' bytes, and a name exactly where something
/// that is stored lies there: under that name, or deeper below it.
pub fn folders_list_what_is_stored()
    ensures order { NamesRise }
    ensures names { NamesAreOfContent }
    ensures entries { EntriesAreOfContent }
{}

/// The folders with an ending are gone through in the order of what stands before it, by bytes, each once,
/// and none is left out.
pub fn loads_go_in_order()
    ensures order { StemsRise }
    ensures names { StemsAreOfEntries }
{}
