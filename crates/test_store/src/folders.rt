//! What no clause of folders and gates says: that calls succeed where memory is ample, the real
//! folder on what is not there, and what a gate that holds notes.
use crate::compared::{same, same_text};
use emu_io::{
    Folder, FolderEntries, FolderFault, Gate, Hold, HoldGate, LineMoment, Memory, Moment, OpenGate,
    RealFolder, Stored,
};
use memory_io::{MapFolder, SureFolder};
use std::alloc::Global;
use std::process::Abort;
use std::test::Fail;

/// Files with their bytes, and a folder that is empty.
static FILES: [(&str, &str); 5] = [
    ("t_emuDB/s1_ses/b2_bndl/b2_annot.json", "{2}"),
    ("t_emuDB/t_DBconfig.json", "{}"),
    ("t_emuDB/s1_ses/b1_bndl/b1_annot.json", "{1}"),
    ("t_emuDB2/x", "x"),
    ("a.TextGrid", ""),
];

/// Puts the files and the folder last.
fn store(alloc: Global, all: &mut Vec<Stored>) -> Result<(), Memory> {
    for (path, text) in &FILES {
        all.push(Stored::file(alloc, path, text.as_bytes())?)?;
    }
    all.push(Stored::folder(alloc, "t_emuDB/s0_ses")?)?;
    Ok(())
}

fn stored(alloc: Global) -> Result<Vec<Stored>, Memory> {
    let mut all = Vec::new(alloc);
    store(alloc, &mut all)?;
    Ok(all)
}

/// The entries as one text, in which folders end with a `/`.
fn shown(alloc: Global, entries: &FolderEntries) -> Result<String, Memory> {
    let mut text = String::new(alloc);
    for entry in entries.as_slice() {
        text.push_str(entry.name.as_str())?;
        text.push(if entry.folder { '/' } else { ' ' })?;
    }
    Ok(text)
}

/// What listing a folder answers: the entries as one text, or the word of the fault.
fn listing(alloc: Global, folder: &mut SureFolder, path: &str) -> Result<String, Memory> {
    match folder.list(alloc, path) {
        Ok(entries) => {
            let text = shown(alloc, &entries);
            drop(entries);
            text
        }
        Err(FolderFault::Absent) => Ok(String::from_str(alloc, "absent")?),
        Err(_) => Ok(String::from_str(alloc, "another fault")?),
    }
}

/// Paths, and what listing them answers.
static LISTINGS: [(&str, &str); 6] = [
    ("t_emuDB", "s0_ses/s1_ses/t_DBconfig.json "),
    ("t_emuDB/s0_ses", ""),
    ("t_emuDB/s1_ses", "b1_bndl/b2_bndl/"),
    ("t_emuDB/s1_ses/b1_bndl", "b1_annot.json "),
    ("t_emu", "absent"),
    ("a.TextGrid", "absent"),
];

/// Compares all listings of a folder.
fn expect_listings(rt: &impl Abort, alloc: Global, folder: &mut SureFolder) -> Result<(), Memory> {
    for &(path, wanted) in &LISTINGS {
        let told = listing(alloc, folder, path)?;
        same_text(rt, path, told.as_str(), wanted);
    }
    Ok(())
}

#[test]
fn folders_are_listed(rt: HostRuntime) -> Result<(), Fail> {
    let mut folder = SureFolder::new(stored(rt.alloc())?);
    let compared = expect_listings(&rt, rt.alloc(), &mut folder);
    same(&rt, (compared, folder.misses()), (Ok(()), 2));
    drop(folder);
    Ok(())
}

/// A path, a text, whether that is the text of the file, or the fault, and the counts of faults and
/// misses then. The second and the fourth call fail.
type Reading = (
    &'static str,
    &'static str,
    Result<bool, FolderFault>,
    u64,
    u64,
);

static READINGS: [Reading; 6] = [
    ("t_emuDB/t_DBconfig.json", "{}", Ok(true), 0, 0),
    (
        "t_emuDB/t_DBconfig.json",
        "",
        Err(FolderFault::Failed),
        1,
        0,
    ),
    ("t_emuDB/none", "", Err(FolderFault::Absent), 1, 1),
    ("t_emuDB/none", "", Err(FolderFault::Failed), 2, 1),
    ("t_emuDB/s0_ses", "", Err(FolderFault::Absent), 2, 2),
    ("a.TextGrid", "", Ok(true), 2, 2),
];

/// Whether this is the text of a file, or the fault.
fn reading(
    alloc: Global,
    folder: &mut MapFolder,
    path: &str,
    text: &str,
) -> Result<bool, FolderFault> {
    let bytes = folder.read_file(alloc, path)?;
    Ok(bytes.as_slice() == text.as_bytes())
}

/// Compares all readings of a folder.
fn expect_readings(rt: &impl Abort, alloc: Global, folder: &mut MapFolder) {
    for &(path, text, wanted, faults, misses) in &READINGS {
        let answer = reading(alloc, folder, path, text);
        let counts = (folder.faults(), folder.misses());
        same(
            rt,
            (path, (answer, counts)),
            (path, (wanted, (faults, misses))),
        );
    }
}

/// A folder of which the second and the fourth call fail.
fn failing(alloc: Global) -> Result<MapFolder, Fail> {
    let calls = vec![in alloc; 2, 4]?;
    Ok(MapFolder::new(stored(alloc)?, calls))
}

#[test]
fn files_are_read_and_listed_calls_fail(rt: HostRuntime) -> Result<(), Fail> {
    let mut folder = failing(rt.alloc())?;
    expect_readings(&rt, rt.alloc(), &mut folder);
    drop(folder);
    Ok(())
}

/// Why a folder is not listed, if it is not.
fn list_fault<F: Folder>(alloc: Global, folder: &mut F, path: &str) -> Option<FolderFault> {
    folder.list(alloc, path).err()
}

/// Why a file is not read, if it is not.
fn read_fault<F: Folder>(alloc: Global, folder: &mut F, path: &str) -> Option<FolderFault> {
    folder.read_file(alloc, path).err()
}

#[test]
fn the_real_folder_counts(rt: HostRuntime) {
    let mut folder = RealFolder::new(&rt);
    let here = list_fault(rt.alloc(), &mut folder, ".");
    let listed = list_fault(rt.alloc(), &mut folder, "no_emuDB");
    let read = read_fault(rt.alloc(), &mut folder, "no_emuDB/no_DBconfig.json");
    let counts = (folder.faults(), folder.misses());
    drop(folder);
    let absent = Some(FolderFault::Absent);
    same(
        &rt,
        (here, listed, read, counts),
        (None, absent, absent, (0, 2)),
    );
}

fn answered(line: u32) -> LineMoment {
    LineMoment {
        line,
        moment: Moment::Answered,
    }
}

#[test]
fn a_gate_notes_what_it_saw(rt: HostRuntime) -> Result<(), Fail> {
    let pair = Hold {
        first: answered(3),
        second: answered(5),
    };
    let gate = HoldGate::new(rt.alloc(), &[pair])?;
    OpenGate.at(5, Moment::Answered);
    gate.at(5, Moment::Piece(0));
    let at_first = gate.saw(answered(5));
    gate.at(5, Moment::Answered);
    let then = (gate.saw(answered(5)), gate.saw_all());
    gate.at(3, Moment::Answered);
    let at_last = (gate.saw_all(), gate.gave_up());
    drop(gate);
    same(
        &rt,
        (at_first, then, at_last),
        (false, (true, false), (true, false)),
    );
    Ok(())
}
