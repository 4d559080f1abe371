//! The lines of the script of work.
ghost use Rattle.std.specs.Prelude.{◌≡◌, ◌≤◌, ◌<◌, ◌+◌, ◌^◌, [], IfOk, length};
ghost use Rattle.emu_names.specs.declared.limits.TheConstants.{BUNDLES};
ghost use Rattle.live_run.specs.session_core.InOrder.{ComeInOrder};
ghost use Rattle.work_script.specs.Script.{each, work_key, work_queries};
ghost use Rattle.work_script.specs.Inner.Script.{adding, awaiting, last_of, waits};
ghost use Rattle.work_script.specs.Inner.Lines.{AreAsking, IsAsking, IsScript};

use crate::annotation::work_annot;
use crate::config::name_of;
use edit_rules::{Act, Edit, Edits};
use emu_names::{BundleKey, Memory, Name, SessionNo};
use eql_resolve::prepare;
use label_match::PatternMaker;
use live_run::{Ask, Command, Line, Lines, Request};
use std::alloc::Global;

/// The segments of one label.
const LABELS: &str = "[Phonetic == a]";

/// The pairs of segments of two labels, one behind the other.
const FOLLOWERS: &str = "[[Phonetic == e] -> [Phonetic == b]]";

/// The words above a segment of one label.
const WORDS_ABOVE: &str = "[Word == w ^ Phonetic == a]";

/// The segments of one label that begin a word.
const FIRST_IN_WORD: &str = "[Phonetic == e & Start(Word, Phonetic) == 1]";

/// The name of a bundle: `b` and its place in five digits. The only refusal is want of memory.
fn bundle_name(alloc: Global, bundle: u32) -> Result<Name, Memory>
    requires { bundle < BUNDLES }
    ensures { IfOk result (λ made. made ≡ (work_key bundle).bundle) }
{
    let name = format!(in alloc;
        "b{}{}{}{}{}",
        bundle / 10_000 % 10,
        bundle / 1_000 % 10,
        bundle / 100 % 10,
        bundle / 10 % 10,
        bundle % 10
    )?;
    name_of(alloc, name.as_str())
}

/// The key of a bundle. The only refusal is want of memory.
fn work_key(alloc: Global, bundle: u32) -> Result<BundleKey, Memory>
    requires { bundle < BUNDLES }
    ensures { IfOk result (λ made. made ≡ work_key bundle) }
{
    Ok(BundleKey {
        session: name_of(alloc, "work")?,
        bundle: bundle_name(alloc, bundle)?,
    })
}

/// The line that adds a bundle. The only refusal is want of memory.
fn adding(alloc: Global, number: u64, bundle: u32) -> Result<Line, Memory>
    requires { bundle < BUNDLES }
    ensures { IfOk result (λ made. made ≡ adding number bundle) }
{
    let key = work_key(alloc, bundle)?;
    let annot = work_annot(alloc, number, bundle)?;
    let edits = Edits::one(alloc, Edit::AddBundle { key, annot })?;
    Ok(Line {
        line: bundle + 2,
        session: SessionNo(bundle % 4 + 1),
        command: Command::AddBundle,
        request: Request::Edit(Ok(Act::Edits(edits))),
    })
}

/// The line of session 1 that goes on from what the session of an earlier line had seen then.
fn awaiting(line: u32, earlier: u32) -> Line
    ensures { result ≡ awaiting line earlier }
{
    Line {
        line,
        session: SessionNo(1),
        command: Command::After,
        request: Request::After(earlier),
    }
}

/// The line of session 1 that asks a query. The only refusal is want of memory.
fn asking<P: PatternMaker>(
    alloc: Global,
    patterns: &mut P,
    line: u32,
    text: &str,
) -> Result<Line, Memory>
    ensures { IfOk result (IsAsking line text.now) }
{
    match prepare(alloc, patterns, text) {
        Ok(prepared) => Ok(Line {
            line,
            session: SessionNo(1),
            command: Command::Query,
            request: Request::Query(Ask {
                prepared: Ok(prepared),
                time: None,
                requery: None,
            }),
        }),
        Err(_) => Err(Memory),
    }
}

/// The last of so many bundles that a session adds, which adds one.
fn last_of(bundles: u32, session: u32) -> u32
    requires some { 1 ≤ session }
    requires adds { session ≤ bundles }
    requires few { bundles ≤ BUNDLES }
    ensures last { result ≡ last_of bundles session }
    ensures within { result < bundles }
{
    session - 1 + 4 * ((bundles - session) / 4)
}

/// The lines that add the bundles. The only refusal is want of memory.
fn additions(alloc: Global, number: u64, bundles: u32) -> Result<Lines, Memory>
    requires { bundles ≤ BUNDLES }
    ensures added { IfOk result (λ made. made ≡ each (adding number) bundles) }
{
    let mut lines = Lines::new(alloc);
    for bundle in 0..bundles {
        lines.push(adding(alloc, number, bundle)?)?;
    }
    Ok(lines)
}

/// The lines of session 1 that wait for the last addition of each other session that adds a bundle. The only
/// refusal is want of memory.
fn waits(alloc: Global, bundles: u32) -> Result<Lines, Memory>
    requires { bundles ≤ BUNDLES }
    ensures { IfOk result (λ made. made ≡ waits bundles) }
{
    let mut lines = Lines::new(alloc);
    for other in 0..bundles.saturating_sub(1).min(3) {
        lines.push(awaiting(bundles + 2 + other, last_of(bundles, other + 2) + 2))?;
    }
    Ok(lines)
}

/// The lines of session 1 that ask the queries, from this line on. The only refusal is want of memory.
fn asks<P: PatternMaker>(alloc: Global, patterns: &mut P, first: u32) -> Result<Lines, Memory>
    requires { first < 2 ^ 31 }
    ensures { IfOk result (AreAsking first work_queries) }
{
    let mut lines = Lines::new(alloc);
    lines.push(asking(alloc, patterns, first, LABELS)?)?;
    lines.push(asking(alloc, patterns, first + 1, FOLLOWERS)?)?;
    lines.push(asking(alloc, patterns, first + 2, WORDS_ABOVE)?)?;
    lines.push(asking(alloc, patterns, first + 3, FIRST_IN_WORD)?)?;
    Ok(lines)
}

/// The lines of the script of a number, with so many bundles: an addition of each, by sessions 1 to 4 in turn;
/// then session 1 waits for the others, and asks the queries. The first line is the configuration's, and not
/// among them. The only refusal is want of memory.
pub(crate) fn work_lines<P: PatternMaker>(
    alloc: Global,
    number: u64,
    bundles: u32,
    patterns: &mut P,
) -> Result<Lines, Memory>
    requires { bundles ≤ BUNDLES }
    ensures script { IfOk result (IsScript number bundles) }
    ensures order { IfOk result (λ made. ComeInOrder [] made) }
    ensures few { IfOk result (λ made. (3 ≤ length made) × (length made < 2 ^ 31)) }
{
    let mut lines = additions(alloc, number, bundles)?;
    lines.append(waits(alloc, bundles)?)?;
    let first = lines.len() as u32 + 2;
    lines.append(asks(alloc, patterns, first)?)?;
    Ok(lines)
}
