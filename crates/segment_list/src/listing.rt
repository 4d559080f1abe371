//! The rows of an answer as their text, which is made where the rows are made.
ghost use Rattle.std.specs.Prelude.{◌≡◌, ◌≤◌, ◌==◌, ◌+◌, ◌++◌, ◌||◌, [], ◌∷◌, Bool, List, true, false, not, length, IfOk, OnErr, OnOk, string_bytes};
ghost use Rattle.std.specs.Io.KnownBytes.{Appends};
ghost use Rattle.emu_names.specs.Count.{Rose};
ghost use Rattle.emu_io.specs.Fronts.{WritesFront};
ghost use Rattle.eql_rows.specs.declared.row.Row.{Row};
ghost use Rattle.eql_model.specs.Inner.Rows.{GivesRows};
ghost use Rattle.segment_list.specs.Inner.Listing.{in_turn};
ghost use Rattle.segment_list.specs.Inner.Pieces.{row_texts};
ghost use Rattle.segment_list.specs.Inner.Texts.{rows_text};

use crate::growing::Growing;
use crate::print::text_of_rows;
use crate::results::Results;
use emu_io::{Failed, Sink, write_all};
use emu_names::{Memory, Series, Text};
use eql_rows::SegmentList;
use eql_tuples::MatchFault;
use std::alloc::Global;
use std::marker::Model;
use std::snapshot::Snapshot;

/// The text of rows, each behind a comma, which contracts see as the rows: those of results, and others that were
/// made.
#[derive(Drop)]
struct Printed {
    rows: Snapshot<SegmentList>,
    results: Series<Results>,
    count: usize,
    text: Text,
}

impl Model for Printed {
    ghost use Rattle.std.specs.Prelude.{List};
    ghost use Rattle.eql_rows.specs.declared.row.Row.{Row};
    ghost use Rattle.std.specs.Prelude.{◌++◌};
    ghost use Rattle.segment_list.specs.Inner.Listing.{IsPrinted, in_turn};

    ghost Value = { List Row };

    ghost view = { λ p. in_turn p.results ++ p.rows.value };

    ghost invariant = { λ p. IsPrinted (in_turn p.results ++ p.rows.value) p.count p.text };
}

impl Printed {
    /// The text of rows. The only refusal is want of memory.
    fn of(alloc: Global, rows: &SegmentList) -> Result<Printed, Memory>
        ensures { IfOk result (λ made. made ≡ rows.now) }
    {
        let text = text_of_rows(alloc, rows.as_slice())?;
        Ok(Printed {
            rows: Snapshot::of(rows),
            results: Series::new(alloc),
            count: rows.len(),
            text,
        })
    }

    /// The text of the rows of results, which no longer grows. The only refusal is want of memory.
    fn of_text(alloc: Global, text: Growing) -> Result<Printed, Memory>
        ensures { IfOk result (λ made. made ≡ text) }
    {
        let (results, count, text) = text.into_parts();
        let text = Text::from_string(text)?;
        let none = SegmentList::new(alloc);
        Ok(Printed {
            rows: Snapshot::of(&none),
            results,
            count,
            text,
        })
    }

    /// Whether there is no row.
    fn is_empty(&self) -> bool
        ensures { result ≡ (length self.now == 0) }
    {
        self.count == 0
    }

    /// The text of the rows, behind a comma where something stands before.
    fn text(&self, later: bool) -> &str
        ensures { result.now ≡ row_texts later self.now }
    {
        let text = self.text.as_str();
        if later { text } else { behind_comma(text) }
    }
}

/// What stands behind the first comma of the text of rows, each behind a comma.
fn behind_comma(text: &str) -> &str
    ensures { (rows : List Row) → text.now ≡ row_texts true rows → result.now ≡ row_texts false rows }
{
    match text.strip_prefix(',') {
        Some(rest) => rest,
        None => text,
    }
}

/// The rows of an answer as their text, which contracts see as the rows.
///
/// The text is made of the rows of a part of the list, so that several threads make it side by side and each lets go
/// of its rows. Parts are put one behind another without a copy of their text.
#[derive(Drop)]
pub struct Listing {
    parts: Series<Printed>,
    count: usize,
}

impl Model for Listing {
    ghost use Rattle.std.specs.Prelude.{◌≡◌, List, length};
    ghost use Rattle.eql_rows.specs.declared.row.Row.{Row};
    ghost use Rattle.segment_list.specs.Inner.Listing.{in_turn};

    ghost Value = { List Row };

    ghost view = { λ l. in_turn l.parts };

    ghost invariant = { λ l. l.count ≡ length (in_turn l.parts) };
}

impl Listing {
    /// The list of no row. It grows by `alloc`.
    pub fn new(alloc: Global) -> Listing
        ensures { result ≡ [] }
    {
        Listing {
            parts: Series::new(alloc),
            count: 0,
        }
    }

    /// These rows. The only refusal is want of memory.
    pub fn of(alloc: Global, rows: &SegmentList) -> Result<Listing, Memory>
        ensures { IfOk result (λ made. made ≡ rows.now) }
    {
        let count = rows.len();
        match Printed::of(alloc, rows) {
            Ok(part) => match alone(alloc, part) {
                Ok(parts) => Ok(Listing { parts, count }),
                Err(fault) => Err(fault),
            },
            Err(fault) => Err(fault),
        }
    }

    /// The rows of a text that no longer grows. The only refusal is want of memory.
    pub(crate) fn of_text(alloc: Global, text: Growing) -> Result<Listing, Memory>
        ensures { IfOk result (λ made. made ≡ text) }
    {
        let part = Printed::of_text(alloc, text)?;
        let count = part.count;
        let parts = alone(alloc, part)?;
        Ok(Listing { parts, count })
    }

    /// These rows, and those of another list behind them. No text is copied. The only refusal is want of memory.
    pub fn append(self, more: Listing) -> Result<Listing, Memory>
        ensures { IfOk result (λ made. made ≡ self ++ more) }
    {
        let Listing { parts, count } = self;
        let Listing {
            parts: behind,
            count: others,
        } = more;
        match joined(parts, behind) {
            Ok(parts) => counted(parts, count, others),
            Err(fault) => Err(fault),
        }
    }

    /// How many rows there are.
    pub fn len(&self) -> usize
        ensures { result ≡ length self.now }
    {
        self.count
    }

    /// Writes the text of the rows: a list of JSON objects (RFC 8259), one for each row, with no white space and no
    /// line feed, the members of each in the order of their names. Times are whole microseconds or `null`. The only
    /// refusal is want of memory.
    pub fn push_text(&self, out: &mut String) -> Result<(), Memory>
        ensures { OnOk result (string_bytes out.new ≡ string_bytes out.old ++ rows_text self.now) }
    {
        out.push_str("[")?;
        push_parts(out, self.parts.as_slice())?;
        out.push_str("]")?;
        Ok(())
    }

    /// Writes the text of the rows to a sink, as it stands between the brackets of their list. It is written part by
    /// part, without a copy. `Failed` comes only where a write failed in this call, and then the sink has taken a
    /// front of the text.
    pub fn write_to<K: Sink>(&self, out: &mut K) -> Result<(), Failed>
        ensures ok { OnOk result (Appends (K.written out.old) (K.written out.new) (row_texts false self.now)) }
        ensures front { WritesFront (K.written out.old) (K.written out.new) (row_texts false self.now) }
        ensures failed { OnErr result (Rose (K.faults out.old) (K.faults out.new)) }
        ensures later { K.faults out.old ≤ K.faults out.new }
    {
        write_parts(out, self.parts.as_slice())
    }
}

/// One part. The only refusal is want of memory.
fn alone(alloc: Global, part: Printed) -> Result<Series<Printed>, Memory>
    ensures { IfOk result (λ parts. parts ≡ part ∷ []) }
{
    let mut parts = Series::new(alloc);
    match parts.push(part) {
        Ok(()) => Ok(parts),
        Err(fault) => Err(fault),
    }
}

/// Some parts, and others behind them. The only refusal is want of memory.
fn joined(mut parts: Series<Printed>, behind: Series<Printed>) -> Result<Series<Printed>, Memory>
    ensures { IfOk result (λ all. all ≡ parts ++ behind) }
{
    match parts.append(behind) {
        Ok(()) => Ok(parts),
        Err(fault) => Err(fault),
    }
}

/// The parts with the number of their rows. The only refusal is want of memory, of which more would be in use.
fn counted(parts: Series<Printed>, count: usize, others: usize) -> Result<Listing, Memory>
    requires { count + others ≡ length (in_turn parts) }
    ensures { IfOk result (λ made. made ≡ in_turn parts) }
{
    match count.checked_add(others) {
        Some(count) => Ok(Listing { parts, count }),
        None => Err(Memory),
    }
}

/// Whether a row stands behind a part, where one stands before it or not.
fn stands_now(later: bool, part: &Printed) -> bool
    ensures { result ≡ (later || not (length part.now == 0)) }
{
    later || !part.is_empty()
}

/// Writes the rows of some parts, with a comma between each two. The only refusal is want of memory.
fn push_parts(out: &mut String, parts: &[Printed]) -> Result<(), Memory>
    ensures { OnOk result (string_bytes out.new
        ≡ string_bytes out.old ++ row_texts false (in_turn parts.now)) }
{
    let mut later = false;
    for part in parts {
        out.push_str(part.text(later))?;
        later = stands_now(later, part);
    }
    Ok(())
}

/// Writes the rows of some parts to a sink, with a comma between each two. `Failed` comes only where a write failed
/// in this call, and then the sink has taken a front of the text.
fn write_parts<K: Sink>(out: &mut K, parts: &[Printed]) -> Result<(), Failed>
    ensures ok { OnOk result (Appends (K.written out.old) (K.written out.new)
        (row_texts false (in_turn parts.now))) }
    ensures front { WritesFront (K.written out.old) (K.written out.new)
        (row_texts false (in_turn parts.now)) }
    ensures failed { OnErr result (Rose (K.faults out.old) (K.faults out.new)) }
    ensures later { K.faults out.old ≤ K.faults out.new }
{
    let mut later = false;
    for part in parts {
        write_all(out, part.text(later).as_bytes())?;
        later = stands_now(later, part);
    }
    Ok(())
}

/// The rows that were made for a query, as their text. The only refusal of its own is want of memory.
pub fn with_text(
    alloc: Global,
    made: Result<SegmentList, MatchFault>,
) -> Result<Listing, MatchFault>
    ensures { (rows : List Row) (many : Bool) → GivesRows made rows many → GivesRows result rows many }
{
    match made {
        Ok(rows) => match Listing::of(alloc, &rows) {
            Ok(list) => Ok(list),
            Err(_) => Err(MatchFault::Memory),
        },
        Err(fault) => Err(fault),
    }
}

/// The text of a segment list: a list of JSON objects (RFC 8259), one for each row, with no white space
/// and no line feed, the members of each in the order of their names. Times are whole microseconds or
/// `null`. The only refusal is want of memory.
pub fn print_rows(alloc: Global, list: &Listing) -> Result<Text, Memory>
    ensures { IfOk result (λ text. text ≡ rows_text list.now) }
{
    let mut out = String::new(alloc);
    list.push_text(&mut out)?;
    Text::from_string(out)
}
