//! The text of rows that come behind one another.
ghost use Rattle.std.specs.Prelude.{◌≡◌, ◌<◌, ◌++◌, [], IfOk, IfSome, OnOk, Some, length, map, true, string_bytes};
ghost use Rattle.bundle_state.specs.Built.{FitsConfig};
ghost use Rattle.eql_resolve.specs.Inner.Sound.{IsTimeLevel};
ghost use Rattle.eql_rows.specs.Spans.{AreThere};
ghost use Rattle.eql_model.specs.Rows.{row_of};
ghost use Rattle.segment_list.specs.Inner.Listing.{in_turn};
ghost use Rattle.segment_list.specs.Inner.Pieces.{names_at, row_texts};

use crate::names::NamePieces;
use crate::print::{ROW_BYTES, pieces_at, push_results};
use crate::results::Results;
use bundle_index::Indexed;
use db_config::Config;
use emu_names::{Memory, Series};
use eql_model::Below;
use eql_rows::{Span, Spans};
use std::alloc::Global;
use std::marker::Model;

/// How many rows a text has about, when no more come behind it.
pub(crate) const OPEN_ROWS: usize = 128;

/// The text of rows, to which more come, each behind a comma. Contracts see it as the rows.
#[derive(Drop)]
pub(crate) struct Growing {
    results: Series<Results>,
    count: usize,
    text: String,
}

impl Model for Growing {
    ghost use Rattle.std.specs.Prelude.{List, string_bytes};
    ghost use Rattle.eql_rows.specs.declared.row.Row.{Row};
    ghost use Rattle.segment_list.specs.Inner.Listing.{IsPrinted, in_turn};

    ghost Value = { List Row };

    ghost view = { λ g. in_turn g.results };

    ghost invariant = { λ g. IsPrinted (in_turn g.results) g.count (string_bytes g.text) };
}

/// A text with more rows, and the pieces for the last of them.
#[derive(Drop)]
pub(crate) struct Grown {
    /// The text.
    pub(crate) text: Growing,
    /// The pieces.
    pub(crate) pieces: NamePieces,
}

impl Growing {
    /// The text of no row. It grows by `alloc`.
    pub(crate) fn new(alloc: Global) -> Growing
        ensures { result ≡ [] }
    {
        Growing {
            results: Series::new(alloc),
            count: 0,
            text: String::new(alloc),
        }
    }

    /// Whether no more rows should come behind these.
    pub(crate) fn is_long(&self) -> bool {
        self.count >= OPEN_ROWS
    }

    /// The results whose rows these are, the number of the rows, and their text.
    pub(crate) fn into_parts(self) -> (Series<Results>, usize, String)
        ensures rows { in_turn result.0 ≡ self }
        ensures count { result.1 ≡ length self }
        ensures text { string_bytes result.2 ≡ row_texts true self }
    {
        let Growing {
            results,
            count,
            text,
        } = self;
        (results, count, text)
    }

    /// These rows, and those of some results behind them, with the pieces for the last one. The only refusal is want
    /// of memory.
    ///
    /// There is a result, `first` is the first one's attribute, and each lies on the level. On an ITEM level the rows
    /// have their times from the SEGMENT level `time`, where there is one.
    pub(crate) fn longer(
        self,
        alloc: Global,
        config: &Config,
        indexed: &Indexed,
        pieces: Option<NamePieces>,
        level: usize,
        time: Option<usize>,
        first: Span,
        spans: &Spans,
    ) -> Result<Grown, Memory>
        requires fits { FitsConfig config.now indexed.now.bundle }
        requires level { level < length config.now.levels }
        requires time { IfSome time (IsTimeLevel config.now) }
        requires spans { AreThere config.now indexed.now.bundle level spans.now }
        ensures { IfOk result (λ grown. grown.text
            ≡ self ++ map (row_of config.now indexed.now.bundle time) spans.now) }
    {
        let Growing {
            results,
            count,
            text,
        } = self;
        let mut text = text;
        make_room(&mut text)?;
        let attribute = first.attribute;
        let pieces = pieces_at(
            alloc,
            config,
            indexed.bundle(),
            pieces,
            level,
            attribute as usize,
        )?;
        let spans_now = spans.as_slice();
        let pieces = push_timed(
            &mut text, alloc, config, indexed, pieces, level, time, attribute, spans_now,
        )?;
        let more = Results::of(config, indexed.bundle(), time, spans);
        let text = with_more(results, count, text, more, spans.len())?;
        Ok(Grown { text, pieces })
    }
}

/// A text with the rows of some results behind it, which stand in it already. The only refusal is want of memory, of
/// which more would be in use.
fn with_more(
    results: Series<Results>,
    count: usize,
    text: String,
    more: Results,
    others: usize,
) -> Result<Growing, Memory>
    requires count { count ≡ length (in_turn results) }
    requires others { others ≡ length more }
    requires text { string_bytes text ≡ row_texts true (in_turn results) ++ row_texts true more }
    ensures { IfOk result (λ made. made ≡ in_turn results ++ more) }
{
    let Some(count) = count.checked_add(others) else {
        return Err(Memory);
    };
    let mut results = results;
    results.push(more)?;
    Ok(Growing {
        results,
        count,
        text,
    })
}

/// Takes room for the rows of a text that has none yet. The only refusal is want of memory.
fn make_room(text: &mut String) -> Result<(), Memory>
    ensures { string_bytes text.new ≡ string_bytes text.old }
{
    if text.is_empty() {
        text.reserve(OPEN_ROWS * ROW_BYTES)?;
    }
    Ok(())
}

/// Writes the rows of some results on a level, each behind a comma, with times from a SEGMENT level by the rows of
/// dominance that the bundle keeps, or by those that it makes. The only refusal is want of memory.
fn push_below(
    out: &mut String,
    alloc: Global,
    config: &Config,
    indexed: &Indexed,
    pieces: NamePieces,
    level: usize,
    time: usize,
    first: u32,
    spans: &[Span],
) -> Result<NamePieces, Memory>
    requires fits { FitsConfig config.now indexed.now.bundle }
    requires level { level < length config.now.levels }
    requires pieces { pieces ≡ names_at config.now indexed.now.bundle level first }
    requires time { IsTimeLevel config.now time }
    requires spans { AreThere config.now indexed.now.bundle level spans.now }
    ensures { OnOk result (string_bytes out.new ≡ string_bytes out.old
        ++ row_texts true (map (row_of config.now indexed.now.bundle (Some time)) spans.now)) }
{
    let bundle = indexed.bundle();
    if let Some(rows) = indexed.kept_closure(config, level, time) {
        let below = Some(Below { time, rows });
        return push_results(
            out, alloc, config, bundle, pieces, &below, level, first, spans,
        );
    }
    let rows = match indexed.closure(alloc, config, level, time) {
        Ok(rows) => rows,
        Err(fault) => {
            drop(pieces);
            return Err(fault);
        }
    };
    let below = Some(Below { time, rows: &rows });
    push_results(
        out, alloc, config, bundle, pieces, &below, level, first, spans,
    )
}

/// Writes the rows of some results on a level, each behind a comma. The only refusal is want of memory.
///
/// On an ITEM level the rows have their times from the SEGMENT level `time`, where there is one.
fn push_timed(
    out: &mut String,
    alloc: Global,
    config: &Config,
    indexed: &Indexed,
    pieces: NamePieces,
    level: usize,
    time: Option<usize>,
    first: u32,
    spans: &[Span],
) -> Result<NamePieces, Memory>
    requires fits { FitsConfig config.now indexed.now.bundle }
    requires level { level < length config.now.levels }
    requires pieces { pieces ≡ names_at config.now indexed.now.bundle level first }
    requires time { IfSome time (IsTimeLevel config.now) }
    requires spans { AreThere config.now indexed.now.bundle level spans.now }
    ensures { OnOk result (string_bytes out.new ≡ string_bytes out.old
        ++ row_texts true (map (row_of config.now indexed.now.bundle time) spans.now)) }
{
    match time {
        Some(time) => push_below(
            out, alloc, config, indexed, pieces, level, time, first, spans,
        ),
        None => push_results(
            out,
            alloc,
            config,
            indexed.bundle(),
            pieces,
            &None,
            level,
            first,
            spans,
        ),
    }
}
