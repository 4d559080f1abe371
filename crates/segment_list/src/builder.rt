//! A list that is being made of results.
ghost use Rattle.std.specs.Prelude.{◌≡◌, ◌<◌, ◌++◌, [], Bool, List, IfOk, IfSome, OnOk, length, map};
ghost use Rattle.bundle_state.specs.Built.{FitsConfig};
ghost use Rattle.eql_resolve.specs.Asked.{result_level};
ghost use Rattle.eql_resolve.specs.Inner.Sound.{IsResolvedBy, IsTimeLevel};
ghost use Rattle.eql_rows.specs.Spans.{AreThere};
ghost use Rattle.eql_rows.specs.declared.row.Row.{Row};
ghost use Rattle.eql_model.specs.Inner.Rows.{GivesRows};
ghost use Rattle.eql_model.specs.Rows.{row_of};

use crate::growing::{Growing, Grown};
use crate::listing::Listing;
use crate::names::NamePieces;
use bundle_index::Indexed;
use db_config::Config;
use emu_names::Memory;
use eql_resolve::Asked;
use eql_rows::Spans;
use eql_tuples::MatchFault;
use std::alloc::Global;
use std::marker::Model;
use std::mem::replace;

/// The rows of a list that is being made, which contracts see as the rows. Their text is written as they come, a
/// hundred or so to a part.
#[derive(Drop)]
pub struct ListingBuilder {
    done: Listing,
    growing: Growing,
    pieces: Option<NamePieces>,
}

impl Model for ListingBuilder {
    ghost use Rattle.std.specs.Prelude.{◌++◌, List};
    ghost use Rattle.eql_rows.specs.declared.row.Row.{Row};

    ghost Value = { List Row };

    ghost view = { λ b. b.done ++ b.growing };
}

impl ListingBuilder {
    /// The list of no row. It grows by `alloc`.
    pub fn new(alloc: Global) -> ListingBuilder
        ensures { result ≡ [] }
    {
        ListingBuilder {
            done: Listing::new(alloc),
            growing: Growing::new(alloc),
            pieces: None,
        }
    }

    /// Puts the rows of some results on a level of an indexed bundle last, in their order (EMU-SDMS Manual, "The EMU
    /// Query Language (EQL)": segment lists). Times are whole microseconds. The only refusal is want of memory, after
    /// which nothing is promised of the list.
    ///
    /// The bundle has the configuration's levels and link definitions, and each result lies on the level. On an
    /// ITEM level the rows have their times from the SEGMENT level `time`, where there is one.
    pub fn append_at(
        &mut self,
        alloc: Global,
        config: &Config,
        indexed: &Indexed,
        level: usize,
        time: Option<usize>,
        spans: &Spans,
    ) -> Result<(), Memory>
        requires fits { FitsConfig config.now indexed.now.bundle }
        requires level { level < length config.now.levels }
        requires time { IfSome time (IsTimeLevel config.now) }
        requires spans { AreThere config.now indexed.now.bundle level spans.now }
        ensures { OnOk result (self.new
            ≡ self.old ++ map (row_of config.now indexed.now.bundle time) spans.now) }
    {
        let Some(first) = spans.as_slice().first() else {
            return Ok(());
        };
        let pieces = replace(&mut self.pieces, None);
        let text = replace(&mut self.growing, Growing::new(alloc));
        let Grown { text, pieces } = text.longer(
            alloc, config, indexed, pieces, level, time, *first, spans,
        )?;
        let is_long = text.is_long();
        self.growing = text;
        self.pieces = Some(pieces);
        if is_long { self.close(alloc) } else { Ok(()) }
    }

    /// Puts the rows of results of a query in an indexed bundle last, in their order. The only refusal is want of
    /// memory, after which nothing is promised of the list.
    ///
    /// The query was resolved by the configuration, whose levels and link definitions the bundle has, and each
    /// result lies on the level of the results.
    pub fn append_of(
        &mut self,
        alloc: Global,
        config: &Config,
        indexed: &Indexed,
        asked: &Asked,
        spans: &Spans,
    ) -> Result<(), Memory>
        requires resolved { IsResolvedBy config.now asked.now }
        requires fits { FitsConfig config.now indexed.now.bundle }
        requires spans { AreThere config.now indexed.now.bundle (result_level asked.now.query) spans.now }
        ensures { OnOk result (self.new
            ≡ self.old ++ map (row_of config.now indexed.now.bundle asked.now.time) spans.now) }
    {
        let level = asked.query().result_level();
        self.append_at(alloc, config, indexed, level, asked.time(), spans)
    }

    /// Puts no more rows behind those of the text that grows, and begins another. The only refusal is want of memory,
    /// after which nothing is promised of the list.
    fn close(&mut self, alloc: Global) -> Result<(), Memory>
        ensures { OnOk result (self.new ≡ self.old) }
    {
        let text = replace(&mut self.growing, Growing::new(alloc));
        let done = replace(&mut self.done, Listing::new(alloc));
        self.done = with_text_behind(alloc, done, text)?;
        Ok(())
    }

    /// The rows as their text. The only refusal is want of memory.
    fn finish(self, alloc: Global) -> Result<Listing, Memory>
        ensures { IfOk result (λ made. made ≡ self) }
    {
        let ListingBuilder {
            done,
            growing,
            pieces,
        } = self;
        drop(pieces);
        with_text_behind(alloc, done, growing)
    }
}

/// A list, and the rows of a text behind it. The only refusal is want of memory.
fn with_text_behind(alloc: Global, list: Listing, text: Growing) -> Result<Listing, Memory>
    ensures { IfOk result (λ made. made ≡ list ++ text) }
{
    let more = Listing::of_text(alloc, text)?;
    list.append(more)
}

/// The rows that were made for a query, as their text. The only refusal of its own is want of memory.
pub fn finished(
    alloc: Global,
    made: Result<ListingBuilder, MatchFault>,
) -> Result<Listing, MatchFault>
    ensures { (rows : List Row) (many : Bool) → GivesRows made rows many → GivesRows result rows many }
{
    match made {
        Ok(builder) => match builder.finish(alloc) {
            Ok(list) => Ok(list),
            Err(_) => Err(MatchFault::Memory),
        },
        Err(fault) => Err(fault),
    }
}
