//! The text of rows.
ghost use Rattle.std.specs.Prelude.{◌≡◌, ◌<◌, ◌++◌, IfOk, IfSome, OnOk, true, codes, length, map, option_map, string_bytes};
ghost use Rattle.json.specs.Print.{escape};
ghost use Rattle.eql_rows.specs.Rows.{items_of, joined_labels};
ghost use Rattle.eql_rows.specs.Spans.{AreThere, IsStretchIn};
ghost use Rattle.eql_model.specs.Inner.Below.{IsBelow};
ghost use Rattle.eql_model.specs.Rows.{row_of};
ghost use Rattle.segment_list.specs.Inner.Pieces.{back_text, end_text, head_text, names_at, names_of, row_text, row_texts, samples_text, start_text};

use crate::digits::Backwards;
use crate::names::NamePieces;
use crate::pieces::push_within;
use bundle_state::Bundle;
use db_config::Config;
use emu_names::{Memory, Text};
use eql_model::{Below, numbers_below};
use eql_rows::{
    Row, RowNumbers, Span, attribute_name, items_of, joined_labels, label_of, level_name,
};
use std::alloc::Global;

/// The bytes of a row's text for which room is taken, about as many as most rows have.
pub(crate) const ROW_BYTES: usize = 240;

/// The numbers of a row from the time of its end to the quote before its labels.
fn end_numbers(row: &RowNumbers) -> Backwards
    ensures { result ≡ end_text row.now }
{
    let mut out = Backwards::new();
    out.put(",\"labels\":\"");
    out.put_number(row.end_pos as u64);
    out.put(",\"endPos\":");
    out.put_number(row.end_item.0 as u64);
    out.put(",\"endItem\":");
    out.put_or_null(row.end);
    out
}

/// The numbers of a row from its last sample to its first one.
fn sample_numbers(row: &RowNumbers) -> Backwards
    ensures { result ≡ samples_text row.now }
{
    let mut out = Backwards::new();
    out.put_or_null(row.sample_start);
    out.put(",\"sampleStart\":");
    out.put_number(row.rate as u64);
    out.put(",\"sampleRate\":");
    out.put_or_null(row.sample_end);
    out
}

/// The numbers of a row from the time of its start to the closing brace.
fn start_numbers(row: &RowNumbers) -> Backwards
    ensures { result ≡ start_text row.now }
{
    let mut out = Backwards::new();
    out.put("}");
    out.put_number(row.start_pos as u64);
    out.put(",\"startPos\":");
    out.put_number(row.start_item.0 as u64);
    out.put(",\"startItem\":");
    out.put_or_null(row.start);
    out
}

/// Writes a row from the comma before it to the quote before its labels. The only refusal is
/// want of memory.
fn push_head(out: &mut String, pieces: &NamePieces, row: &RowNumbers) -> Result<(), Memory>
    ensures { OnOk result (string_bytes out.new
        ≡ string_bytes out.old ++ (head_text pieces.now ++ end_text row.now)) }
{
    out.push_str(pieces.head())?;
    out.push_str(end_numbers(row).as_str())?;
    Ok(())
}

/// Writes a row from the quote behind its labels to the closing brace. The only refusal is want of memory.
fn push_back(out: &mut String, pieces: &NamePieces, row: &RowNumbers) -> Result<(), Memory>
    ensures { OnOk result (string_bytes out.new ≡ string_bytes out.old ++ back_text pieces.now row.now) }
{
    out.push_str(pieces.before_end())?;
    out.push_str(sample_numbers(row).as_str())?;
    out.push_str(pieces.before_start())?;
    out.push_str(start_numbers(row).as_str())?;
    Ok(())
}

/// Writes a row that was made, behind a comma. The only refusal is want of memory.
fn push_row(out: &mut String, alloc: Global, pieces: &NamePieces, row: &Row) -> Result<(), Memory>
    requires { pieces.now ≡ names_of row.now }
    ensures { OnOk result (string_bytes out.new
        ≡ string_bytes out.old ++ (codes "," ++ row_text row.now)) }
{
    let numbers = row.numbers();
    push_head(out, pieces, &numbers)?;
    push_within(out, alloc, row.labels.as_str())?;
    push_back(out, pieces, &numbers)?;
    Ok(())
}

/// Writes rows that were made, each behind a comma, with pieces that are made anew where the names change. The only
/// refusal is want of memory.
fn push_each(out: &mut String, alloc: Global, first: NamePieces, rows: &[Row]) -> Result<(), Memory>
    ensures { OnOk result (string_bytes out.new
        ≡ string_bytes out.old ++ row_texts true rows.now) }
{
    let mut pieces = first;
    for row in rows {
        pieces = pieces.turned_to(
            alloc,
            row.session.as_str(),
            row.bundle.copy(alloc)?,
            row.level.as_str(),
            row.attribute.as_str(),
        )?;
        push_row(out, alloc, &pieces, row)?;
    }
    Ok(())
}

/// Writes rows that were made, each behind a comma. The only refusal is want of memory.
fn push_rows(out: &mut String, alloc: Global, rows: &[Row]) -> Result<(), Memory>
    ensures { OnOk result (string_bytes out.new
        ≡ string_bytes out.old ++ row_texts true rows.now) }
{
    let Some(first) = rows.first() else {
        return Ok(());
    };
    let pieces = NamePieces::new(
        alloc,
        first.session.as_str(),
        first.bundle.copy(alloc)?,
        first.level.as_str(),
        first.attribute.as_str(),
    )?;
    push_each(out, alloc, pieces, rows)
}

/// The text of rows, each behind a comma. The only refusal is want of memory.
pub(crate) fn text_of_rows(alloc: Global, rows: &[Row]) -> Result<Text, Memory>
    ensures { IfOk result (λ text. text ≡ row_texts true rows.now) }
{
    let mut out = String::with_capacity(alloc, rows.len().saturating_mul(ROW_BYTES))?;
    push_rows(&mut out, alloc, rows)?;
    Text::from_string(out)
}

/// Writes the labels of a result, joined by `->`, as they stand between quotes. The only refusal is want of memory.
fn push_labels(out: &mut String, alloc: Global, bundle: &Bundle, span: Span) -> Result<(), Memory>
    requires span { IsStretchIn bundle.now span }
    requires level { span.level < length bundle.now.levels }
    ensures { OnOk result (string_bytes out.new ≡ string_bytes out.old
        ++ escape (joined_labels span.attribute (items_of bundle.now span))) }
{
    let items = items_of(bundle, span);
    let attribute = span.attribute as usize;
    if let [item] = items {
        return push_within(out, alloc, label_of(item, attribute));
    }
    let labels = joined_labels(alloc, attribute, items)?;
    push_within(out, alloc, labels.as_str())
}

/// Writes the row of a result behind a comma. On an ITEM level it has its times by `below`, where it is given. The
/// only refusal is want of memory.
fn push_result(
    out: &mut String,
    alloc: Global,
    config: &Config,
    bundle: &Bundle,
    pieces: &NamePieces,
    below: &Option<Below>,
    span: Span,
) -> Result<(), Memory>
    requires span { IsStretchIn bundle.now span }
    requires level { span.level < length bundle.now.levels }
    requires pieces { pieces.now ≡ names_at config.now bundle.now span.level span.attribute }
    requires below { IfSome below.now (IsBelow bundle.now span.level) }
    ensures { OnOk result (string_bytes out.new ≡ string_bytes out.old ++ (codes ","
        ++ row_text (row_of config.now bundle.now (option_map (λ b. b.time) below.now) span))) }
{
    let numbers = numbers_below(config, bundle, below, span);
    push_head(out, pieces, &numbers)?;
    push_labels(out, alloc, bundle, span)?;
    push_back(out, pieces, &numbers)?;
    Ok(())
}

/// The pieces for rows on a level of a bundle that show an attribute of it: these, or else others. The only refusal is
/// want of memory.
pub(crate) fn pieces_at(
    alloc: Global,
    config: &Config,
    bundle: &Bundle,
    pieces: Option<NamePieces>,
    level: usize,
    attribute: usize,
) -> Result<NamePieces, Memory>
    ensures { IfOk result (λ made. made ≡ names_at config.now bundle.now level attribute) }
{
    let session = bundle.key().session.as_str();
    let name = bundle.key().bundle.to_text()?;
    let level_name = level_name(config, level);
    let attribute_name = attribute_name(config, level, attribute);
    match pieces {
        Some(pieces) => pieces.turned_to(alloc, session, name, level_name, attribute_name),
        None => NamePieces::new(alloc, session, name, level_name, attribute_name),
    }
}

/// The pieces for rows that show an attribute, of those for rows on the same level that show this number's. The only
/// refusal is want of memory.
fn pieces_showing(
    alloc: Global,
    config: &Config,
    bundle: &Bundle,
    pieces: NamePieces,
    level: usize,
    number: u32,
    attribute: u32,
) -> Result<NamePieces, Memory>
    requires { pieces ≡ names_at config.now bundle.now level number }
    ensures { IfOk result (λ made. made ≡ names_at config.now bundle.now level attribute) }
{
    if number == attribute {
        return Ok(pieces);
    }
    pieces_at(
        alloc,
        config,
        bundle,
        Some(pieces),
        level,
        attribute as usize,
    )
}

/// Writes the rows of some results on a level, each behind a comma, and gives back the pieces for the last one. The
/// only refusal is want of memory.
///
/// Each result lies on the level. On an ITEM level the rows have their times by `below`, where it is given.
pub(crate) fn push_results(
    out: &mut String,
    alloc: Global,
    config: &Config,
    bundle: &Bundle,
    pieces: NamePieces,
    below: &Option<Below>,
    level: usize,
    first: u32,
    spans: &[Span],
) -> Result<NamePieces, Memory>
    requires level { level < length bundle.now.levels }
    requires pieces { pieces ≡ names_at config.now bundle.now level first }
    requires below { IfSome below.now (IsBelow bundle.now level) }
    requires spans { AreThere config.now bundle.now level spans.now }
    ensures { OnOk result (string_bytes out.new ≡ string_bytes out.old
        ++ row_texts true (map (row_of config.now bundle.now (option_map (λ b. b.time) below.now)) spans.now)) }
{
    let mut pieces = pieces;
    let mut number = first;
    for span in spans {
        pieces = pieces_showing(alloc, config, bundle, pieces, level, number, span.attribute)?;
        number = span.attribute;
        push_result(out, alloc, config, bundle, &pieces, below, *span)?;
    }
    Ok(pieces)
}
