//! Tests by patterns: each pattern is asked once for each label of a column, and the items read the
//! answers by the numbers of their labels.
ghost use Rattle.std.specs.Prelude.{◌≡◌, ◌<◌, All, length, map, slice_get, IfOk, OnOk, Some};
ghost use Rattle.eql_model.specs.Labels.{is_matched};
ghost use Rattle.level_items.specs.Levels.{label_of, items_at};
ghost use Rattle.eql_model.specs.Inner.Labels.{matched_row};
ghost use Rattle.label_match.specs.Pattern.{matches_label};
ghost use Rattle.bundle_index.specs.Inner.Numbered.{IsColumnOf};
ghost use Rattle.eql_columns.specs.Inner.Labels.{AreAnswers, HasColumn, label_at};
ghost use Rattle.eql_columns.specs.Inner.Rows.{IsUnsetFor};

use crate::matchers::{Matcher, Matchers};
use crate::rows::{none_set, set_any};
use bundle_index::Indexed;
use db_config::AttributePlace;
use emu_names::{Memory, Series};
use eql_rows::label_of;
use label_match::Pattern;
use lane_bits::BitRow;
use level_items::Item;
use std::alloc::Global;

/// Whether the pattern matches the label of the item at a position, which has this number: as it is known of the
/// label's key, else as the pattern answers, which is known then.
fn learned_at(
    matcher: &mut Matcher,
    indexed: &Indexed,
    number: u32,
    attribute: usize,
    items: &[Item],
    at: usize,
) -> bool
    requires at { at < length items.now }
    requires number { slice_get indexed.now.labels number ≡ Some (label_at attribute items.now at) }
    ensures answer { result ≡ matches_label matcher.old (label_at attribute items.now at) }
    ensures same { matcher.new ≡ matcher.old }
{
    let key = indexed.label_key(number);
    match matcher.known(key) {
        Some(is) => is,
        None => matcher.learn(key, label_of(&items[at], attribute)),
    }
}

/// Whether the pattern matches the label of the item at a position: as it is noted at the label's
/// number, else as the matcher answers, which is noted then.
fn answer_at(
    answers: &mut Series<Option<bool>>,
    matcher: &mut Matcher,
    indexed: &Indexed,
    column: &[u32],
    attribute: usize,
    items: &[Item],
    at: usize,
) -> bool
    requires at { at < length items.now }
    requires numbers { IsColumnOf indexed.now.labels column.now (map (label_of attribute) items.now) }
    requires within { All (λ n. n < length answers.old) column.now }
    requires answers { AreAnswers matcher.old column.now (map (label_of attribute) items.now) answers.old }
    ensures answer { result ≡ matches_label matcher.old (label_at attribute items.now at) }
    ensures answers { AreAnswers matcher.old column.now (map (label_of attribute) items.now) answers.new }
    ensures count { length answers.new ≡ length answers.old }
    ensures same { matcher.new ≡ matcher.old }
{
    let number = column[at];
    if let Some(is) = *answers.get(number as usize) {
        return is;
    }
    let is = learned_at(matcher, indexed, number, attribute, items, at);
    answers.set(number as usize, Some(is));
    is
}

/// One more than the greatest number of a column, or 0.
fn numbers_within(column: &[u32]) -> usize
    ensures { All (λ n. n < result) column.now }
{
    let mut most = 0;
    for number in column {
        most = most.max(*number as usize + 1);
    }
    most
}

/// For each item whether the pattern matches its label. The only refusal is want of memory.
fn matched_bits(
    alloc: Global,
    matcher: &mut Matcher,
    indexed: &Indexed,
    column: &[u32],
    attribute: usize,
    items: &[Item],
) -> Result<BitRow, Memory>
    requires numbers { IsColumnOf indexed.now.labels column.now (map (label_of attribute) items.now) }
    ensures { IfOk result (λ row. row ≡ matched_row attribute items.now matcher.old) }
{
    let mut answers = Series::from_vec(vec![in alloc; None; numbers_within(column)]?);
    let mut row = none_set(alloc, items.len())?;
    for at in 0..items.len() {
        let is = answer_at(&mut answers, matcher, indexed, column, attribute, items, at);
        row.set(at, is);
    }
    Ok(row)
}

/// For each item of a level whether a pattern matches its label. The only refusal is want of memory.
fn pattern_row<'q>(
    alloc: Global,
    indexed: &Indexed,
    place: AttributePlace,
    pattern: &'q Pattern,
    matchers: &mut Matchers<'q>,
) -> Result<BitRow, Memory>
    requires { HasColumn indexed.now.bundle place }
    ensures { IfOk result (λ row. row
        ≡ matched_row place.attribute (items_at indexed.now.bundle.levels place.level) pattern.now) }
{
    let column = indexed.column(place.level, place.attribute);
    let items = eql_rows::items_at(indexed.bundle(), place.level);
    let matcher = matchers.matcher(alloc, pattern)?;
    matched_bits(alloc, matcher, indexed, column, place.attribute, items)
}

/// For each pattern the row of the items whose label it matches. The only refusal is want of memory.
fn pattern_rows<'q>(
    alloc: Global,
    indexed: &Indexed,
    place: AttributePlace,
    patterns: &'q [Pattern],
    matchers: &mut Matchers<'q>,
) -> Result<Series<BitRow>, Memory>
    requires { HasColumn indexed.now.bundle place }
    ensures { IfOk result (λ rows. rows ≡ map (matched_row place.attribute
        (items_at indexed.now.bundle.levels place.level)) patterns.now) }
{
    let mut rows = Series::new(alloc);
    for pattern in patterns {
        rows.push(pattern_row(alloc, indexed, place, pattern, matchers)?)?;
    }
    Ok(rows)
}

/// Sets the bits of the items of a level whose label some pattern matches, in a row of which no bit is set.
/// The only refusal is want of memory.
pub(crate) fn set_pattern_bits<'q>(
    alloc: Global,
    indexed: &Indexed,
    place: AttributePlace,
    patterns: &'q [Pattern],
    matchers: &mut Matchers<'q>,
    row: &mut BitRow,
) -> Result<(), Memory>
    requires column { HasColumn indexed.now.bundle place }
    requires unset { IsUnsetFor indexed.now.bundle place.level row.old }
    ensures { OnOk result (row.new ≡ map (λ item. is_matched patterns.now
        (label_of place.attribute item)) (items_at indexed.now.bundle.levels place.level)) }
{
    let rows = pattern_rows(alloc, indexed, place, patterns, matchers)?;
    set_any(rows.as_slice(), row);
    Ok(())
}
