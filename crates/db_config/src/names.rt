//! The names that the levels of a configuration take.
ghost use Rattle.std.specs.Prelude.{◌≡◌, ◌≤◌, ◌++◌, ◌∷◌, ℕ, [], take, drop, length, IfOk, OnOk, option_map, is_none};
ghost use Rattle.std.specs.List.{list_any, flat_map};
ghost use Rattle.db_config.specs.Names.{names_of, all_names, first_double, are_distinct};
ghost use Rattle.emu_names.specs.Texts.{same_text};

use crate::parts::LevelDef;
use emu_names::{Memory, Series, Text};
use std::alloc::Global;

/// Puts a name last. The only refusal is want of memory.
fn put_name(alloc: Global, names: &mut Series<Text>, name: &str) -> Result<(), Memory>
    ensures { OnOk result (names.new ≡ names.old ++ name.now ∷ []) }
{
    names.push(Text::new(alloc, name)?)
}

/// Puts the names that a level takes last. The only refusal is want of memory.
fn put_names(alloc: Global, names: &mut Series<Text>, def: &LevelDef) -> Result<(), Memory>
    ensures { OnOk result (names.new ≡ names.old ++ names_of def.now) }
{
    put_name(alloc, names, def.name.as_str())?;
    let mut own = false;
    for attribute in def.attributes.as_slice() {
        if !own && attribute.name == def.name {
            own = true;
        } else {
            put_name(alloc, names, attribute.name.as_str())?;
        }
    }
    Ok(())
}

/// The names that the levels take, in reading order. The only refusal is want of memory.
pub fn all_names(alloc: Global, levels: &[LevelDef]) -> Result<Series<Text>, Memory>
    ensures { IfOk result (λ names. names ≡ all_names levels.now) }
{
    let mut names = Series::new(alloc);
    for level in levels {
        put_names(alloc, &mut names, level)?;
    }
    Ok(names)
}

/// Whether a text is among some texts.
pub fn is_among(text: &str, texts: &[Text]) -> bool
    ensures { result ≡ list_any (same_text text.now) texts.now }
{
    for other in texts {
        if text == other.as_str() {
            return true;
        }
    }
    false
}

/// Whether no name stands twice.
pub(crate) fn are_distinct(names: &[Text]) -> bool
    ensures { result ≡ are_distinct names.now }
{
    let mut rest = names;
    while let [first, after @ ..] = rest {
        if is_among(first.as_str(), after) {
            return false;
        }
        rest = after;
    }
    true
}

/// The first name from a place on that stands earlier.
fn first_double(names: &[Text], from: usize) -> Option<&Text>
    requires { from ≤ length names.now }
    ensures { option_map (λ name. name.now) result
        ≡ first_double (take from names.now) (drop from names.now) }
{
    for place in from..names.len() {
        if is_among(names[place].as_str(), &names[..place]) {
            return Some(&names[place]);
        }
    }
    None
}

/// A copy of that name. The only refusal is want of memory.
fn copied_double(alloc: Global, names: &[Text], from: usize) -> Result<Option<Text>, Memory>
    requires { from ≤ length names.now }
    ensures { IfOk result (λ found. found
        ≡ first_double (take from names.now) (drop from names.now)) }
{
    match first_double(names, from) {
        Some(name) => Ok(Some(name.copy(alloc)?)),
        None => Ok(None),
    }
}

/// The first name that an earlier level or attribute has, in reading order; a level may share its name
/// with one of its own attributes. The only refusal is want of memory.
pub fn double_name(alloc: Global, levels: &[LevelDef]) -> Result<Option<Text>, Memory>
    ensures { IfOk result (λ found. found ≡ first_double [] (all_names levels.now)) }
{
    let names = all_names(alloc, levels)?;
    copied_double(alloc, names.as_slice(), 0)
}

/// The first name of a level behind these that an earlier level or attribute has, in reading order. The
/// only refusal is want of memory.
#[tactic(auto, using(crate::proofs::Doubles::behind_names))]
pub fn double_of_level(
    alloc: Global,
    levels: &[LevelDef],
    def: &LevelDef,
) -> Result<Option<Text>, Memory>
    ensures { IfOk result (λ found. found ≡ first_double (all_names levels.now) (names_of def.now)) }
{
    let mut names = all_names(alloc, levels)?;
    let count = names.len();
    put_names(alloc, &mut names, def)?;
    copied_double(alloc, names.as_slice(), count)
}
