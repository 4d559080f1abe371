//! The name that a new attribute takes.
ghost use Rattle.std.specs.Prelude.{◌≡◌, ◌&&◌, not, IfOk};
ghost use Rattle.std.specs.List.{list_any};
ghost use Rattle.emu_names.specs.Texts.{same_text};
ghost use Rattle.db_config.specs.Names.{all_names, first_double};
ghost use Rattle.config_additions.specs.Added.{has_attribute, new_names};

use db_config::{AttributeDef, LevelDef, all_names, is_among};
use emu_names::{Memory, Text};
use std::alloc::Global;

/// Whether a level has an attribute of this name.
fn has_attribute(defs: &[AttributeDef], name: &str) -> bool
    ensures { result ≡ list_any (λ a. same_text a.name name.now) defs.now }
{
    for def in defs {
        if def.name.as_str() == name {
            return true;
        }
    }
    false
}

/// Whether an attribute of this name would be the first to share its level's name.
fn shares_first(def: &LevelDef, name: &str) -> bool
    ensures { result ≡ (same_text def.now.name name.now && not (has_attribute name.now def.now)) }
{
    def.name.as_str() == name && !has_attribute(def.attributes.as_slice(), name)
}

/// The name of a new attribute of one of these levels, where an earlier level or attribute has it; it may
/// be the first to share its level's name. The only refusal is want of memory.
#[tactic(auto, using(crate::proofs::Grown::shares_none, crate::proofs::Grown::one_double, crate::proofs::Grown::one_fresh))]
pub(crate) fn double_of_attribute(
    alloc: Global,
    levels: &[LevelDef],
    def: &LevelDef,
    name: &str,
) -> Result<Option<Text>, Memory>
    ensures { IfOk result (λ found. found
        ≡ first_double (all_names levels.now) (new_names def.now name.now)) }
{
    if shares_first(def, name) {
        return Ok(None);
    }
    let names = all_names(alloc, levels)?;
    if is_among(name, names.as_slice()) {
        Ok(Some(Text::new(alloc, name)?))
    } else {
        Ok(None)
    }
}
