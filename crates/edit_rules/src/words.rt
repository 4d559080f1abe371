//! The words of acts in a history.
ghost use Rattle.std.specs.Prelude.{◌≡◌};
ghost use Rattle.edit_rules.specs.Words.{act_word, addition_word, edit_word, edits_word};

use crate::acts::{Act, ConfigEdit, Edits};
use bundle_edits::Edit;

/// The name of an edit.
fn edit_word(edit: &Edit) -> &'static str
    ensures { result.now ≡ edit_word edit.now }
{
    match edit {
        Edit::AddBundle { .. } => "add_bundle",
        Edit::DropBundle { .. } => "drop_bundle",
        Edit::AddItem { .. } => "add_item",
        Edit::RemoveItem { .. } => "remove_item",
        Edit::SetLabel { .. } => "set_label",
        Edit::SetSegment { .. } => "set_segment",
        Edit::MoveBoundary { .. } => "move_boundary",
        Edit::SetPoint { .. } => "set_point",
        Edit::Split { .. } => "split",
        Edit::Merge { .. } => "merge",
        Edit::AddLink { .. } => "add_link",
        Edit::RemoveLink { .. } => "remove_link",
        Edit::LinkTimes { .. } => "link_times",
        Edit::PutItem { .. } => "put_item",
        Edit::PutLabel { .. } => "put_label",
        Edit::PutLink { .. } => "put_link",
    }
}

/// The name of a list of edits: that of an edit alone.
#[tactic(auto, using(crate::proofs::ActNames::word_of_one, crate::proofs::ActNames::word_of_more))]
fn edits_word(edits: &Edits) -> &'static str
    ensures { result.now ≡ edits_word edits.now }
{
    if edits.len() == 1 {
        return edit_word(edits.get(0));
    }
    "edits"
}

/// The name of an addition to the configuration.
fn addition_word(addition: &ConfigEdit) -> &'static str
    ensures { result.now ≡ addition_word addition.now }
{
    match addition {
        ConfigEdit::AddLevel { .. } => "add_level",
        ConfigEdit::AddAttribute { .. } => "add_attribute",
        ConfigEdit::AddLinkDefinition { .. } => "add_link_definition",
    }
}

/// The name of an act.
pub(crate) fn act_word(act: &Act) -> &'static str
    ensures { result.now ≡ act_word act.now }
{
    match act {
        Act::Edits(edits) => edits_word(edits),
        Act::Config(addition) => addition_word(addition),
    }
}
