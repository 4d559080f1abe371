//! The commands by their words.
ghost use Rattle.std.specs.Prelude.{◌≡◌};
ghost use Rattle.script_lines.specs.CommandWords.{command_named};

use session_core::Command;

/// The command of a request's word, but for the configuration's and those of questions.
pub(crate) fn command_named(word: &str) -> Option<Command>
    ensures { result ≡ command_named word.now }
{
    match word {
        "add_bundle" => Some(Command::AddBundle),
        "add_textgrid" => Some(Command::AddTextgrid),
        "drop_bundle" => Some(Command::DropBundle),
        "add_item" => Some(Command::AddItem),
        "remove_item" => Some(Command::RemoveItem),
        "set_label" => Some(Command::SetLabel),
        "set_segment" => Some(Command::SetSegment),
        "move_boundary" => Some(Command::MoveBoundary),
        "set_point" => Some(Command::SetPoint),
        "split" => Some(Command::Split),
        "merge" => Some(Command::Merge),
        "add_link" => Some(Command::AddLink),
        "remove_link" => Some(Command::RemoveLink),
        "link_times" => Some(Command::LinkTimes),
        "edits" => Some(Command::Edits),
        "add_level" => Some(Command::AddLevel),
        "add_attribute" => Some(Command::AddAttribute),
        "add_link_definition" => Some(Command::AddLinkDefinition),
        "undo" => Some(Command::Undo),
        "finish" => Some(Command::Finish),
        "after" => Some(Command::After),
        _ => None,
    }
}
