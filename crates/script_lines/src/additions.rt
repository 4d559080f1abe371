//! The requests for additions to the configuration.
ghost use Rattle.json_view.specs.Inner.Seen.{seen_at};
ghost use Rattle.script_lines.specs.Inner.Faults.{Reads};
ghost use Rattle.script_lines.specs.Acts.{attribute_request, definition_request, level_request};

use crate::edits::asks;
use crate::faults::LineFault;
use crate::forms::text_member;
use config_json::{attribute_in, level_in, link_in};
use edit_rules::{Act, ConfigEdit};
use json_view::{View, Wanted};
use session_core::Request;
use std::alloc::Global;

/// `add_level`: the level, as in a configuration (EMU-SDMS Manual, "The emuDB format": `levelDefinitions` of
/// `_DBconfig.json`).
#[tactic(auto, unfolding(crate::specs::Acts::level_request))]
pub(crate) fn level_request(alloc: Global, view: &View) -> Result<Request, LineFault>
    ensures { Reads result (level_request (seen_at view.now)) }
{
    let member = view.member("level", Wanted::Object)?;
    let level = level_in(alloc, &member)?;
    Ok(asks(Act::Config(ConfigEdit::AddLevel { level })))
}

/// `add_attribute`: the name of the level, and the attribute, as in a configuration (EMU-SDMS Manual, "The emuDB
/// format": `attributeDefinitions` of `_DBconfig.json`).
#[tactic(auto, unfolding(crate::specs::Acts::attribute_request))]
pub(crate) fn attribute_request(alloc: Global, view: &View) -> Result<Request, LineFault>
    ensures { Reads result (attribute_request (seen_at view.now)) }
{
    let level = text_member(alloc, view, "level")?;
    let member = view.member("attribute", Wanted::Object)?;
    let attribute = attribute_in(alloc, &member)?;
    Ok(asks(Act::Config(ConfigEdit::AddAttribute { level, attribute })))
}

/// `add_link_definition`: the link definition, as in a configuration, by the names of its levels (EMU-SDMS Manual,
/// "The emuDB format": `linkDefinitions` of `_DBconfig.json`).
#[tactic(auto, unfolding(crate::specs::Acts::definition_request))]
pub(crate) fn definition_request(alloc: Global, view: &View) -> Result<Request, LineFault>
    ensures { Reads result (definition_request (seen_at view.now)) }
{
    let member = view.member("definition", Wanted::Object)?;
    let link = link_in(alloc, &member)?;
    Ok(asks(Act::Config(ConfigEdit::AddLinkDefinition {
        kind: link.kind,
        upper: link.upper,
        lower: link.lower,
    })))
}
