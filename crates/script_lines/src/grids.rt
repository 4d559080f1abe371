//! The bundle that a line brings as a TextGrid.
ghost use Rattle.std.specs.Prelude.{◌≡◌, ◌≤◌, IfOk, Ok, codes};
ghost use Rattle.json_view.specs.Inner.Gives.{Gives};
ghost use Rattle.json_view.specs.Inner.Seen.{seen_at};
ghost use Rattle.emu_names.specs.declared.limits.TheConstants.{TOP_RATE};
ghost use Rattle.session_core.specs.declared.line.Request.TheVariants as requests;
ghost use Rattle.textgrid.specs.Inner.Told.{TellsFault};
ghost use Rattle.script_lines.specs.Edits.{grid_act, grid_annot, textgrid_request};

use crate::edits::asks_alone;
use crate::forms::{key_at, rate_at};
use edit_rules::Edit;
use emu_names::BundleKey;
use json_view::{View, ViewFault, Wanted};
use level_items::Annot;
use session_core::Request;
use std::alloc::Global;
use textgrid::{GridFault, read_textgrid, to_annot};

/// The most bytes of a TextGrid's text; a line is far shorter. Behind them memory is said to run out.
const TEXT_LIMIT: usize = 4_294_967_295;

// The annotation of a TextGrid's text, or its first fault.
fn grid_annot(alloc: Global, rate: u32, text: &str) -> Result<Annot, GridFault>
    requires least { 1 ≤ rate }
    requires most { rate ≤ TOP_RATE }
    ensures ok { IfOk result (λ annot. grid_annot rate text.now ≡ Ok annot) }
    ensures err { TellsFault result (grid_annot rate text.now) }
{
    if text.len() > TEXT_LIMIT {
        return Err(GridFault::Memory);
    }
    let grid = read_textgrid(alloc, text.as_bytes())?;
    to_annot(alloc, rate, &grid)
}

// The request to add a TextGrid's annotation, or the TextGrid's fault.
fn grid_request(alloc: Global, key: BundleKey, rate: u32, text: &str) -> Result<Request, ViewFault>
    requires least { 1 ≤ rate }
    requires most { rate ≤ TOP_RATE }
    ensures { Gives (λ r. r) result
        (Ok (requests.Edit (grid_act key (grid_annot rate text.now)))) }
{
    match grid_annot(alloc, rate, text) {
        Ok(annot) => asks_alone(alloc, Edit::AddBundle { key, annot }),
        Err(GridFault::Memory) => Err(ViewFault::Memory),
        Err(fault) => Ok(Request::Edit(Err(fault))),
    }
}

/// `add_textgrid`: the names of the session and the bundle, the sample rate, and the TextGrid's text.
#[tactic(auto, unfolding(crate::specs::Edits::textgrid_request, config_json::specs::Forms::text_member))]
pub(crate) fn textgrid_request(alloc: Global, view: &View) -> Result<Request, ViewFault>
    ensures { Gives (λ r. r) result (textgrid_request (seen_at view.now)) }
{
    let key = key_at(alloc, view)?;
    let rate = rate_at(view)?;
    let part = view.member("text", Wanted::Text)?;
    let text = part.text()?;
    grid_request(alloc, key, rate, text)
}
