//! The annotation of a JSON value.
ghost use Rattle.json_view.specs.Inner.Gives.{Gives};
ghost use Rattle.json_view.specs.Inner.Seen.{seen_at};
ghost use Rattle.annot_json.specs.Read.{annot_of};

use crate::forms::{optional_text, whole_member};
use crate::read_parts::{levels_in, links_in};
use emu_names::limits::TOP_WHOLE;
use json_view::{View, ViewFault};
use level_items::Annot;
use std::alloc::Global;

/// The annotation of a value (EMU-SDMS Manual, "The emuDB format": `_annot.json`), or its first fault.
///
/// The members are read in this order: `name`, a text that may be missing and is not kept; `annotates`,
/// a text that may be missing and is then empty; `sampleRate`, a whole number up to 2^63 - 1; `levels`
/// and `links`, lists that may be missing and are then empty. A level has `name`, `type` (`ITEM`,
/// `SEGMENT` or `EVENT`) and the list `items`, which may be missing; an item has `id`, a whole number up
/// to 2^32 - 1, the list `labels`, which may be missing and whose elements have `name` and `value`, and
/// then the time of its level's type: `sampleStart` and `sampleDur`, or `samplePoint`, or none. A link
/// has `fromID` and `toID`. The first part that has another form is the fault (`Shape`, with its path
/// and the form that was wanted). No rule of bundles is tested here, nor any limit on the lists.
#[tactic(auto, unfolding(crate::specs::Read::annot_of))]
pub fn read_annot(alloc: Global, view: &View) -> Result<Annot, ViewFault>
    ensures { Gives (λ a. a) result (annot_of (seen_at view.now)) }
{
    view.object()?;
    let _ = optional_text(alloc, view, "name")?;
    let annotates = optional_text(alloc, view, "annotates")?;
    let rate = whole_member(view, "sampleRate", TOP_WHOLE)?;
    let levels = levels_in(alloc, view)?;
    let links = links_in(alloc, view)?;
    Ok(Annot {
        annotates,
        rate,
        levels,
        links,
    })
}
