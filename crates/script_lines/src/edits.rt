//! The requests for edits that stand alone, and the edits of links.
ghost use Rattle.std.specs.Prelude.{◌≡◌, Ok};
ghost use Rattle.json_view.specs.Inner.Gives.{Gives};
ghost use Rattle.json_view.specs.Inner.Seen.{seen_at};
ghost use Rattle.script_lines.specs.Edits.{alone, asks, bundle_request, drop_request, link_edit, times_request, unlink_edit};

use crate::forms::{id_at, key_at, text_member};
use annot_json::read_annot;
use edit_rules::{Act, Edit, Edits};
use emu_names::BundleKey;
use json_view::{View, ViewFault, Wanted};
use session_core::Request;
use std::alloc::Global;

/// The request for an act.
pub(crate) fn asks(act: Act) -> Request
    ensures { result ≡ asks act }
{
    Request::Edit(Ok(act))
}

/// The request for an edit alone.
pub(crate) fn asks_alone(alloc: Global, edit: Edit) -> Result<Request, ViewFault>
    ensures { Gives (λ r. r) result (Ok (asks (alone edit))) }
{
    match Edits::one(alloc, edit) {
        Ok(edits) => Ok(asks(Act::Edits(edits))),
        Err(_) => Err(ViewFault::Memory),
    }
}

/// `add_bundle`: the names of the session and the bundle, and an annotation.
#[tactic(auto, unfolding(crate::specs::Edits::bundle_request))]
pub(crate) fn bundle_request(alloc: Global, view: &View) -> Result<Request, ViewFault>
    ensures { Gives (λ r. r) result (bundle_request (seen_at view.now)) }
{
    let key = key_at(alloc, view)?;
    let member = view.member("annot", Wanted::Object)?;
    let annot = read_annot(alloc, &member)?;
    asks_alone(alloc, Edit::AddBundle { key, annot })
}

/// `drop_bundle`: the names of the session and the bundle.
#[tactic(auto, unfolding(crate::specs::Edits::drop_request))]
pub(crate) fn drop_request(alloc: Global, view: &View) -> Result<Request, ViewFault>
    ensures { Gives (λ r. r) result (drop_request (seen_at view.now)) }
{
    let key = key_at(alloc, view)?;
    asks_alone(alloc, Edit::DropBundle { key })
}

/// `link_times`: the bundle, and the names of the level of the segments and of that of the items.
#[tactic(auto, unfolding(crate::specs::Edits::times_request))]
pub(crate) fn times_request(alloc: Global, view: &View) -> Result<Request, ViewFault>
    ensures { Gives (λ r. r) result (times_request (seen_at view.now)) }
{
    let key = key_at(alloc, view)?;
    let upper = text_member(alloc, view, "upper")?;
    let lower = text_member(alloc, view, "lower")?;
    asks_alone(alloc, Edit::LinkTimes { key, upper, lower })
}

/// `add_link`: the ids of the upper and of the lower item.
#[tactic(auto, unfolding(crate::specs::Edits::link_edit))]
pub(crate) fn link_edit(key: BundleKey, view: &View) -> Result<Edit, ViewFault>
    ensures { Gives (λ e. e) result (link_edit key (seen_at view.now)) }
{
    let from = id_at(view, "fromID")?;
    let to = id_at(view, "toID")?;
    Ok(Edit::AddLink { key, from, to })
}

/// `remove_link`: the ids of the upper and of the lower item.
#[tactic(auto, unfolding(crate::specs::Edits::unlink_edit))]
pub(crate) fn unlink_edit(key: BundleKey, view: &View) -> Result<Edit, ViewFault>
    ensures { Gives (λ e. e) result (unlink_edit key (seen_at view.now)) }
{
    let from = id_at(view, "fromID")?;
    let to = id_at(view, "toID")?;
    Ok(Edit::RemoveLink { key, from, to })
}
