//! The time and the labels of an item that a line gives.
ghost use Rattle.std.specs.Prelude.{◌≡◌, None};
ghost use Rattle.json_view.specs.Inner.Gives.{Gives};
ghost use Rattle.json_view.specs.Lists.{each_of};
ghost use Rattle.json_view.specs.Inner.Seen.{seen_at};
ghost use Rattle.annot_json.specs.Read.{label_in, labels_in, span_in, point_in};
ghost use Rattle.script_lines.specs.Forms.{span_or_point, time_at};

use crate::forms::{put_last, text_member, whole_member};
use emu_names::limits::TOP_WHOLE;
use json_view::{View, ViewFault};
use level_items::{AnnotLabel, AnnotLabels, Time};
use std::alloc::Global;

// A label.
#[tactic(auto, unfolding(annot_json::specs::Read::label_in))]
fn label_in(alloc: Global, view: &View) -> Result<AnnotLabel, ViewFault>
    ensures { Gives (λ l. l) result (label_in (seen_at view.now)) }
{
    view.object()?;
    let name = text_member(alloc, view, "name")?;
    let value = text_member(alloc, view, "value")?;
    Ok(AnnotLabel { name, value })
}

// The labels of a list.
#[tactic(auto, using(json_view::proofs::Each::each_steps), unfolding(json_view::specs::Lists::each_of))]
fn each_label(alloc: Global, view: &View) -> Result<AnnotLabels, ViewFault>
    ensures { Gives (λ l. l) result (each_of label_in (seen_at view.now)) }
{
    let count = view.list_len()?;
    let mut labels = AnnotLabels::new(alloc);
    for place in 0..count {
        let part = view.at(place)?;
        match label_in(alloc, &part) {
            Ok(label) => put_last(&mut labels, label)?,
            Err(fault) => return Err(fault),
        }
    }
    Ok(labels)
}

/// The member `labels`, which may be missing and is then empty (EMU-SDMS Manual, "The emuDB format":
/// `labels` of an item in `_annot.json`).
#[tactic(auto, unfolding(annot_json::specs::Read::labels_in))]
pub(crate) fn labels_in(alloc: Global, view: &View) -> Result<AnnotLabels, ViewFault>
    ensures { Gives (λ l. l) result (labels_in (seen_at view.now)) }
{
    match view.optional("labels")? {
        Some(part) => each_label(alloc, &part),
        None => Ok(AnnotLabels::new(alloc)),
    }
}

// The time of a segment, in samples.
#[tactic(auto, unfolding(annot_json::specs::Read::span_in))]
fn span_in(view: &View) -> Result<Time, ViewFault>
    ensures { Gives (λ t. t) result (span_in (seen_at view.now)) }
{
    let start = whole_member(view, "sampleStart", TOP_WHOLE)?;
    let dur = whole_member(view, "sampleDur", TOP_WHOLE)?;
    Ok(Time::Span { start, dur })
}

// The time of a point, in samples.
#[tactic(auto, unfolding(annot_json::specs::Read::point_in))]
fn point_in(view: &View) -> Result<Time, ViewFault>
    ensures { Gives (λ t. t) result (point_in (seen_at view.now)) }
{
    let at = whole_member(view, "samplePoint", TOP_WHOLE)?;
    Ok(Time::Point { at })
}

// The time of an item without `sampleStart`: a point where `samplePoint` is there, else none.
fn point_or_none(view: &View) -> Result<Time, ViewFault>
    ensures { Gives (λ t. t) result (span_or_point (seen_at view.now) None) }
{
    match view.optional("samplePoint")? {
        Some(_) => point_in(view),
        None => Ok(Time::NoTime),
    }
}

/// The time of an item: a span where `sampleStart` is there, else a point where `samplePoint` is there,
/// else none.
#[tactic(auto, unfolding(crate::specs::Forms::time_at))]
pub(crate) fn time_at(view: &View) -> Result<Time, ViewFault>
    ensures { Gives (λ t. t) result (time_at (seen_at view.now)) }
{
    match view.optional("sampleStart")? {
        Some(_) => span_in(view),
        None => point_or_none(view),
    }
}
