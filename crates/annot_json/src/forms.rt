//! The members of the objects of an annotation, each read as what it has to be.
ghost use Rattle.std.specs.Prelude.{◌≡◌, ◌≤◌, ◌++◌, ◌∷◌, [], IfOk, IfErr, OnOk};
ghost use Rattle.json_view.specs.Inner.Gives.{Gives};
ghost use Rattle.json_view.specs.Inner.Seen.{seen_at};
ghost use Rattle.config_json.specs.Forms.{text_member, optional_text, level_kind_in, level_kind_at};
ghost use Rattle.annot_json.specs.Forms.{whole_member};

use emu_names::{LevelKind, Series, Text};
use json_view::{View, ViewFault, Wanted};
use std::alloc::Global;

// A text of one's own. It fails only for want of memory.
fn owned(alloc: Global, text: &str) -> Result<Text, ViewFault>
    ensures text { IfOk result (λ made. made ≡ text.now) }
    ensures memory { IfErr result (λ e. e ≡ ViewFault.Memory) }
{
    match Text::new(alloc, text) {
        Ok(made) => Ok(made),
        Err(_) => Err(ViewFault::Memory),
    }
}

/// The list of no element, with room for so many. It fails only for want of memory.
pub(crate) fn with_capacity<T>(alloc: Global, count: usize) -> Result<Series<T>, ViewFault>
    ensures none { IfOk result (λ made. made ≡ []) }
    ensures memory { IfErr result (λ e. e ≡ ViewFault.Memory) }
{
    match Vec::with_capacity(alloc, count) {
        Ok(items) => Ok(Series::from_vec(items)),
        Err(_) => Err(ViewFault::Memory),
    }
}

/// Puts an element last. It fails only for want of memory.
pub(crate) fn put_last<T: Drop>(list: &mut Series<T>, item: T) -> Result<(), ViewFault>
    ensures last { OnOk result (list.new ≡ list.old ++ item ∷ []) }
    ensures memory { IfErr result (λ e. e ≡ ViewFault.Memory) }
{
    match list.push(item) {
        Ok(()) => Ok(()),
        Err(_) => Err(ViewFault::Memory),
    }
}

/// A text that is shared with `like` where they are the same. It fails only for want of memory.
pub(crate) fn shared_with(alloc: Global, text: &str, like: Option<&Text>) -> Result<Text, ViewFault>
    ensures text { IfOk result (λ made. made ≡ text.now) }
    ensures memory { IfErr result (λ e. e ≡ ViewFault.Memory) }
{
    match like {
        Some(known) if known.as_str() == text => copied(alloc, known),
        _ => owned(alloc, text),
    }
}

// The same text again. It fails only for want of memory.
fn copied(alloc: Global, text: &Text) -> Result<Text, ViewFault>
    ensures text { IfOk result (λ made. made ≡ text.now) }
    ensures memory { IfErr result (λ e. e ≡ ViewFault.Memory) }
{
    match text.copy(alloc) {
        Ok(made) => Ok(made),
        Err(_) => Err(ViewFault::Memory),
    }
}

/// The member of this name, which has to be a text; it is shared with `like` where they are the same.
#[tactic(auto, unfolding(config_json::specs::Forms::text_member))]
pub(crate) fn text_member_like(
    alloc: Global,
    view: &View,
    name: &str,
    like: Option<&Text>,
) -> Result<Text, ViewFault>
    ensures { Gives (λ t. t) result (text_member name.now (seen_at view.now)) }
{
    shared_with(alloc, view.text_member(name)?, like)
}

/// The member of this name, which has to be a text.
#[tactic(auto, unfolding(config_json::specs::Forms::text_member))]
pub(crate) fn text_member(alloc: Global, view: &View, name: &str) -> Result<Text, ViewFault>
    ensures { Gives (λ t. t) result (text_member name.now (seen_at view.now)) }
{
    owned(alloc, view.text_member(name)?)
}

/// The member of this name, which has to be a text where it is there, else the empty text.
#[tactic(auto, using(config_json::proofs::Members::texts_read))]
pub(crate) fn optional_text(alloc: Global, view: &View, name: &str) -> Result<Text, ViewFault>
    ensures { Gives (λ t. t) result (optional_text name.now (seen_at view.now)) }
{
    match view.optional_text(name)? {
        Some(text) => owned(alloc, text),
        None => owned(alloc, ""),
    }
}

/// The member of this name, which has to be a whole number up to `most`.
#[tactic(auto, unfolding(crate::specs::Forms::whole_member))]
pub(crate) fn whole_member(view: &View, name: &str, most: u64) -> Result<u64, ViewFault>
    ensures number { Gives (λ n. n) result (whole_member name.now most (seen_at view.now)) }
    ensures bound { IfOk result (λ n. n ≤ most) }
{
    view.whole_member(name, most)
}

// The type of a level by its word.
#[tactic(auto, unfolding(config_json::specs::Forms::level_kind_in, json_view::specs::Parts::text_at))]
fn level_kind_in(view: &View) -> Result<LevelKind, ViewFault>
    ensures { Gives (λ k. k) result (level_kind_in (seen_at view.now)) }
{
    match view.text() {
        Ok("ITEM") => Ok(LevelKind::Item),
        Ok("SEGMENT") => Ok(LevelKind::Segment),
        Ok("EVENT") => Ok(LevelKind::Event),
        Ok(_) => Err(view.refuse(Wanted::Kind)),
        Err(ViewFault::Shape(_)) => Err(view.refuse(Wanted::Kind)),
        Err(ViewFault::Memory) => Err(ViewFault::Memory),
    }
}

/// The member `type` of a level.
#[tactic(auto, unfolding(config_json::specs::Forms::level_kind_at))]
pub(crate) fn level_kind_at(view: &View) -> Result<LevelKind, ViewFault>
    ensures { Gives (λ k. k) result (level_kind_at (seen_at view.now)) }
{
    let part = view.member("type", Wanted::Kind)?;
    level_kind_in(&part)
}
