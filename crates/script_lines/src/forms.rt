//! The members that a script's lines have, each read as what it has to be.
ghost use Rattle.std.specs.Prelude.{◌≡◌, ◌≤◌, ◌++◌, ◌∷◌, [], IfOk, IfErr, OnOk};
ghost use Rattle.json_view.specs.Inner.Gives.{Gives};
ghost use Rattle.json_view.specs.Inner.Seen.{seen_at};
ghost use Rattle.emu_names.specs.declared.limits.TheConstants.{TOP_RATE as MOST};
ghost use Rattle.config_json.specs.Forms.{name_at, text_member};
ghost use Rattle.annot_json.specs.Forms.{whole_member};
ghost use Rattle.script_lines.specs.Forms.{session_at, key_at, id_at, position_at, rate_in, rate_at};
ghost use Rattle.script_lines.specs.Values.{word_of_line};

use emu_names::limits::{SESSIONS, TOP_ID, TOP_RATE};
use emu_names::{BundleKey, ItemId, Name, NameFault, Series, SessionNo, Text};
use json_view::{View, ViewFault, Wanted};
use std::alloc::Global;

/// Sessions are numbered from 1 to this.
const LAST_SESSION: u64 = SESSIONS as u64;

/// A text of one's own. It fails only for want of memory.
pub(crate) fn owned(alloc: Global, text: &str) -> Result<Text, ViewFault>
    ensures text { IfOk result (λ made. made ≡ text.now) }
    ensures memory { IfErr result (λ e. e ≡ ViewFault.Memory) }
{
    match Text::new(alloc, text) {
        Ok(made) => Ok(made),
        Err(_) => Err(ViewFault::Memory),
    }
}

/// Puts an element last. It fails only for want of memory.
pub(crate) fn put_last<T: Drop>(list: &mut Series<T>, item: T) -> Result<(), ViewFault>
    ensures last { OnOk result (list.new ≡ list.old ++ item ∷ []) }
    ensures memory { IfErr result (λ e. e ≡ ViewFault.Memory) }
{
    match list.push(item) {
        Ok(()) => Ok(()),
        Err(_) => Err(ViewFault::Memory),
    }
}

// The member of this name, which has to be a name; a value that is no text is no name either.
#[tactic(auto, using(config_json::proofs::Members::names_read))]
fn name_at(alloc: Global, view: &View, name: &str) -> Result<Name, ViewFault>
    ensures { Gives (λ n. n) result (name_at name.now (seen_at view.now)) }
{
    let text = view.text_member_as(name, Wanted::Name)?;
    match Name::new(alloc, text) {
        Ok(made) => Ok(made),
        Err(NameFault::BadName) => Err(view.refuse_member(name, Wanted::Name)),
        Err(NameFault::Memory) => Err(ViewFault::Memory),
    }
}

/// The members `session` and `bundle`, which have to be names.
#[tactic(auto, unfolding(crate::specs::Forms::key_at))]
pub(crate) fn key_at(alloc: Global, view: &View) -> Result<BundleKey, ViewFault>
    ensures { Gives (λ k. k) result (key_at (seen_at view.now)) }
{
    let session = name_at(alloc, view, "session")?;
    let bundle = name_at(alloc, view, "bundle")?;
    Ok(BundleKey { session, bundle })
}

/// The member of this name, which has to be a text.
#[tactic(auto, unfolding(config_json::specs::Forms::text_member))]
pub(crate) fn text_member(alloc: Global, view: &View, name: &str) -> Result<Text, ViewFault>
    ensures { Gives (λ t. t) result (text_member name.now (seen_at view.now)) }
{
    owned(alloc, view.text_member(name)?)
}

/// The member of this name, which has to be a whole number from 0 to `most`.
#[tactic(auto, unfolding(annot_json::specs::Forms::whole_member))]
pub(crate) fn whole_member(view: &View, name: &str, most: u64) -> Result<u64, ViewFault>
    ensures number { Gives (λ n. n) result (whole_member name.now most (seen_at view.now)) }
    ensures bound { IfOk result (λ n. n ≤ most) }
{
    view.whole_member(name, most)
}

/// The member of this name, which has to be the id of an item.
#[tactic(auto, unfolding(crate::specs::Forms::id_at))]
pub(crate) fn id_at(view: &View, name: &str) -> Result<ItemId, ViewFault>
    ensures { Gives (λ i. i) result (id_at name.now (seen_at view.now)) }
{
    Ok(ItemId(whole_member(view, name, TOP_ID)? as u32))
}

/// The member `position`, which has to be a whole number below 2^32 where it is there.
#[tactic(auto, unfolding(crate::specs::Forms::position_at))]
pub(crate) fn position_at(view: &View) -> Result<Option<u32>, ViewFault>
    ensures { Gives (λ p. p) result (position_at (seen_at view.now)) }
{
    match view.optional("position")? {
        Some(part) => Ok(Some(part.whole(TOP_ID)? as u32)),
        None => Ok(None),
    }
}

// A sample rate.
#[tactic(auto, unfolding(crate::specs::Forms::rate_in))]
fn rate_in(view: &View) -> Result<u32, ViewFault>
    ensures rate { Gives (λ r. r) result (rate_in (seen_at view.now)) }
    ensures least { IfOk result (λ r. 1 ≤ r) }
    ensures most { IfOk result (λ r. r ≤ MOST) }
{
    let rate = view.whole(TOP_RATE)?;
    if rate < 1 {
        return Err(view.refuse(Wanted::Whole));
    }
    Ok(rate as u32)
}

/// The member `sampleRate`, which has to be a whole number from 1 to the highest rate.
#[tactic(auto, unfolding(crate::specs::Forms::rate_at))]
pub(crate) fn rate_at(view: &View) -> Result<u32, ViewFault>
    ensures rate { Gives (λ r. r) result (rate_at (seen_at view.now)) }
    ensures least { IfOk result (λ r. 1 ≤ r) }
    ensures most { IfOk result (λ r. r ≤ MOST) }
{
    let part = view.member("sampleRate", Wanted::Whole)?;
    rate_in(&part)
}

/// The session of a request: the member `s`, a whole number from 1 to 16.
#[tactic(auto, using(crate::proofs::Members::sessions_read))]
pub(crate) fn session_at(view: &View) -> Result<SessionNo, ViewFault>
    ensures { Gives (λ n. n) result (session_at (seen_at view.now)) }
{
    let number = view.whole_member_as("s", LAST_SESSION, Wanted::Session)?;
    if number < 1 {
        return Err(view.refuse_member("s", Wanted::Session));
    }
    Ok(SessionNo(number as u32))
}

/// What a line, or an edit of a list, does: an object whose `do` is a text.
#[tactic(auto, unfolding(crate::specs::Values::word_of_line, config_json::specs::Forms::text_member, json_view::specs::Parts::object_of, json_view::specs::Parts::optional_of))]
pub(crate) fn word_of_line<'a>(view: &View<'a>) -> Result<&'a str, ViewFault>
    ensures { Gives (λ t. t.now) result (word_of_line (seen_at view.now)) }
{
    view.object()?;
    view.text_member("do")
}
