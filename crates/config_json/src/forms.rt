//! The members of the objects of a configuration, each read as what it has to be.
ghost use Rattle.std.specs.Prelude.{◌≡◌, true, IfOk, IfErr, length, ◌≤◌};
ghost use Rattle.json_view.specs.Inner.Gives.{Gives};
ghost use Rattle.json_view.specs.Parts.{list_in};
ghost use Rattle.json_view.specs.Inner.Seen.{seen_at};
ghost use Rattle.config_json.specs.Forms.{object_of, name_at, text_member, optional_text, filled_at, level_kind_named, level_kind_at, link_kind_named, link_kind_at, string_in, string_type};

use emu_names::{LevelKind, LinkKind, Name, NameFault, Text};
use json_view::{View, ViewFault, Wanted};
use std::alloc::Global;

/// Refuses a value that is no object.
#[tactic(auto, unfolding(crate::specs::Forms::object_of, json_view::specs::Parts::object_of))]
pub(crate) fn object_in(view: &View) -> Result<(), ViewFault>
    ensures { Gives (λ _. true) result (object_of (seen_at view.now)) }
{
    view.object()?;
    Ok(())
}

/// A text of one's own. It fails only for want of memory.
pub(crate) fn owned(alloc: Global, text: &str) -> Result<Text, ViewFault>
    ensures text { IfOk result (λ made. made ≡ text.now) }
    ensures memory { IfErr result (λ e. e ≡ ViewFault.Memory) }
{
    match Text::new(alloc, text) {
        Ok(made) => Ok(made),
        Err(_) => Err(ViewFault::Memory),
    }
}

/// The member of this name, which has to be a name; a value that is no text is no name either.
#[tactic(auto, using(crate::proofs::Members::names_read))]
pub(crate) fn name_at(alloc: Global, view: &View, name: &str) -> Result<Name, ViewFault>
    ensures { Gives (λ n. n) result (name_at name.now (seen_at view.now)) }
{
    let text = view.text_member_as(name, Wanted::Name)?;
    match Name::new(alloc, text) {
        Ok(made) => Ok(made),
        Err(NameFault::BadName) => Err(view.refuse_member(name, Wanted::Name)),
        Err(NameFault::Memory) => Err(ViewFault::Memory),
    }
}

/// The member of this name, which has to be a text.
#[tactic(auto, unfolding(crate::specs::Forms::text_member))]
pub(crate) fn text_member(alloc: Global, view: &View, name: &str) -> Result<Text, ViewFault>
    ensures { Gives (λ t. t) result (text_member name.now (seen_at view.now)) }
{
    owned(alloc, view.text_member(name)?)
}

/// The member of this name, which has to be a text where it is there, else the empty text.
#[tactic(auto, using(crate::proofs::Members::texts_read))]
pub(crate) fn optional_text(alloc: Global, view: &View, name: &str) -> Result<Text, ViewFault>
    ensures { Gives (λ t. t) result (optional_text name.now (seen_at view.now)) }
{
    match view.optional_text(name)? {
        Some(text) => owned(alloc, text),
        None => owned(alloc, ""),
    }
}

/// The number of elements of a list with at least one.
#[tactic(auto, using(crate::proofs::Filled::filled_some, crate::proofs::Filled::filled_none), unfolding(crate::specs::Forms::filled_at))]
pub(crate) fn filled_len(view: &View) -> Result<usize, ViewFault>
    ensures list { Gives (λ _. list_in (seen_at view.now).value) result (filled_at (seen_at view.now)) }
    ensures count { IfOk result (λ n. n ≡ length (list_in (seen_at view.now).value)) }
    ensures some { IfOk result (λ n. 1 ≤ n) }
{
    match view.list_len() {
        Ok(0) => Err(view.refuse(Wanted::FilledList)),
        Ok(count) => Ok(count),
        Err(ViewFault::Shape(_)) => Err(view.refuse(Wanted::FilledList)),
        Err(ViewFault::Memory) => Err(ViewFault::Memory),
    }
}

// The type of a level by its word.
fn level_kind_named(word: &str) -> Option<LevelKind>
    ensures { result ≡ level_kind_named word.now }
{
    match word {
        "ITEM" => Some(LevelKind::Item),
        "SEGMENT" => Some(LevelKind::Segment),
        "EVENT" => Some(LevelKind::Event),
        _ => None,
    }
}

/// The member `type` of a level.
#[tactic(auto, using(crate::proofs::Typed::level_kinds_read))]
pub(crate) fn level_kind_at(view: &View) -> Result<LevelKind, ViewFault>
    ensures { Gives (λ k. k) result (level_kind_at (seen_at view.now)) }
{
    let word = view.text_member_as("type", Wanted::Kind)?;
    match level_kind_named(word) {
        Some(kind) => Ok(kind),
        None => Err(view.refuse_member("type", Wanted::Kind)),
    }
}

// The type of a link definition by its word.
fn link_kind_named(word: &str) -> Option<LinkKind>
    ensures { result ≡ link_kind_named word.now }
{
    match word {
        "ONE_TO_ONE" => Some(LinkKind::OneToOne),
        "ONE_TO_MANY" => Some(LinkKind::OneToMany),
        "MANY_TO_MANY" => Some(LinkKind::ManyToMany),
        _ => None,
    }
}

/// The member `type` of a link definition.
#[tactic(auto, using(crate::proofs::Typed::link_kinds_read))]
pub(crate) fn link_kind_at(view: &View) -> Result<LinkKind, ViewFault>
    ensures { Gives (λ k. k) result (link_kind_at (seen_at view.now)) }
{
    let word = view.text_member_as("type", Wanted::Kind)?;
    match link_kind_named(word) {
        Some(kind) => Ok(kind),
        None => Err(view.refuse_member("type", Wanted::Kind)),
    }
}

// Refuses all but the text STRING.
#[tactic(auto, unfolding(crate::specs::Forms::string_in))]
fn string_in(view: &View) -> Result<(), ViewFault>
    ensures { Gives (λ _. true) result (string_in (seen_at view.now)) }
{
    match view.text() {
        Ok("STRING") => Ok(()),
        Ok(_) => Err(view.refuse(Wanted::Kind)),
        Err(ViewFault::Shape(_)) => Err(view.refuse(Wanted::Kind)),
        Err(ViewFault::Memory) => Err(ViewFault::Memory),
    }
}

/// Refuses a member `type` of an attribute that is there and not the text STRING.
#[tactic(auto, unfolding(crate::specs::Forms::string_type))]
pub(crate) fn string_type(view: &View) -> Result<(), ViewFault>
    ensures { Gives (λ _. true) result (string_type (seen_at view.now)) }
{
    match view.optional("type")? {
        Some(part) => string_in(&part),
        None => Ok(()),
    }
}
