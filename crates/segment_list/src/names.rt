//! The pieces of a row's text that are the same for all rows of one bundle, level and attribute.
ghost use Rattle.std.specs.Prelude.{◌≡◌, ◌++◌, IfOk, codes, string_bytes};
ghost use Rattle.json.specs.Print.{escape, quoted};
ghost use Rattle.segment_list.specs.Inner.Pieces.{are_beside, front_of_head, head_text, level_text, names, session_text};

use crate::pieces::{push_quoted, push_within};
use emu_names::{Memory, Text};
use std::alloc::Global;
use std::marker::Model;

/// The pieces for the names of rows, which contracts see as these names.
#[derive(Drop)]
pub(crate) struct NamePieces {
    session: Text,
    bundle: Text,
    level: Text,
    attribute: Text,
    front: String,
    head: String,
    before_end: String,
    before_start: String,
}

impl Model for NamePieces {
    ghost use Rattle.std.specs.Prelude.{string_bytes};
    ghost use Rattle.segment_list.specs.Inner.Pieces.{ArePieces, Names, names};

    ghost Value = { Names };

    ghost view = { λ p. names p.session p.bundle p.level p.attribute };

    ghost invariant = { λ p. ArePieces (names p.session p.bundle p.level p.attribute) (string_bytes p.front)
        (string_bytes p.head) (string_bytes p.before_end) (string_bytes p.before_start) };
}

impl NamePieces {
    /// The pieces for names. The only refusal is want of memory.
    pub(crate) fn new(
        alloc: Global,
        session: &str,
        bundle: Text,
        level: &str,
        attribute: &str,
    ) -> Result<NamePieces, Memory>
        ensures { IfOk result (λ made. made ≡ names session.now bundle level.now attribute.now) }
    {
        let front = head_front(alloc, attribute)?;
        let head = head_piece(String::new(alloc), alloc, front.as_str(), bundle.as_str())?;
        let before_end = piece(alloc, "\",\"level\":", level, ",\"sampleEnd\":")?;
        let before_start = piece(alloc, ",\"session\":", session, ",\"start\":")?;
        Ok(NamePieces {
            session: Text::new(alloc, session)?,
            bundle,
            level: Text::new(alloc, level)?,
            attribute: Text::new(alloc, attribute)?,
            front,
            head,
            before_end,
            before_start,
        })
    }

    /// The text from the comma before the row to the time of the end.
    pub(crate) fn head(&self) -> &str
        ensures { result.now ≡ head_text self.now }
    {
        self.head.as_str()
    }

    /// The text from the quote behind the labels to the last sample.
    pub(crate) fn before_end(&self) -> &str
        ensures { result.now ≡ level_text self.now }
    {
        self.before_end.as_str()
    }

    /// The text from the session to the time of the start.
    pub(crate) fn before_start(&self) -> &str
        ensures { result.now ≡ session_text self.now }
    {
        self.before_start.as_str()
    }

    /// Whether these are the names of the session, the level and the attribute.
    fn are_beside(&self, session: &str, level: &str, attribute: &str) -> bool
        ensures { result ≡ are_beside self.now session.now level.now attribute.now }
    {
        self.session.as_str() == session
            && self.level.as_str() == level
            && self.attribute.as_str() == attribute
    }

    /// The pieces for the names of rows: these, but where a name is another, others. The only refusal is want of
    /// memory.
    #[tactic(auto, using(crate::proofs::Plain::same_beside))]
    pub(crate) fn turned_to(
        self,
        alloc: Global,
        session: &str,
        bundle: Text,
        level: &str,
        attribute: &str,
    ) -> Result<NamePieces, Memory>
        ensures { IfOk result (λ made. made ≡ names session.now bundle level.now attribute.now) }
    {
        if self.are_beside(session, level, attribute) {
            return self.in_bundle(alloc, bundle);
        }
        NamePieces::new(alloc, session, bundle, level, attribute)
    }

    /// The pieces for the same names but that of the bundle, in the room of these. The only refusal is want of memory.
    #[tactic(auto, using(crate::proofs::Plain::same_bundle))]
    fn in_bundle(self, alloc: Global, bundle: Text) -> Result<NamePieces, Memory>
        ensures { IfOk result (λ made. made ≡ names self.session bundle self.level self.attribute) }
    {
        if self.bundle == bundle {
            return Ok(self);
        }
        let NamePieces {
            session,
            bundle: _,
            level,
            attribute,
            front,
            head,
            before_end,
            before_start,
        } = self;
        let head = head_piece(head, alloc, front.as_str(), bundle.as_str())?;
        Ok(NamePieces {
            session,
            bundle,
            level,
            attribute,
            front,
            head,
            before_end,
            before_start,
        })
    }
}

/// A text in quotes between two others. The only refusal is want of memory.
fn piece(alloc: Global, before: &str, text: &str, behind: &str) -> Result<String, Memory>
    ensures { IfOk result (λ made. string_bytes made ≡ before.now ++ (quoted text.now ++ behind.now)) }
{
    let mut out = String::new(alloc);
    out.push_str(before)?;
    push_quoted(&mut out, alloc, text)?;
    out.push_str(behind)?;
    Ok(out)
}

/// The comma before a row and the beginning of its text, up to the quote before the bundle. The only refusal is want of memory.
fn head_front(alloc: Global, attribute: &str) -> Result<String, Memory>
    ensures { IfOk result (λ made. string_bytes made ≡ front_of_head attribute.now) }
{
    piece(alloc, ",{\"attribute\":", attribute, ",\"bundle\":\"")
}

/// The comma before a row and the beginning of its text, up to the time of the end, in the room of a text that goes.
/// The only refusal is want of memory.
fn head_piece(room: String, alloc: Global, front: &str, bundle: &str) -> Result<String, Memory>
    ensures { IfOk result (λ made. string_bytes made ≡ front.now ++ (escape bundle.now ++ codes "\",\"end\":")) }
{
    let mut out = room;
    out.clear();
    out.push_str(front)?;
    push_within(&mut out, alloc, bundle)?;
    out.push_str("\",\"end\":")?;
    Ok(out)
}
