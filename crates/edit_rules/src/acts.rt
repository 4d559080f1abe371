//! What one line of a script may do to a database: a list of edits of one bundle, or an edit of the
//! configuration.
ghost use Rattle.std.specs.Prelude.{◌≡◌, ◌<◌, ◌++◌, ◌∷◌, [], length, slice_get, IfOk, OnOk, OnErr, IsTrue, Some};
ghost use Rattle.std.specs.List.{list_all};
ghost use Rattle.emu_names.specs.declared.limits.TheConstants.{LIST_EDITS};
ghost use Rattle.bundle_edits.specs.Edits.{key_of};
ghost use Rattle.edit_rules.specs.Acts.{has_key};
ghost use Rattle.edit_rules.specs.Inner.Acts.{AreTogether, is_edit_of};

use bundle_edits::Edit;
use db_config::{AttributeDef, LevelDef};
use emu_names::{Broken, BundleKey, LinkKind, Memory, PlainData, Series, SessionNo, Shared, Text};
use std::alloc::Global;
use std::marker::Model;

/// A list of 1 to 65,536 edits: one edit, or edits of one bundle that neither add nor drop it. A copy is
/// one owner more.
#[derive(Drop)]
pub struct Edits {
    list: Shared<Series<Edit>>,
}

impl Model for Edits {
    ghost use Rattle.std.specs.Prelude.{List};
    ghost use Rattle.bundle_edits.specs.declared.edit.Edit.{Edit};
    ghost use Rattle.edit_rules.specs.Inner.Acts.{AreTogether};

    ghost Value = { List Edit };

    ghost view = { λ e. e.list };

    ghost invariant = { λ e. AreTogether e.list };
}

impl Edits {
    /// The list of one edit. The only refusal is want of memory.
    pub fn one(alloc: Global, edit: Edit) -> Result<Edits, Memory>
        ensures { IfOk result (λ made. made ≡ edit ∷ []) }
    {
        match Vec::with_capacity(alloc, 1) {
            Ok(items) => {
                let mut series = Series::from_vec(items);
                series.push(edit)?;
                let list = Shared::new(alloc, series)?;
                Ok(Edits { list })
            }
            Err(_) => {
                drop(edit);
                Err(Memory)
            }
        }
    }

    /// Puts an edit last. The only refusal is want of memory, which changes nothing.
    pub fn push(&mut self, edit: Edit) -> Result<(), Memory>
        requires room { length self.old < LIST_EDITS }
        requires together { IsTrue (list_all (is_edit_of (key_of edit)) (self.old ++ edit ∷ [])) }
        ensures ok { OnOk result (self.new ≡ self.old ++ edit ∷ []) }
        ensures err { OnErr result (self.new ≡ self.old) }
    {
        let end = self.list.as_ref().len();
        self.list.insert(end, edit)
    }

    /// How many edits there are. Whoever asks may rely on the rule of lists.
    pub fn len(&self) -> usize
        ensures length { result ≡ length self.now }
        ensures together { AreTogether self.now }
    {
        self.list.as_ref().len()
    }

    /// The edit at a place, counted from 0.
    pub fn get(&self, place: usize) -> &Edit
        requires { place < length self.now }
        ensures { slice_get self.now place ≡ Some result.now }
    {
        self.list.as_ref().get(place)
    }

    /// All edits, in order.
    pub fn as_slice(&self) -> &[Edit]
        ensures { result.now ≡ self.now }
    {
        self.list.as_ref().as_slice()
    }

    /// The session and the name of the bundle that all edits change.
    pub fn key(&self) -> &BundleKey
        ensures { IsTrue (list_all (has_key result.now) self.now) }
    {
        let _count = self.len();
        self.get(0).key()
    }

    /// The same list again, which shares its edits. The only refusal is want of memory.
    pub fn copy(&self, alloc: Global) -> Result<Edits, Memory>
        ensures { IfOk result (λ made. made ≡ self.now) }
    {
        Ok(Edits {
            list: self.list.copy(alloc)?,
        })
    }
}

/// What may be added to the configuration. The new part stands last in its list.
#[derive(Drop)]
pub enum ConfigEdit {
    /// Adds a level; each bundle gets an empty list for it. Refused are a level over 64 (`TooMany`) and the first
    /// of its names, the level's before those of its attributes, that a level or attribute has (`DoubleName`).
    AddLevel {
        /// The level.
        level: LevelDef,
    },
    /// Adds an attribute to a level; each item there gets the empty label. Refused are a level that is not
    /// there (`NoLevel`), an attribute over 16 (`TooMany`) and a name that a level or attribute has
    /// (`DoubleName`); one attribute of a level may share its name.
    AddAttribute {
        /// The level's name.
        level: Text,
        /// The attribute.
        attribute: AttributeDef,
    },
    /// Adds a link definition. Refused are a level that is not there (`UnknownLevel`, of the upper one first), a
    /// definition over 64 (`TooMany`), levels between which one leads (`DoubleLink`), and a definition with
    /// which a path of them leads from a level to itself (`LevelCycle`).
    AddLinkDefinition {
        /// Its type.
        kind: LinkKind,
        /// The name of the upper level.
        upper: Text,
        /// The name of the lower level.
        lower: Text,
    },
}

impl ConfigEdit {
    /// The same edit again. The only refusal is want of memory.
    pub fn copy(&self, alloc: Global) -> Result<ConfigEdit, Memory>
        ensures { IfOk result (λ made. made ≡ self.now) }
    {
        match self {
            ConfigEdit::AddLevel { level } => {
                let level = level.copy(alloc)?;
                Ok(ConfigEdit::AddLevel { level })
            }
            ConfigEdit::AddAttribute { level, attribute } => {
                let level = level.copy(alloc)?;
                let attribute = attribute.copy(alloc)?;
                Ok(ConfigEdit::AddAttribute { level, attribute })
            }
            ConfigEdit::AddLinkDefinition { kind, upper, lower } => {
                let upper = upper.copy(alloc)?;
                let lower = lower.copy(alloc)?;
                Ok(ConfigEdit::AddLinkDefinition {
                    kind: *kind,
                    upper,
                    lower,
                })
            }
        }
    }
}

/// What one line of a script may do to the database.
#[derive(Drop)]
pub enum Act {
    /// The edits of a list, all or none.
    Edits(Edits),
    /// An edit of the configuration.
    Config(ConfigEdit),
}

impl Act {
    /// The same act again. The only refusal is want of memory.
    pub fn copy(&self, alloc: Global) -> Result<Act, Memory>
        ensures { IfOk result (λ made. made ≡ self.now) }
    {
        match self {
            Act::Edits(edits) => Ok(Act::Edits(edits.copy(alloc)?)),
            Act::Config(edit) => Ok(Act::Config(edit.copy(alloc)?)),
        }
    }
}

/// The rule that an act breaks first.
#[derive(Debug, Drop, PartialEq, Eq)]
pub struct Breach {
    /// The place of the edit that breaks it, counted from 1.
    pub place: u32,
    /// The rule.
    pub rule: Broken,
}

impl Breach {
    /// The same breach again. The only refusal is want of memory.
    pub fn copy(&self, alloc: Global) -> Result<Breach, Memory>
        ensures { IfOk result (λ made. made ≡ self.now) }
    {
        Ok(Breach {
            place: self.place,
            rule: self.rule.copy(alloc)?,
        })
    }
}

/// Why an act is refused.
#[derive(Debug, Drop, PartialEq, Eq)]
pub enum ChangeFault {
    /// One of its edits breaks a rule.
    Broken(Breach),
    /// Memory ran out.
    Memory,
}

impl From<Memory> for ChangeFault {
    ghost use Rattle.std.specs.Prelude.{◌≡◌};
    ghost use Rattle.edit_rules.specs.declared.acts.ChangeFault.TheVariants.{Memory as OutOfMemory};

    ghost from_gives = { λ _ e. e ≡ OutOfMemory };

    fn from(_error: Memory) -> ChangeFault {
        ChangeFault::Memory
    }
}

/// An act that was accepted, with the session and the line of the script that it came from.
#[derive(Drop)]
pub struct Entry {
    /// The session; 0 stands for a command of the program.
    pub session: SessionNo,
    /// The line, counted from 1; 0 where there is none.
    pub line: u32,
    /// The act.
    pub act: Act,
}

impl Entry {
    /// The same entry again. The only refusal is want of memory.
    pub fn copy(&self, alloc: Global) -> Result<Entry, Memory>
        ensures { IfOk result (λ made. made ≡ self.now) }
    {
        let act = self.act.copy(alloc)?;
        Ok(Entry {
            session: self.session,
            line: self.line,
            act,
        })
    }
}

impl PlainData for Entry {
    fn copy(&self, alloc: Global) -> Result<Entry, Memory> {
        Entry::copy(self, alloc)
    }
}
