//! The attributes of a level, of which there is at least one.
ghost use Rattle.db_config.specs.Lookups.{is_legal_for};
ghost use Rattle.std.specs.Prelude.{◌≡◌, ◌≤◌, ◌<◌, ◌++◌, ◌∷◌, [], length, slice_get, Some, IfOk, OnOk, OnErr};

use crate::groups::{GroupDefs, GroupValues};
use crate::names::is_among;
use emu_names::limits::ATTRIBUTES;
use emu_names::{Memory, Name, PlainData, Series};
use std::alloc::Global;
use std::marker::Model;

/// An attribute of a level (EMU-SDMS Manual, "The emuDB format": `attributeDefinitions`).
#[derive(Drop)]
pub struct AttributeDef {
    /// Its name.
    pub name: Name,
    /// The labels that edits may set, or `None` where they may set every label.
    pub legal: Option<GroupValues>,
    /// Its own label groups.
    pub groups: GroupDefs,
}

/// The legal labels again. The only refusal is want of memory.
fn legal_copy(alloc: Global, legal: &Option<GroupValues>) -> Result<Option<GroupValues>, Memory>
    ensures { IfOk result (λ made. made ≡ legal.now) }
{
    match legal {
        Some(values) => Ok(Some(values.copy(alloc)?)),
        None => Ok(None),
    }
}

impl AttributeDef {
    /// Whether edits may set this label: it is empty, or no legal labels are listed, or it is among
    /// them.
    pub fn is_legal(&self, label: &str) -> bool
        ensures { result ≡ is_legal_for label.now self.now }
    {
        match &self.legal {
            Some(labels) => label.len() == 0 || is_among(label, labels.as_slice()),
            None => true,
        }
    }

    /// The same attribute again. The only refusal is want of memory.
    pub fn copy(&self, alloc: Global) -> Result<AttributeDef, Memory>
        ensures { IfOk result (λ made. made ≡ self.now) }
    {
        let name = self.name.copy(alloc)?;
        let legal = legal_copy(alloc, &self.legal)?;
        let groups = self.groups.copy(alloc)?;
        Ok(AttributeDef {
            name,
            legal,
            groups,
        })
    }
}

impl PlainData for AttributeDef {
    fn copy(&self, alloc: Global) -> Result<AttributeDef, Memory> {
        AttributeDef::copy(self, alloc)
    }
}

/// The attributes of a level, 1 to 16, of which contracts see the list.
#[derive(Drop)]
pub struct AttributeDefs {
    defs: Series<AttributeDef>,
}

impl Model for AttributeDefs {
    ghost use Rattle.std.specs.Prelude.{List};
    ghost use Rattle.db_config.specs.declared.attributes.AttributeDef.{AttributeDef};

    ghost Value = { List AttributeDef };

    ghost use Rattle.db_config.specs.Inner.Counts.{AreFew};

    ghost view = { λ a. a.defs };

    ghost invariant = { λ a. AreFew a.defs };
}

impl AttributeDefs {
    /// One attribute. The list grows by `alloc`. The only refusal is want of memory.
    pub fn one(alloc: Global, first: AttributeDef) -> Result<AttributeDefs, Memory>
        ensures { IfOk result (λ made. made ≡ first ∷ []) }
    {
        let mut defs = Series::new(alloc);
        defs.push(first)?;
        Ok(AttributeDefs { defs })
    }

    /// These attributes, of which there are 1 to 16.
    pub fn of(defs: Series<AttributeDef>) -> AttributeDefs
        requires some { 1 ≤ length defs }
        requires few { length defs ≤ ATTRIBUTES }
        ensures { result ≡ defs }
    {
        AttributeDefs { defs }
    }

    /// Puts an attribute last. The only refusal is want of memory, which changes nothing.
    pub fn push(&mut self, def: AttributeDef) -> Result<(), Memory>
        requires { length self.old < ATTRIBUTES }
        ensures ok { OnOk result (self.new ≡ self.old ++ def ∷ []) }
        ensures err { OnErr result (self.new ≡ self.old) }
    {
        self.defs.push(def)
    }

    /// How many attributes there are, 1 to 16.
    pub fn len(&self) -> usize
        ensures count { result ≡ length self.now }
        ensures some { 1 ≤ length self.now }
        ensures limit { length self.now ≤ ATTRIBUTES }
    {
        self.defs.len()
    }

    /// The attribute at a place, counted from 0.
    pub fn get(&self, place: usize) -> &AttributeDef
        requires { place < length self.now }
        ensures { slice_get self.now place ≡ Some result.now }
    {
        self.defs.get(place)
    }

    /// All attributes, in order.
    pub fn as_slice(&self) -> &[AttributeDef]
        ensures { result.now ≡ self.now }
    {
        self.defs.as_slice()
    }

    /// The same attributes again. The only refusal is want of memory.
    pub fn copy(&self, alloc: Global) -> Result<AttributeDefs, Memory>
        ensures { IfOk result (λ made. made ≡ self.now) }
    {
        let defs = self.defs.copy(alloc)?;
        Ok(AttributeDefs { defs })
    }
}

impl PlainData for AttributeDefs {
    fn copy(&self, alloc: Global) -> Result<AttributeDefs, Memory> {
        AttributeDefs::copy(self, alloc)
    }
}
