//! Lists of labels, and label groups, which are such lists with names.
ghost use Rattle.std.specs.Prelude.{◌≡◌, ◌≤◌, ◌<◌, ◌==◌, ◌++◌, ◌∷◌, [], length, slice_get, Some, IfOk, OnOk, OnErr};

use emu_names::limits::{LABEL_GROUPS, LIST_TEXTS};
use emu_names::{Memory, PlainData, Series, Text};
use std::alloc::Global;
use std::marker::Model;

/// Legal labels, or the values of a label group: at most 4,096 texts (EMU-SDMS Manual, "The emuDB
/// format": `legalLabels`, `values`). Contracts see the list of the texts.
#[derive(Drop)]
pub struct GroupValues {
    values: Series<Text>,
}

impl Model for GroupValues {
    ghost use Rattle.std.specs.Prelude.{List, ℕ, ◌≤◌, length};
    ghost use Rattle.emu_names.specs.declared.limits.TheConstants.{LIST_TEXTS};

    ghost Value = { List (List ℕ) };

    ghost view = { λ v. v.values };

    ghost invariant = { λ v. length v.values ≤ LIST_TEXTS };
}

impl GroupValues {
    /// No text. The list grows by `alloc`.
    pub fn new(alloc: Global) -> GroupValues
        ensures { result ≡ [] }
    {
        GroupValues {
            values: Series::new(alloc),
        }
    }

    /// Puts a text last. The only refusal is want of memory, which changes nothing.
    pub fn push(&mut self, value: Text) -> Result<(), Memory>
        requires { length self.old < LIST_TEXTS }
        ensures ok { OnOk result (self.new ≡ self.old ++ value ∷ []) }
        ensures err { OnErr result (self.new ≡ self.old) }
    {
        self.values.push(value)
    }

    /// How many texts there are, at most 4,096.
    pub fn len(&self) -> usize
        ensures count { result ≡ length self.now }
        ensures limit { length self.now ≤ LIST_TEXTS }
    {
        self.values.len()
    }

    /// Whether there is no text.
    pub fn is_empty(&self) -> bool
        ensures { result ≡ (length self.now == 0) }
    {
        self.values.is_empty()
    }

    /// The text at a place, counted from 0.
    pub fn get(&self, place: usize) -> &Text
        requires { place < length self.now }
        ensures { slice_get self.now place ≡ Some result.now }
    {
        self.values.get(place)
    }

    /// All texts, in order.
    pub fn as_slice(&self) -> &[Text]
        ensures { result.now ≡ self.now }
    {
        self.values.as_slice()
    }

    /// The same texts again. The only refusal is want of memory.
    pub fn copy(&self, alloc: Global) -> Result<GroupValues, Memory>
        ensures { IfOk result (λ made. made ≡ self.now) }
    {
        let values = self.values.copy(alloc)?;
        Ok(GroupValues { values })
    }
}

impl PlainData for GroupValues {
    fn copy(&self, alloc: Global) -> Result<GroupValues, Memory> {
        GroupValues::copy(self, alloc)
    }
}

/// A label group (EMU-SDMS Manual, "The emuDB format": `labelGroups`): a name that stands for some
/// labels in queries.
#[derive(Drop)]
pub struct GroupDef {
    /// Its name.
    pub name: Text,
    /// The labels that it stands for.
    pub values: GroupValues,
}

impl GroupDef {
    /// The same group again. The only refusal is want of memory.
    pub fn copy(&self, alloc: Global) -> Result<GroupDef, Memory>
        ensures { IfOk result (λ made. made ≡ self.now) }
    {
        let name = self.name.copy(alloc)?;
        let values = self.values.copy(alloc)?;
        Ok(GroupDef { name, values })
    }
}

impl PlainData for GroupDef {
    fn copy(&self, alloc: Global) -> Result<GroupDef, Memory> {
        GroupDef::copy(self, alloc)
    }
}

/// At most 256 label groups, of which contracts see the list.
#[derive(Drop)]
pub struct GroupDefs {
    groups: Series<GroupDef>,
}

impl Model for GroupDefs {
    ghost use Rattle.std.specs.Prelude.{List, ◌≤◌, length};
    ghost use Rattle.emu_names.specs.declared.limits.TheConstants.{LABEL_GROUPS};
    ghost use Rattle.db_config.specs.declared.groups.GroupDef.{GroupDef};

    ghost Value = { List GroupDef };

    ghost view = { λ g. g.groups };

    ghost invariant = { λ g. length g.groups ≤ LABEL_GROUPS };
}

impl GroupDefs {
    /// No group. The list grows by `alloc`.
    pub fn new(alloc: Global) -> GroupDefs
        ensures { result ≡ [] }
    {
        GroupDefs {
            groups: Series::new(alloc),
        }
    }

    /// Puts a group last. The only refusal is want of memory, which changes nothing.
    pub fn push(&mut self, group: GroupDef) -> Result<(), Memory>
        requires { length self.old < LABEL_GROUPS }
        ensures ok { OnOk result (self.new ≡ self.old ++ group ∷ []) }
        ensures err { OnErr result (self.new ≡ self.old) }
    {
        self.groups.push(group)
    }

    /// How many groups there are, at most 256.
    pub fn len(&self) -> usize
        ensures count { result ≡ length self.now }
        ensures limit { length self.now ≤ LABEL_GROUPS }
    {
        self.groups.len()
    }

    /// Whether there is no group.
    pub fn is_empty(&self) -> bool
        ensures { result ≡ (length self.now == 0) }
    {
        self.groups.is_empty()
    }

    /// The group at a place, counted from 0.
    pub fn get(&self, place: usize) -> &GroupDef
        requires { place < length self.now }
        ensures { slice_get self.now place ≡ Some result.now }
    {
        self.groups.get(place)
    }

    /// All groups, in order.
    pub fn as_slice(&self) -> &[GroupDef]
        ensures { result.now ≡ self.now }
    {
        self.groups.as_slice()
    }

    /// The same groups again. The only refusal is want of memory.
    pub fn copy(&self, alloc: Global) -> Result<GroupDefs, Memory>
        ensures { IfOk result (λ made. made ≡ self.now) }
    {
        let groups = self.groups.copy(alloc)?;
        Ok(GroupDefs { groups })
    }
}

impl PlainData for GroupDefs {
    fn copy(&self, alloc: Global) -> Result<GroupDefs, Memory> {
        GroupDefs::copy(self, alloc)
    }
}
