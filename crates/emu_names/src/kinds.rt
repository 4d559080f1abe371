//! The kinds of levels and of link definitions, and the numbers of items and sessions.
ghost use Rattle.std.specs.Prelude.{◌≡◌};

/// The type of a level (EMU-SDMS Manual, "The emuDB format": `levelDefinitions`).
#[derive(Clone, Copy, Debug, PartialEq, Eq)]
pub enum LevelKind {
    /// `ITEM`: the items have an order and no time.
    Item,
    /// `SEGMENT`: each item has a first sample and a duration in samples.
    Segment,
    /// `EVENT`: each item has one sample.
    Event,
}

impl LevelKind {
    /// The same kind again.
    pub fn copy(&self) -> LevelKind
        ensures { result ≡ self.now }
    {
        *self
    }
}

/// The type of a link definition (EMU-SDMS Manual, "The emuDB format": `linkDefinitions`).
#[derive(Clone, Copy, Debug, PartialEq, Eq)]
pub enum LinkKind {
    /// `ONE_TO_ONE`: an item has at most one parent, and at most one child.
    OneToOne,
    /// `ONE_TO_MANY`: an item has at most one parent.
    OneToMany,
    /// `MANY_TO_MANY`: any links.
    ManyToMany,
}

impl LinkKind {
    /// The same kind again.
    pub fn copy(&self) -> LinkKind
        ensures { result ≡ self.now }
    {
        *self
    }
}

/// The number that an item has in its bundle (EMU-SDMS Manual, "The emuDB format": `id` of an
/// item in `_annot.json`).
#[derive(Clone, Copy, Debug, PartialEq, Eq, PartialOrd, Ord, Hash)]
pub struct ItemId(pub u32);

impl ItemId {
    /// The same id again.
    pub fn copy(&self) -> ItemId
        ensures { result ≡ self.now }
    {
        *self
    }
}

/// The number of a session of a script. 0 stands for a command of the program itself.
#[derive(Clone, Copy, Debug, PartialEq, Eq, PartialOrd, Ord, Hash)]
pub struct SessionNo(pub u32);

impl SessionNo {
    /// The same number again.
    pub fn copy(&self) -> SessionNo
        ensures { result ≡ self.now }
    {
        *self
    }
}
