//! The labels of an item, which contracts see as a list of texts.
ghost use Rattle.std.specs.Prelude.{◌≡◌, ◌<◌, ◌==◌, [], ◌∷◌, ◌++◌, length, replicate, IfOk, OnOk, OnErr, slice_get, slice_set, Some};
ghost use Rattle.level_items.specs.Levels.{padded};
ghost use Rattle.level_items.specs.Inner.Held.{held_labels};

use emu_names::{Memory, PlainData, Series, Shared, Text};
use std::alloc::Global;
use std::marker::Model;

/// A list of labels, one for each attribute of a level where it belongs to an item. Copies share the
/// texts. One label takes no block of memory for the list.
#[derive(Drop)]
pub struct Labels {
    alloc: Global,
    held: Held,
}

/// Where the labels are. There may be one of them, or none, in a list too.
#[derive(Drop)]
enum Held {
    /// No label.
    None,
    /// One label, in place.
    One(Text),
    /// Any number of labels, in a list that copies share.
    Many(Shared<Series<Text>>),
}

impl Model for Labels {
    ghost use Rattle.std.specs.Prelude.{List, ℕ};

    ghost Value = { List (List ℕ) };

    ghost use Rattle.level_items.specs.Inner.Held.{held_labels};

    ghost view = { λ l. held_labels l.held };
}

impl Labels {
    /// The list of no label, which grows by `alloc`.
    pub fn new(alloc: Global) -> Labels
        ensures { result ≡ [] }
    {
        Labels {
            alloc,
            held: Held::None,
        }
    }

    /// The list of no label, with room for so many. The only refusal is want of memory.
    pub fn with_capacity(alloc: Global, count: usize) -> Result<Labels, Memory>
        ensures { IfOk result (λ made. made ≡ []) }
    {
        if count < 2 {
            return Ok(Labels::new(alloc));
        }
        let labels = Series::from_vec(Vec::with_capacity(alloc, count)?);
        let held = Held::Many(Shared::new(alloc, labels)?);
        Ok(Labels { alloc, held })
    }

    /// Puts a label last. The only refusal is want of memory, which changes nothing.
    pub fn push(&mut self, label: Text) -> Result<(), Memory>
        ensures ok { OnOk result (self.new ≡ self.old ++ label ∷ []) }
        ensures err { OnErr result (self.new ≡ self.old) }
    {
        match &mut self.held {
            Held::None => self.held = Held::One(label),
            Held::One(first) => self.held = Held::Many(pair(self.alloc, first, label)?),
            Held::Many(labels) => push_last(labels, label)?,
        }
        Ok(())
    }

    /// How many labels there are.
    pub fn len(&self) -> usize
        ensures { result ≡ length self.now }
    {
        self.as_slice().len()
    }

    /// Whether there is no label.
    pub fn is_empty(&self) -> bool
        ensures { result ≡ (length self.now == 0) }
    {
        self.as_slice().is_empty()
    }

    /// The label at a place, counted from 0.
    pub fn get(&self, place: usize) -> &Text
        requires { place < length self.now }
        ensures { slice_get self.now place ≡ Some result.now }
    {
        &self.as_slice()[place]
    }

    /// All labels, in order.
    pub fn as_slice(&self) -> &[Text]
        ensures { result.now ≡ self.now }
    {
        match &self.held {
            Held::None => &[],
            Held::One(label) => std::slice::from_ref(label),
            Held::Many(labels) => labels.as_ref().as_slice(),
        }
    }

    /// These labels with `label` in the place of the one that stands there. The only refusal is want of
    /// memory.
    pub(crate) fn with(&self, alloc: Global, place: usize, label: Text) -> Result<Labels, Memory>
        requires { place < length self.now }
        ensures { IfOk result (λ made. made ≡ slice_set self.now place label) }
    {
        let held = match &self.held {
            Held::Many(labels) => Held::Many(replaced(alloc, labels, place, label)?),
            Held::None | Held::One(_) => Held::One(label),
        };
        Ok(Labels { alloc, held })
    }

    /// These labels with empty ones behind, up to so many in all. The only refusal is want of memory.
    #[tactic(auto, using(crate::proofs::Padded::copied_padded, crate::proofs::Padded::pushed_padded))]
    pub(crate) fn padded(&self, alloc: Global, count: usize) -> Result<Labels, Memory>
        ensures { IfOk result (λ made. made ≡ padded count self.now) }
    {
        if count <= self.len() {
            return self.copy(alloc);
        }
        let mut made = copied(alloc, self.as_slice(), count)?;
        push_empty(alloc, &mut made, count - self.len())?;
        Ok(made)
    }

    /// The same labels again, which shares them. The only refusal is want of memory.
    pub fn copy(&self, alloc: Global) -> Result<Labels, Memory>
        ensures { IfOk result (λ made. made ≡ self.now) }
    {
        let held = self.held.copy(alloc)?;
        Ok(Labels { alloc, held })
    }
}

impl PlainData for Labels {
    fn copy(&self, alloc: Global) -> Result<Labels, Memory> {
        Labels::copy(self, alloc)
    }
}

impl Held {
    /// The same labels again, which shares them. The only refusal is want of memory.
    fn copy(&self, alloc: Global) -> Result<Held, Memory>
        ensures { IfOk result (λ made. held_labels made ≡ held_labels self.now) }
    {
        match self {
            Held::None => Ok(Held::None),
            Held::One(label) => Ok(Held::One(label.copy(alloc)?)),
            Held::Many(labels) => Ok(Held::Many(labels.copy(alloc)?)),
        }
    }
}

/// Copies of these labels, with room for so many. The only refusal is want of memory.
fn copied(alloc: Global, labels: &[Text], count: usize) -> Result<Labels, Memory>
    ensures { IfOk result (λ made. made ≡ labels.now) }
{
    let mut made = Labels::with_capacity(alloc, count)?;
    for label in labels {
        made.push(label.copy(alloc)?)?;
    }
    Ok(made)
}

/// Puts so many empty labels last. The only refusal is want of memory, after which some of them may stand
/// there.
#[tactic(auto, using(crate::proofs::Padded::empty_none, crate::proofs::Padded::empty_more))]
fn push_empty(alloc: Global, labels: &mut Labels, count: usize) -> Result<(), Memory>
    ensures { OnOk result (labels.new ≡ labels.old ++ replicate count []) }
{
    for _place in 0..count {
        labels.push(Text::new(alloc, "")?)?;
    }
    Ok(())
}

/// The list of two labels. The only refusal is want of memory.
fn pair(alloc: Global, first: &Text, second: Text) -> Result<Shared<Series<Text>>, Memory>
    ensures { IfOk result (λ made. made ≡ first.now ∷ second ∷ []) }
{
    let mut labels = Vec::with_capacity(alloc, 2)?;
    labels.push(first.copy(alloc)?)?;
    labels.push(second)?;
    Shared::new(alloc, Series::from_vec(labels))
}

/// Puts a label last. The only refusal is want of memory, which changes nothing.
fn push_last(labels: &mut Shared<Series<Text>>, label: Text) -> Result<(), Memory>
    ensures ok { OnOk result (labels.new ≡ labels.old ++ label ∷ []) }
    ensures err { OnErr result (labels.new ≡ labels.old) }
{
    let end = labels.as_ref().len();
    labels.insert(end, label)
}

/// These labels with `label` in the place of the one that stands there, for copies to share. The only
/// refusal is want of memory.
fn replaced(
    alloc: Global,
    labels: &Shared<Series<Text>>,
    place: usize,
    label: Text,
) -> Result<Shared<Series<Text>>, Memory>
    requires { place < length labels.now }
    ensures { IfOk result (λ made. made ≡ slice_set labels.now place label) }
{
    let mut made = labels.copy(alloc)?;
    made.set(place, label)?;
    Ok(made)
}
