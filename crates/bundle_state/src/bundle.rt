//! A bundle of the database, valid by its type.
//!
//! A bundle keeps its levels, its link definitions, its links and the places of its ids by handles, which
//! its copies share. Of many items it has a map from ids to levels, by which an item is found without
//! asking each level.
ghost use Rattle.std.specs.Prelude.{◌≡◌, ◌<◌, length, IfOk, IfSome, IsTrue, OnErr, OnOk, Some, Ok, Err};
ghost use Rattle.std.specs.List.{slice_get};
ghost use Rattle.emu_names.specs.declared.limits.TheConstants.{BUNDLE_ITEMS};
ghost use Rattle.emu_names.specs.declared.rules.Broken.{Broken as Rule};
ghost use Rattle.emu_names.specs.Inner.Gives.{GivesOrBroken};
ghost use Rattle.level_items.specs.Levels.{KeepsLevelRule, are_labels_for, is_short};
ghost use Rattle.bundle_state.specs.Bundle.{item_count, level_of_id, place_of};
ghost use Rattle.bundle_state.specs.Built.{built, bundle_of, FitsConfig};
ghost use Rattle.bundle_state.specs.Changed.{item_added, item_removed, label_set, item_retimed, link_added, link_inserted, link_removed};
ghost use Rattle.bundle_state.specs.Fitted.{CanFit, fitted};
ghost use Rattle.bundle_state.specs.Inner.Changed.{attributes_with};
ghost use Rattle.bundle_state.specs.Inner.Placed.{ArePlaced};
ghost use Rattle.bundle_state.specs.Valid.{KeepsBundleRules};

use crate::changes::{put_item, take_out};
use crate::fitted::fitted_levels;
use crate::given_levels::levels_for;
use crate::given_links::{definition_for, shared_links};
use crate::own::{add, add_at, remove};
use crate::places::Places;
use db_config::{Config, LinkDef, LinkDefs};
use emu_names::{Broken, BundleKey, Fault, ItemId, Memory, PlainData, Text};
use level_items::{Annot, AnnotLink, Handle, Item, LevelList, SharedLevels, Time};
use link_graph::Links;
use std::alloc::Global;
use std::marker::Model;

/// A bundle (EMU-SDMS Manual, "The emuDB format": bundles and `_annot.json`), which contracts see as its
/// key, the name of its sound file, its rate, its levels, its link definitions and its links.
///
/// It always keeps the rules of bundles: a rate of 1 to 1,000,000 samples a second; at most 65,536 items,
/// whose ids differ over all levels; each level keeps the rule of level lists; at most 262,144 links, no
/// pair of items twice, each from an item of its definition's upper level to one of its lower level, and
/// those of each definition as its kind asks.
#[derive(Drop)]
pub struct Bundle {
    key: BundleKey,
    annotates: Text,
    rate: u32,
    levels: SharedLevels,
    definitions: Handle<LinkDefs>,
    links: Handle<Links>,
    places: Places,
}

impl Model for Bundle {
    ghost use Rattle.bundle_state.specs.Bundle.{BundleParts};

    ghost Value = { BundleParts };

    ghost use Rattle.bundle_state.specs.Inner.Kept.{IsKept};

    ghost view = { λ b. record {
      key = b.key;
      annotates = b.annotates;
      rate = b.rate;
      levels = b.levels;
      definitions = b.definitions;
      links = b.links;
    } };

    ghost invariant = { λ b. IsKept (record {
      key = b.key;
      annotates = b.annotates;
      rate = b.rate;
      levels = b.levels;
      definitions = b.definitions;
      links = b.links;
    }) b.places };
}

impl Bundle {
    /// The bundle that an annotation makes under a configuration, or the rule that it breaks first, or
    /// want of memory.
    ///
    /// Refused are, in this order: a rate out of range (`RateOut`), over 65,536 items (`TooMany`); for each level
    /// as it is given one that the configuration does not have (`NoLevel`), one that is named twice (`TwoLevels`)
    /// or has another kind (`LevelKind`), and for each of its items an id that is taken in the bundle (`IdTaken`),
    /// a time of another form than the level's (`TimeKind`), one that ends past sample 2^40 - 1 (`TimeOut`), for
    /// each label an unknown attribute (`NoAttribute`), one that is named twice (`TwoLabels`) or a label of over
    /// 4,096 bytes (`LabelTooLong`), and a time that does not lie behind that of the item before it (`Overlap` on a
    /// SEGMENT level, `NotRising` on an EVENT level), with that item's id. Then for each link as it is given an id
    /// that no item has (`NoItem`, of the upper item first), levels between which no definition leads
    /// (`NoLinkDefinition`), and, unless the pair stands earlier and is passed over, over 262,144 links
    /// (`TooMany`), a second parent (`OneParent`) or a second child (`OneChild`) against the definition's kind.
    ///
    /// A level that is not given is empty, and a label that is not given is the empty text.
    pub fn build(
        alloc: Global,
        config: &Config,
        key: BundleKey,
        annot: &Annot,
    ) -> Result<Bundle, Fault>
        ensures { GivesOrBroken result (built config.now key annot.now) }
    {
        let _parts = config.parts();
        let levels = levels_for(alloc, config, annot)?;
        let lists = levels.as_slice();
        let places = Places::of(alloc, lists)?;
        let links = shared_links(alloc, config, &places, lists, annot.links.as_slice())?;
        let bundle = Bundle::of(alloc, config, key, annot, levels, places, links)?;
        Ok(bundle)
    }

    /// The bundle of these levels and links, which keep the rules. The only refusal is want of memory.
    fn of(
        alloc: Global,
        config: &Config,
        key: BundleKey,
        annot: &Annot,
        levels: SharedLevels,
        places: Places,
        links: Handle<Links>,
    ) -> Result<Bundle, Memory>
        requires rules { KeepsBundleRules (bundle_of config.now key annot.now levels links) }
        requires placed { ArePlaced (level_of_id levels) places }
        ensures { IfOk result (λ made. made ≡ bundle_of config.now key annot.now levels links) }
    {
        match copied_parts(alloc, config, annot) {
            Ok((annotates, definitions)) => Ok(Bundle {
                key,
                annotates,
                rate: annot.rate as u32,
                levels,
                definitions,
                links,
                places,
            }),
            Err(fault) => Err(fault),
        }
    }

    /// The session and the name of the bundle.
    pub fn key(&self) -> &BundleKey
        ensures { result.now ≡ self.now.key }
    {
        &self.key
    }

    /// The name of the sound file, or the empty text.
    pub fn annotates(&self) -> &Text
        ensures { result.now ≡ self.now.annotates }
    {
        &self.annotates
    }

    /// The rate, in samples a second.
    pub fn rate(&self) -> u32
        ensures { result ≡ self.now.rate }
    {
        self.rate
    }

    /// How many levels there are, those without items with them.
    pub fn level_count(&self) -> usize
        ensures { result ≡ length self.now.levels }
    {
        self.levels.len()
    }

    /// A level, by its number in the configuration. Whoever asks may rely on the level rule.
    pub fn level(&self, level: usize) -> &LevelList
        requires { level < length self.now.levels }
        ensures level { slice_get self.now.levels level ≡ Some result.now }
        ensures rule { KeepsLevelRule result.now }
    {
        let list = self.levels.get(level).as_ref();
        let _count = list.len();
        list
    }

    /// The links.
    pub fn links(&self) -> &Links
        ensures { result.now ≡ self.now.links }
    {
        self.links.as_ref()
    }

    /// The link definition of a number, counted from 0, if there are so many.
    pub fn definition(&self, number: u32) -> Option<LinkDef>
        ensures { result ≡ slice_get self.now.definitions number }
    {
        let definitions = self.definitions.as_ref().as_slice();
        definitions.get(number as usize).copied()
    }

    /// How many items there are on all levels. Whoever asks may rely on the rules of bundles.
    pub fn item_count(&self) -> usize
        ensures count { result ≡ item_count self.now.levels }
        ensures rules { KeepsBundleRules self.now }
    {
        let mut count = 0;
        for level in self.levels.as_slice() {
            count += level.as_ref().len();
        }
        count
    }

    /// The level and the position of the item with this id.
    pub fn place(&self, id: ItemId) -> Option<(usize, usize)>
        ensures { result ≡ place_of self.now.levels id.0 }
    {
        match self.level_with(id) {
            Some(level) => match self.level(level).find(id) {
                Some(position) => Some((level, position)),
                None => None,
            },
            None => None,
        }
    }

    /// The number of the level of the item with this id.
    fn level_with(&self, id: ItemId) -> Option<usize>
        ensures level { result ≡ level_of_id self.now.levels id.0 }
        ensures within { IfSome result (λ level. level < length self.now.levels) }
    {
        self.places.level_of(self.levels.as_slice(), id)
    }

    /// Puts an item on a level, by the level's number: on an ITEM level at `position`, or last where none is
    /// given; on the other kinds behind all items that begin before it.
    ///
    /// Refused are, in this order: an id that an item of any level has (`IdTaken`), a time of another form
    /// than the level's (`TimeKind`), one that ends past sample 2^40 - 1 (`TimeOut`), a position past the end
    /// of an ITEM level or any position on another kind (`PositionOut`), and a time that does not lie between
    /// those of its neighbours (`Overlap` on a SEGMENT level, `NotRising` on an EVENT level), with the id of
    /// the previous item before that of the next. A refusal, or want of memory, changes nothing.
    pub fn add_item(
        &mut self,
        _config: &Config,
        level: usize,
        position: Option<u32>,
        item: Item,
    ) -> Result<(), Fault>
        requires fits { FitsConfig _config.now self.old }
        requires level { level < length self.old.levels }
        requires labels { IfSome (slice_get self.old.levels level)
            (λ l. IsTrue (are_labels_for l.attributes item.labels)) }
        requires room { item_count self.old.levels < BUNDLE_ITEMS }
        ensures ok { OnOk result (item_added level position item self.old ≡ Ok self.new) }
        ensures broken { (rule : Rule) → result ≡ Err (Fault.Broken rule)
            → item_added level position item self.old ≡ Err rule }
        ensures kept { OnErr result (self.new ≡ self.old) }
    {
        let _parts = _config.parts();
        if self.level_with(item.id).is_some() {
            return Err(Fault::Broken(Broken::IdTaken(item.id)));
        }
        put_item(&mut self.levels, &mut self.places, level, position, item)
    }

    /// Takes an item from its level, and all links that name it. `NoItem` comes exactly where no item has the
    /// id. A refusal, or want of memory, changes nothing.
    pub fn remove_item(&mut self, id: ItemId) -> Result<(), Fault>
        ensures ok { OnOk result (item_removed id self.old ≡ Ok self.new) }
        ensures broken { (rule : Rule) → result ≡ Err (Fault.Broken rule)
            → item_removed id self.old ≡ Err rule }
        ensures kept { OnErr result (self.new ≡ self.old) }
    {
        let Some((level, position)) = self.place(id) else {
            return Err(Fault::Broken(Broken::NoItem(id)));
        };
        take_out(
            &mut self.levels,
            &mut self.places,
            &mut self.links,
            id,
            level,
            position,
        )?;
        Ok(())
    }

    /// Sets one label of an item, by the attribute's number on its level. `NoItem` comes exactly where no item
    /// has the id. A refusal, or want of memory, changes nothing.
    pub fn set_label(&mut self, id: ItemId, attribute: usize, label: Text) -> Result<(), Fault>
        requires attribute { IfSome (attributes_with id.0 self.old.levels)
            (λ count. attribute < count) }
        requires label { IsTrue (is_short label) }
        ensures ok { OnOk result (label_set id attribute label self.old ≡ Ok self.new) }
        ensures broken { (rule : Rule) → result ≡ Err (Fault.Broken rule)
            → label_set id attribute label self.old ≡ Err rule }
        ensures kept { OnErr result (self.new ≡ self.old) }
    {
        let Some((level, position)) = self.place(id) else {
            return Err(Fault::Broken(Broken::NoItem(id)));
        };
        self.levels.set_label(level, position, attribute, label)?;
        Ok(())
    }

    /// Sets the time of an item, which keeps its place.
    ///
    /// Refused are, in this order: an id that no item has (`NoItem`), a time of another form than the level's
    /// (`TimeKind`), one that ends past sample 2^40 - 1 (`TimeOut`), and one that does not lie between those of
    /// the item's neighbours (`Overlap` on a SEGMENT level, `NotRising` on an EVENT level), with the id of the
    /// previous item before that of the next. A refusal, or want of memory, changes nothing.
    pub fn retime(&mut self, id: ItemId, time: Time) -> Result<(), Fault>
        ensures ok { OnOk result (item_retimed id time self.old ≡ Ok self.new) }
        ensures broken { (rule : Rule) → result ≡ Err (Fault.Broken rule)
            → item_retimed id time self.old ≡ Err rule }
        ensures kept { OnErr result (self.new ≡ self.old) }
    {
        let Some((level, position)) = self.place(id) else {
            return Err(Fault::Broken(Broken::NoItem(id)));
        };
        self.levels.retime(level, position, time)
    }

    /// Puts a link last, of the definition that leads from the level of the one item to that of the other.
    ///
    /// Refused are, in this order: an id that no item has (`NoItem`, of the upper item first), levels between
    /// which no definition leads (`NoLinkDefinition`), a pair that is there (`LinkExists`), over 262,144 links
    /// (`TooMany`), and a second parent (`OneParent`) or a second child (`OneChild`) against the definition's
    /// kind. A refusal, or want of memory, changes nothing.
    pub fn add_link(&mut self, config: &Config, from: ItemId, to: ItemId) -> Result<(), Fault>
        requires { FitsConfig config.now self.old }
        ensures ok { OnOk result (link_added from to self.old ≡ Ok self.new) }
        ensures broken { (rule : Rule) → result ≡ Err (Fault.Broken rule)
            → link_added from to self.old ≡ Err rule }
        ensures kept { OnErr result (self.new ≡ self.old) }
    {
        let pair = AnnotLink { from, to };
        let number = definition_for(config, &self.places, self.levels.as_slice(), &pair)?;
        add(&mut self.links, number, config.link_kind(number), from, to)
    }

    /// Puts a link at a place of the list of links, before the link that stands there. The refusals are those of
    /// `add_link`, and last a place past the end (`PositionOut`). A refusal, or want of memory, changes nothing.
    pub fn add_link_at(
        &mut self,
        config: &Config,
        place: u32,
        from: ItemId,
        to: ItemId,
    ) -> Result<(), Fault>
        requires { FitsConfig config.now self.old }
        ensures ok { OnOk result (link_inserted place from to self.old ≡ Ok self.new) }
        ensures broken { (rule : Rule) → result ≡ Err (Fault.Broken rule)
            → link_inserted place from to self.old ≡ Err rule }
        ensures kept { OnErr result (self.new ≡ self.old) }
    {
        let pair = AnnotLink { from, to };
        let number = definition_for(config, &self.places, self.levels.as_slice(), &pair)?;
        let kind = config.link_kind(number);
        add_at(&mut self.links, place as usize, number, kind, from, to)
    }

    /// Takes the link of a pair out; the links behind it move up. `NoLink` comes exactly where the pair is not
    /// there. A refusal, or want of memory, changes nothing.
    pub fn remove_link(&mut self, from: ItemId, to: ItemId) -> Result<(), Fault>
        ensures ok { OnOk result (link_removed from to self.old ≡ Ok self.new) }
        ensures broken { (rule : Rule) → result ≡ Err (Fault.Broken rule)
            → link_removed from to self.old ≡ Err rule }
        ensures kept { OnErr result (self.new ≡ self.old) }
    {
        remove(&mut self.links, from, to)
    }

    /// The bundle under a configuration that begins with the one that it fits: new levels are empty, and
    /// new attributes have the empty label. The only refusal is want of memory.
    pub fn fit(&self, alloc: Global, config: &Config) -> Result<Bundle, Memory>
        requires { CanFit config.now self.now }
        ensures { IfOk result (λ made. made ≡ fitted config.now self.now) }
    {
        let _rules = self.item_count();
        let parts = config.parts();
        let levels = fitted_levels(alloc, parts.levels.as_slice(), self.levels.as_slice())?;
        let definitions = parts.links.copy(alloc)?;
        Ok(Bundle {
            key: self.key.copy(alloc)?,
            annotates: self.annotates.copy(alloc)?,
            rate: self.rate,
            levels,
            definitions: Handle::new(alloc, definitions)?,
            links: self.links.copy(alloc)?,
            places: self.places.copy()?,
        })
    }

    /// The same bundle again, which shares its levels and links. The only refusal is want of memory.
    pub fn copy(&self, alloc: Global) -> Result<Bundle, Memory>
        ensures { IfOk result (λ made. made ≡ self.now) }
    {
        Ok(Bundle {
            key: self.key.copy(alloc)?,
            annotates: self.annotates.copy(alloc)?,
            rate: self.rate,
            levels: self.levels.copy(alloc)?,
            definitions: self.definitions.copy(alloc)?,
            links: self.links.copy(alloc)?,
            places: self.places.copy()?,
        })
    }
}

/// The name of the sound file of an annotation, and the link definitions of a configuration. The only
/// refusal is want of memory.
fn copied_parts(
    alloc: Global,
    config: &Config,
    annot: &Annot,
) -> Result<(Text, Handle<LinkDefs>), Memory>
    ensures annotates { IfOk result (λ made. made.0 ≡ annot.now.annotates) }
    ensures definitions { IfOk result (λ made. made.1 ≡ config.now.links) }
{
    let definitions = config.parts().links.copy(alloc)?;
    let definitions = Handle::new(alloc, definitions)?;
    let annotates = annot.annotates.copy(alloc)?;
    Ok((annotates, definitions))
}

impl PlainData for Bundle {
    fn copy(&self, alloc: Global) -> Result<Bundle, Memory> {
        Bundle::copy(self, alloc)
    }
}
