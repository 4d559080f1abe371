//! The annotation of a bundle of the script of work.
ghost use Rattle.std.specs.Prelude.{◌≡◌, ◌<◌, ◌+◌, ◌*◌, ◌%◌, IfOk};
ghost use Rattle.emu_names.specs.declared.limits.TheConstants.{BUNDLES};
ghost use Rattle.work_script.specs.declared.letters.TheConstants.{LETTERS, SEGMENTS, WORDS};
ghost use Rattle.work_script.specs.Script.{each, item_of, label_of, letter, link_to, segment_of, word_of, work_annot};

use crate::letters::{LETTERS, SEGMENTS, STRIDE, WORDS};
use emu_names::{ItemId, LevelKind, Memory, Series, Text};
use level_items::{
    Annot, AnnotItem, AnnotItems, AnnotLabel, AnnotLevel, AnnotLevels, AnnotLink, AnnotLinks, Time,
};
use std::alloc::Global;

/// The letter at a place of `abcde`.
fn letter_at(place: u64) -> &'static str
    requires { place < LETTERS }
    ensures { result.now ≡ letter place }
{
    match place {
        0 => "a",
        1 => "b",
        2 => "c",
        3 => "d",
        _ => "e",
    }
}

/// The label of a segment of a bundle. The number is reduced before the sum is made, so that no sum is cut.
#[tactic(auto, using(crate::proofs::Labels::reduced))]
fn label_of(number: u64, bundle: u32, segment: u32) -> &'static str
    requires bundle { bundle < BUNDLES }
    requires segment { segment < SEGMENTS }
    ensures { result.now ≡ label_of number bundle segment }
{
    let segment = u64::from(segment);
    letter_at((number % LETTERS + 7 * u64::from(bundle) + segment * segment) % LETTERS)
}

/// An item with one label, for the attribute of its level's name. The only refusal is want of memory.
fn item_of(
    alloc: Global,
    id: u32,
    time: Time,
    level: &str,
    label: &str,
) -> Result<AnnotItem, Memory>
    ensures { IfOk result (λ made. made ≡ item_of id time level.now label.now) }
{
    let mut labels = Series::new(alloc);
    labels.push(AnnotLabel {
        name: Text::new(alloc, level)?,
        value: Text::new(alloc, label)?,
    })?;
    Ok(AnnotItem {
        id: ItemId(id),
        time,
        labels,
    })
}

/// The words of a bundle. The only refusal is want of memory.
fn words(alloc: Global) -> Result<AnnotItems, Memory>
    ensures { IfOk result (λ made. made ≡ each word_of WORDS) }
{
    let mut items = Series::new(alloc);
    for word in 0..WORDS {
        items.push(item_of(alloc, 101 + word, Time::NoTime, "Word", "w")?)?;
    }
    Ok(items)
}

/// The segments of a bundle. The only refusal is want of memory.
fn segments(alloc: Global, number: u64, bundle: u32) -> Result<AnnotItems, Memory>
    requires { bundle < BUNDLES }
    ensures { IfOk result (λ made. made ≡ each (segment_of number bundle) SEGMENTS) }
{
    let mut items = Series::new(alloc);
    for segment in 0..SEGMENTS {
        let time = Time::Span {
            start: 400 * u64::from(segment),
            dur: 399,
        };
        let label = label_of(number, bundle, segment);
        items.push(item_of(alloc, segment + 1, time, "Phonetic", label)?)?;
    }
    Ok(items)
}

/// The links of a bundle: each word is above four segments. The only refusal is want of memory.
fn links(alloc: Global) -> Result<AnnotLinks, Memory>
    ensures { IfOk result (λ made. made ≡ each link_to SEGMENTS) }
{
    let mut links = Series::new(alloc);
    for segment in 0..SEGMENTS {
        links.push(AnnotLink {
            from: ItemId(101 + segment / STRIDE),
            to: ItemId(segment + 1),
        })?;
    }
    Ok(links)
}

/// The levels of a bundle. The only refusal is want of memory.
fn levels(alloc: Global, number: u64, bundle: u32) -> Result<AnnotLevels, Memory>
    requires { bundle < BUNDLES }
    ensures { IfOk result (λ made. made ≡ (work_annot number bundle).levels) }
{
    let mut levels = Series::new(alloc);
    levels.push(AnnotLevel {
        name: Text::new(alloc, "Word")?,
        kind: LevelKind::Item,
        items: words(alloc)?,
    })?;
    levels.push(AnnotLevel {
        name: Text::new(alloc, "Phonetic")?,
        kind: LevelKind::Segment,
        items: segments(alloc, number, bundle)?,
    })?;
    Ok(levels)
}

/// The annotation of a bundle, which are counted from 0: 24 segments, and 6 words above four of them each. The
/// only refusal is want of memory.
pub(crate) fn work_annot(alloc: Global, number: u64, bundle: u32) -> Result<Annot, Memory>
    requires { bundle < BUNDLES }
    ensures { IfOk result (λ made. made ≡ work_annot number bundle) }
{
    Ok(Annot {
        annotates: Text::new(alloc, "")?,
        rate: 16_000,
        levels: levels(alloc, number, bundle)?,
        links: links(alloc)?,
    })
}
