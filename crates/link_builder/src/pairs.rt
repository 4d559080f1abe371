//! The pairs of the items of two levels of which the one holds the other.
ghost use Rattle.std.specs.Prelude.{◌≡◌, ◌≢◌, IfOk, IsTrue, nat_le};
ghost use Rattle.emu_names.specs.declared.kinds.LevelKind.TheVariants as kinds;
ghost use Rattle.level_items.specs.Times.{ends_in_time, last_sample};
ghost use Rattle.link_builder.specs.Timed.{timed_pairs};

use emu_names::Memory;
use level_items::{AnnotLink, AnnotLinks, LevelList, Time};
use std::alloc::Global;

/// Pairs of an upper and a lower item, as links are given.
pub type Pairs = AnnotLinks;

/// The last sample of a time; 0 where there is none.
fn last_sample(time: Time) -> u64
    requires { IsTrue (ends_in_time time) }
    ensures { result ≡ last_sample time }
{
    match time {
        Time::NoTime => 0,
        Time::Span { start, dur } => start + dur,
        Time::Point { at } => at,
    }
}

/// Whether a time is over by the last sample of another.
fn is_over_by(inner: Time, outer: Time) -> bool
    requires inner { IsTrue (ends_in_time inner) }
    requires outer { IsTrue (ends_in_time outer) }
    ensures { result ≡ nat_le (last_sample inner) (last_sample outer) }
{
    last_sample(inner) <= last_sample(outer)
}

/// The pairs of a segment of the upper level and an item of the lower one that stands within it: in order of
/// the segments, and for each in order of the items. An item stands in one pair at most. The only refusal is
/// want of memory.
///
/// Both levels stand in the order of their times, and are gone through side by side: an item that begins
/// before the segment stands in no later one either, and behind an item that is over too late no later one
/// stands in the segment.
pub fn timed_pairs(alloc: Global, upper: &LevelList, lower: &LevelList) -> Result<Pairs, Memory>
    requires upper { upper.now.kind ≡ kinds.Segment }
    requires lower { lower.now.kind ≢ kinds.Item }
    ensures { IfOk result (λ pairs. pairs ≡ timed_pairs upper.now.items lower.now.items) }
{
    let mut pairs = Pairs::new(alloc);
    let mut place = 0;
    let mut at = 0;
    while place < upper.len() && at < lower.len() {
        let segment = upper.get(place);
        let item = lower.get(at);
        if item.time.first_sample() < segment.time.first_sample() {
            at += 1;
        } else if is_over_by(item.time, segment.time) {
            pairs.push(AnnotLink {
                from: segment.id,
                to: item.id,
            })?;
            at += 1;
        } else {
            place += 1;
        }
    }
    Ok(pairs)
}
