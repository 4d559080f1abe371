//! A row of bits of which only a stretch is held.
ghost use Rattle.std.specs.Prelude.{◌≡◌, ◌<◌, ◌≤◌, ◌+◌, ◌||◌, ◌&&◌, count_by, length, replicate, slice_get, slice_set, true, false, IfOk, OnOk, Some};
ghost use Rattle.std.specs.List.{list_any};
ghost use Rattle.std.specs.Simd.Lanes.{zip2};
ghost use Rattle.lane_bits.specs.Inner.Row.{IsFirst, IsLast, IsNext};
ghost use Rattle.lane_bits.specs.Inner.Span.{Fits, HasRoom, span_of};

use crate::row::{BitRow, meet, or_into};
use crate::shortage::Memory;
use std::alloc::Global;
use std::marker::Model;

/// How many places a stretch has at least, so that the bits behind one that is set find room.
const ROOM: usize = 64;

/// The bits of some places that follow each other.
#[derive(Drop)]
struct Span {
    start: usize,
    bits: BitRow,
}

/// A row of bits, which contracts see as the list of its bits. Of its places only a stretch is held, outside of which
/// no bit is set: a row whose bits stand near one another takes little room, however long it is.
#[derive(Drop)]
pub struct SpanRow {
    span: Span,
    len: usize,
}

impl Model for SpanRow {
    ghost use Rattle.std.specs.Prelude.{List, Bool};
    ghost use Rattle.lane_bits.specs.Inner.Span.{Fits, span_of};

    ghost Value = { List Bool };

    ghost view = { λ r. span_of r.span.start r.span.bits r.len };

    ghost invariant = { λ r. Fits r.span.start r.span.bits r.len };
}

/// Sets each bit of `into` that is set there or, so many places before, in `bits`, one by one.
fn add_singly(bits: &BitRow, by: usize, into: &mut BitRow)
    requires { Fits by bits.now (length into.old) }
    ensures { into.new ≡ zip2 (λ a b. a || b) into.old (span_of by bits.now (length into.old)) }
{
    let mut from = 0;
    while let Some(at) = bits.next(from) {
        let _count = into.len();
        from = at + 1;
        into.set(by + at, true);
    }
}

/// Sets each bit of `into` that is set there or, so many places before, in `bits`.
#[inline(always)]
fn add_from(bits: &BitRow, by: usize, into: &mut BitRow)
    requires { Fits by bits.now (length into.old) }
    ensures { into.new ≡ zip2 (λ a b. a || b) into.old (span_of by bits.now (length into.old)) }
{
    if by == 0 && bits.len() == into.len() {
        or_into(into, bits);
    } else {
        add_singly(bits, by, into);
    }
}

/// A row of `len` bits that has some bits from a place on, and no others. The only refusal is want of memory.
fn moved(alloc: Global, bits: &BitRow, by: usize, len: usize) -> Result<BitRow, Memory>
    requires { Fits by bits.now len }
    ensures { IfOk result (λ row. row ≡ span_of by bits.now len) }
{
    let mut row = BitRow::new(alloc, len)?;
    add_from(bits, by, &mut row);
    Ok(row)
}

/// Where a stretch begins and ends that has the places of a stretch and those from one place to before another.
fn stretch_with(start: usize, count: usize, from: usize, to: usize, len: usize) -> (usize, usize)
    requires fits { start + count ≤ len }
    requires order { from ≤ to }
    requires inside { to ≤ len }
    ensures low { result.0 ≤ start }
    ensures first { result.0 ≤ from }
    ensures high { start + count ≤ result.1 }
    ensures last { to ≤ result.1 }
    ensures within { result.1 ≤ len }
{
    let end = start + count;
    let room = if count < ROOM { ROOM } else { count };
    let mut low = start;
    if from < start {
        low = from.min(start.saturating_sub(room));
    }
    let mut high = end;
    if end < to {
        high = if len - end < room {
            len
        } else {
            to.max(end + room)
        };
    }
    if high - low > ROOM && high - low >= len / 2 {
        (0, len)
    } else {
        (low, high)
    }
}

/// Where a stretch begins: one without places may begin anywhere.
fn start_for(start: usize, count: usize, from: usize) -> usize
    ensures none { count ≡ 0 → result ≡ from }
    ensures some { 0 < count → result ≡ start }
{
    if count == 0 { from } else { start }
}

/// Gives a stretch the places from one to before another too, of which it lacks some. The only refusal is want of memory.
fn grow(span: &mut Span, alloc: Global, from: usize, to: usize, len: usize) -> Result<(), Memory>
    requires fits { Fits span.old.start span.old.bits len }
    requires order { from ≤ to }
    requires inside { to ≤ len }
    ensures fits { Fits span.new.start span.new.bits len }
    ensures same { OnOk result
        (span_of span.new.start span.new.bits len ≡ span_of span.old.start span.old.bits len) }
    ensures room { OnOk result (HasRoom span.new.start span.new.bits from to) }
{
    let count = span.bits.len();
    let start = start_for(span.start, count, from);
    let (low, high) = stretch_with(start, count, from, to, len);
    let bits = moved(alloc, &span.bits, start - low, high - low)?;
    *span = Span { start: low, bits };
    Ok(())
}

/// Gives a stretch the places from one to before another too. The only refusal is want of memory.
#[inline(always)]
fn widen(span: &mut Span, alloc: Global, from: usize, to: usize, len: usize) -> Result<(), Memory>
    requires fits { Fits span.old.start span.old.bits len }
    requires order { from ≤ to }
    requires inside { to ≤ len }
    ensures fits { Fits span.new.start span.new.bits len }
    ensures same { OnOk result
        (span_of span.new.start span.new.bits len ≡ span_of span.old.start span.old.bits len) }
    ensures room { OnOk result (HasRoom span.new.start span.new.bits from to) }
{
    let count = span.bits.len();
    if span.start <= from && to <= span.start + count {
        return Ok(());
    }
    grow(span, alloc, from, to, len)
}

/// How many places of a new row are held: all of a short one, and else none.
fn held_at_first(len: usize) -> usize
    ensures { result ≤ len }
{
    if len <= ROOM { len } else { 0 }
}

impl SpanRow {
    /// A row of `len` bits, none of which is set. The only refusal is want of memory.
    pub fn new(alloc: Global, len: usize) -> Result<SpanRow, Memory>
        ensures { IfOk result (λ row. row ≡ replicate len false) }
    {
        let bits = BitRow::new(alloc, held_at_first(len))?;
        Ok(SpanRow {
            span: Span { start: 0, bits },
            len,
        })
    }

    /// How many bits there are.
    pub fn len(&self) -> usize
        ensures { result ≡ length self.now }
    {
        self.len
    }

    /// How many places are held.
    pub fn room(&self) -> usize {
        self.span.bits.len()
    }

    /// The bit at a place, counted from 0.
    pub fn get(&self, at: usize) -> bool
        requires { at < length self.now }
        ensures { slice_get self.now at ≡ Some result }
    {
        if at < self.span.start {
            return false;
        }
        let place = at - self.span.start;
        if place >= self.span.bits.len() {
            return false;
        }
        self.span.bits.get(place)
    }

    /// Sets the bit at a place. The only refusal is want of memory.
    pub fn set(&mut self, alloc: Global, at: usize) -> Result<(), Memory>
        requires { at < length self.old }
        ensures { OnOk result (self.new ≡ slice_set self.old at true) }
    {
        widen(&mut self.span, alloc, at, at + 1, self.len)?;
        self.span.bits.set(at - self.span.start, true);
        Ok(())
    }

    /// Clears the bit at a place.
    pub fn clear(&mut self, at: usize)
        requires { at < length self.old }
        ensures { self.new ≡ slice_set self.old at false }
    {
        if at < self.span.start {
            return;
        }
        let place = at - self.span.start;
        if place >= self.span.bits.len() {
            return;
        }
        self.span.bits.set(place, false);
    }

    /// How many bits are set.
    pub fn count(&self) -> usize
        ensures { result ≡ count_by (λ b. b) self.now }
    {
        self.span.bits.count()
    }

    /// The first place at which a bit is set, or `None`, where no bit is.
    pub fn first(&self) -> Option<usize>
        ensures { IsFirst self.now result }
    {
        let _count = self.len();
        match self.span.bits.first() {
            Some(at) => Some(self.span.start + at),
            None => None,
        }
    }

    /// The first place from a place on at which a bit is set, or `None`, where no bit is.
    pub fn next(&self, from: usize) -> Option<usize>
        ensures { IsNext from self.now result }
    {
        let _count = self.len();
        match self.span.bits.next(from.saturating_sub(self.span.start)) {
            Some(at) => Some(self.span.start + at),
            None => None,
        }
    }

    /// The last place at which a bit is set, or `None`, where no bit is.
    pub fn last(&self) -> Option<usize>
        ensures { IsLast self.now result }
    {
        let _count = self.len();
        match self.span.bits.last() {
            Some(at) => Some(self.span.start + at),
            None => None,
        }
    }

    /// The same row again. The only refusal is want of memory.
    pub fn copy(&self, alloc: Global) -> Result<SpanRow, Memory>
        ensures { IfOk result (λ row. row ≡ self.now) }
    {
        let bits = self.span.bits.copy(alloc)?;
        Ok(SpanRow {
            span: Span {
                start: self.span.start,
                bits,
            },
            len: self.len,
        })
    }

    /// Sets each bit that is set here or in another row of the same length. The only refusal is want of memory.
    pub fn join(&mut self, alloc: Global, other: &SpanRow) -> Result<(), Memory>
        requires { length self.old ≡ length other.now }
        ensures { OnOk result (self.new ≡ zip2 (λ a b. a || b) self.old other.now) }
    {
        let _count = other.len();
        let start = other.span.start;
        let end = start + other.span.bits.len();
        if start == end {
            return Ok(());
        }
        widen(&mut self.span, alloc, start, end, self.len)?;
        add_from(
            &other.span.bits,
            start - self.span.start,
            &mut self.span.bits,
        );
        Ok(())
    }

    /// Sets each bit of `into` that is set there or here.
    pub fn join_into(&self, into: &mut BitRow)
        requires { length into.old ≡ length self.now }
        ensures { into.new ≡ zip2 (λ a b. a || b) into.old self.now }
    {
        add_from(&self.span.bits, self.span.start, into);
    }

    /// Whether some place has its bit here and in another row.
    pub fn meets(&self, other: &BitRow) -> bool
        requires { length self.now ≡ length other.now }
        ensures { result ≡ list_any (λ bit. bit) (zip2 (λ a b. a && b) self.now other.now) }
    {
        if self.span.bits.len() == self.len {
            meet(&self.span.bits, other)
        } else {
            meets_singly(&self.span.bits, self.span.start, other)
        }
    }
}

/// Whether some place has its bit in `other` and, so many places before, in `bits`, one by one.
fn meets_singly(bits: &BitRow, by: usize, other: &BitRow) -> bool
    requires { Fits by bits.now (length other.now) }
    ensures { result ≡ list_any (λ bit. bit) (zip2 (λ a b. a && b)
        (span_of by bits.now (length other.now)) other.now) }
{
    let mut from = 0;
    while let Some(at) = bits.next(from) {
        let _count = other.len();
        if other.get(by + at) {
            return true;
        }
        from = at + 1;
    }
    false
}
