//! A list of links in blocks, from which a link is taken out without moving all that follow: the list of the
//! links of all blocks.
ghost use Rattle.std.specs.Prelude.{◌≡◌, ◌<◌, ◌≤◌, ◌+◌, ◌++◌, ◌∷◌, ℕ, [], length, take, drop, insert, not, true, false, slice_get, slice_set, get_or, Some, IfOk, IfSome, IfNone, OnOk, OnErr};
ghost use Rattle.std.specs.List.{filter, list_any};
ghost use Rattle.link_graph.specs.Inner.Blocks.{joined, IsBlockPlace, IsRank};
ghost use Rattle.link_graph.specs.Inner.Ends.{has_end};
ghost use Rattle.link_graph.specs.Inner.Link.{IsPairPlace};
ghost use Rattle.link_graph.specs.Link.{ArePairsApart, joins};
ghost use Rattle.link_graph.specs.declared.link.Link.{Link as OneLink};

use crate::block::{Block, count_ends, place_of};
use crate::ends::End;
use crate::link::Link;
use emu_names::limits::BUNDLE_LINKS;
use emu_names::{ItemId, Memory};
use std::alloc::Global;

/// The most links of a block to which links are added.
const BLOCK_LINKS: usize = 512;

/// How many links all blocks have.
pub(crate) fn count_of(blocks: &[Block]) -> usize
    requires { length (joined blocks.now) ≤ BUNDLE_LINKS }
    ensures { result ≡ length (joined blocks.now) }
{
    let mut total = 0;
    for block in blocks {
        total += block.len();
    }
    total
}

/// The link at a place of all blocks.
pub(crate) fn link_at(blocks: &[Block], place: usize) -> &Link
    requires { place < length (joined blocks.now) }
    ensures { slice_get (joined blocks.now) place ≡ Some result.now }
{
    let mut rest = place;
    for block in blocks {
        if rest < block.len() {
            return block.get(rest);
        }
        rest -= block.len();
    }
    unreachable!()
}

/// A place of all blocks.
#[derive(Drop)]
pub(crate) struct BlockPlace {
    /// The block, or the number of blocks.
    pub(crate) block: usize,
    /// The place in the block.
    place: usize,
}

/// The block that a link at a place of all `count` links stands in, and its place there. At the end that is
/// the place behind all blocks, which is found without a walk.
pub(crate) fn block_at(blocks: &[Block], count: usize, place: usize) -> BlockPlace
    requires all { count ≡ length (joined blocks.now) }
    requires within { place ≤ count }
    ensures { IsBlockPlace blocks.now place result }
{
    let mut block = blocks.len();
    let mut before = count;
    while place < before {
        block -= 1;
        before -= blocks[block].len();
    }
    let place = place - before;
    BlockPlace { block, place }
}

/// Puts a link at a place of a block.
fn insert_at(blocks: &mut [Block], at: usize, place: usize, link: Link) -> Result<(), Memory>
    requires block { at < length blocks.old }
    requires place { place ≤ length (get_or blocks.old at []) }
    ensures ok { OnOk result (blocks.new
        ≡ slice_set blocks.old at (insert (get_or blocks.old at []) place link)) }
    ensures err { OnErr result (blocks.new ≡ blocks.old) }
{
    blocks[at].insert(place, link)
}

/// Puts a link last: into the last block where that has room, else into one of its own.
fn put_last(alloc: Global, blocks: &mut Vec<Block>, link: Link) -> Result<(), Memory>
    ensures ok { OnOk result (joined blocks.new.items ≡ joined blocks.old.items ++ link ∷ []) }
    ensures err { OnErr result (joined blocks.new.items ≡ joined blocks.old.items) }
{
    let count = blocks.len();
    if count > 0 && blocks[count - 1].len() < BLOCK_LINKS {
        let len = blocks[count - 1].len();
        return put_in(alloc, blocks, count - 1, len, link);
    }
    let mut block = Block::with_capacity(alloc, 0)?;
    block.insert(0, link)?;
    blocks.push(block)?;
    Ok(())
}

/// Puts a link at a place of all blocks.
#[tactic(auto, using(crate::proofs::Placed::last_inserted, crate::proofs::Placed::block_put, crate::proofs::Placed::found_block, crate::proofs::Placed::found_place))]
pub(crate) fn put_at(
    alloc: Global,
    blocks: &mut Vec<Block>,
    place: usize,
    link: Link,
) -> Result<(), Memory>
    requires few { length (joined blocks.old.items) ≤ BUNDLE_LINKS }
    requires within { place ≤ length (joined blocks.old.items) }
    ensures ok { OnOk result (joined blocks.new.items ≡ insert (joined blocks.old.items) place link) }
    ensures err { OnErr result (joined blocks.new.items ≡ joined blocks.old.items) }
{
    let count = count_of(blocks.as_slice());
    let found = block_at(blocks.as_slice(), count, place);
    if found.block == blocks.len() {
        return put_last(alloc, blocks, link);
    }
    put_in(alloc, blocks, found.block, found.place, link)
}

/// Puts a link at a place of a block, which is cut in two where it is long then.
#[tactic(auto, using(crate::proofs::Placed::inserted_written))]
fn put_in(
    alloc: Global,
    blocks: &mut Vec<Block>,
    at: usize,
    place: usize,
    link: Link,
) -> Result<(), Memory>
    requires block { at < length blocks.old.items }
    requires place { place ≤ length (get_or blocks.old.items at []) }
    ensures ok { OnOk result (joined blocks.new.items
        ≡ insert (joined blocks.old.items) (length (joined (take at blocks.old.items)) + place) link) }
    ensures err { OnErr result (joined blocks.new.items ≡ joined blocks.old.items) }
{
    insert_at(blocks, at, place, link)?;
    cut_long(alloc, blocks, at);
    Ok(())
}

/// Cuts a block in two where it is too long. Where memory is wanting it stays long.
#[tactic(auto, using(crate::proofs::Placed::cut_written))]
fn cut_long(alloc: Global, blocks: &mut Vec<Block>, at: usize)
    requires { at < length blocks.old.items }
    ensures { joined blocks.new.items ≡ joined blocks.old.items }
{
    if blocks[at].len() <= BLOCK_LINKS {
        return;
    }
    if let Ok(behind) = blocks[at].behind(alloc, BLOCK_LINKS / 2) {
        if blocks.insert(at + 1, behind).is_ok() {
            truncate_at(blocks, at, BLOCK_LINKS / 2);
        }
    }
}

/// Lets all links of a block but the first ones go.
fn truncate_at(blocks: &mut [Block], at: usize, len: usize)
    requires { at < length blocks.old }
    ensures { blocks.new ≡ slice_set blocks.old at (take len (get_or blocks.old at [])) }
{
    blocks[at].truncate(len);
}

/// Before how many of an item's links one is put that is put at a place of all. At the end the links are not
/// counted, and the answer is the largest number.
pub(crate) fn rank(blocks: &[Block], last: bool, place: usize, end: End, id: ItemId) -> usize
    requires few { length (joined blocks.now) ≤ BUNDLE_LINKS }
    requires last { last ≡ true → length (joined blocks.now) ≤ place }
    ensures { IsRank (has_end end id.0) (joined blocks.now) place result }
{
    if last {
        return usize::MAX;
    }
    count_before(blocks, place, end, id)
}

/// How many of the first links of all blocks lead from an item, or to it.
#[tactic(auto, using(crate::proofs::Counted::block_counted, crate::proofs::Counted::filter_few))]
fn count_before(blocks: &[Block], place: usize, end: End, id: ItemId) -> usize
    requires { length (joined blocks.now) ≤ BUNDLE_LINKS }
    ensures { result ≡ length (filter (has_end end id.0) (take place (joined blocks.now))) }
{
    let mut total = 0;
    let mut rest = place;
    for block in blocks {
        total += count_ends(block.as_slice(), rest, end, id);
        rest = rest.saturating_sub(block.len());
    }
    total
}

/// The first block from one on that has the link of a pair.
#[tactic(auto, using(crate::proofs::PairPlaces::pair_past, crate::proofs::PairPlaces::is_found))]
fn find_from(blocks: &[Block], first: usize, from: ItemId, to: ItemId) -> Option<usize>
    ensures within { IfSome result (λ at. at < length blocks.now) }
    ensures there { IfSome result
        (λ at. list_any (joins from to) (get_or blocks.now at []) ≡ true) }
    ensures none { IfNone result (list_any (joins from to) (joined (drop first blocks.now)) ≡ false) }
{
    for at in first..blocks.len() {
        if place_of(blocks[at].as_slice(), from, to).is_some() {
            return Some(at);
        }
    }
    None
}

/// The block with the link of a pair, which is looked for from `guess` on, and then from the first one on.
fn find_block(blocks: &[Block], guess: usize, from: ItemId, to: ItemId) -> Option<usize>
    ensures within { IfSome result (λ at. at < length blocks.now) }
    ensures there { IfSome result
        (λ at. list_any (joins from to) (get_or blocks.now at []) ≡ true) }
    ensures none { IfNone result (list_any (joins from to) (joined blocks.now) ≡ false) }
{
    match find_from(blocks, guess, from, to) {
        Some(at) => Some(at),
        None => find_from(blocks, 0, from, to),
    }
}

/// The place among all links of the link of a pair, which the block at a place has.
#[tactic(auto, using(crate::proofs::PairPlaces::few_before))]
fn place_in(blocks: &[Block], at: usize, from: ItemId, to: ItemId) -> Option<usize>
    requires few { length (joined blocks.now) ≤ BUNDLE_LINKS }
    requires within { at < length blocks.now }
    requires there { list_any (joins from to) (get_or blocks.now at []) ≡ true }
    ensures { IsPairPlace from to (joined blocks.now) result }
{
    let place = place_of(blocks[at].as_slice(), from, to)?;
    let (before, _behind) = blocks.split_at(at);
    Some(count_of(before) + place)
}

/// The place of the link of a pair, which is looked for at this block first.
pub(crate) fn pair_place(blocks: &[Block], guess: usize, from: ItemId, to: ItemId) -> Option<usize>
    requires { length (joined blocks.now) ≤ BUNDLE_LINKS }
    ensures { IsPairPlace from to (joined blocks.now) result }
{
    let at = find_block(blocks, guess, from, to)?;
    place_in(blocks, at, from, to)
}

/// Takes the link of a pair out of the block at a place.
fn take_at(blocks: &mut [Block], at: usize, from: ItemId, to: ItemId)
    requires { at < length blocks.old }
    ensures { blocks.new ≡ slice_set blocks.old at
        (filter (λ link. not (joins from to link)) (get_or blocks.old at [])) }
{
    blocks[at].take_pair(from, to);
}

/// Takes the link of a pair out, which is looked for at this block first.
pub(crate) fn take_found(blocks: &mut Vec<Block>, guess: usize, from: ItemId, to: ItemId)
    requires { ArePairsApart (joined blocks.old.items) }
    ensures { joined blocks.new.items
        ≡ filter (λ link. not (joins from to link)) (joined blocks.old.items) }
{
    match find_block(blocks.as_slice(), guess, from, to) {
        Some(at) => take_at(blocks, at, from, to),
        None => {}
    }
}

/// The same blocks again. The only refusal is want of memory.
pub(crate) fn copied(alloc: Global, blocks: &[Block]) -> Result<Vec<Block>, Memory>
    ensures { IfOk result (λ made. made.items ≡ blocks.now) }
{
    let mut made = Vec::with_capacity(alloc, blocks.len())?;
    for block in blocks {
        made.push(block.copy(alloc)?)?;
    }
    Ok(made)
}
