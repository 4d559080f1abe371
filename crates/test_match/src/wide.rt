//! Generated bundles of more items than a word has bits: several items above one, and as many pairs as a query may have.
ghost use Rattle.std.specs.Prelude.{◌≡◌, IfOk};
ghost use Rattle.bundle_state.specs.Built.{FitsConfig};
ghost use Rattle.eql_resolve.specs.Inner.Sound.{IsResolvedBy};

use crate::made::{config_of, prepared_of};
use crate::results::{found_for, indexed_of};
use bundle_index::Indexed;
use db_config::Config;
use eql_match::match_bundle;
use eql_resolve::{Asked, Prepared, resolve};
use eql_tuples::MatchFault;
use std::alloc::{AllocError, Global};
use std::process::Abort;
use std::test::Fail;

/// The ITEM level A above M, and M above B, with any links.
static DATABASE: &str =
    r#"{"name":"t","levelDefinitions":[{"name":"A","type":"ITEM","attributeDefinitions":[{"name":"A"}]},{"name":"M","type":"ITEM","attributeDefinitions":[{"name":"M"}]},{"name":"B","type":"ITEM","attributeDefinitions":[{"name":"B"}]}],"linkDefinitions":[{"type":"MANY_TO_MANY","superlevelName":"A","sublevelName":"M"},{"type":"MANY_TO_MANY","superlevelName":"M","sublevelName":"B"}]}"#;

/// The first ids of the three levels.
const A: u32 = 0;

const M: u32 = 100_000;

const B: u32 = 200_000;

/// Puts a piece behind a list of others, parted by commas.
fn push_piece(list: &mut String, piece: &str) -> Result<(), AllocError> {
    if !list.is_empty() {
        list.push(',')?;
    }
    list.push_str(piece)
}

/// A level of so many items, of which every so many-th has the label x, from the first on, and each other one y.
fn level_text(
    alloc: Global,
    name: &str,
    first: u32,
    count: u32,
    step: u32,
) -> Result<String, AllocError> {
    let mut items = String::new(alloc);
    for at in 0..count {
        let label = if at.is_multiple_of(step) { "x" } else { "y" };
        let id = first.saturating_add(at);
        let item = format!(in alloc;
            "{{\"id\":{id},\"labels\":[{{\"name\":\"{name}\",\"value\":\"{label}\"}}]}}"
        )?;
        push_piece(&mut items, item.as_str())?;
    }
    format!(in alloc; "{{\"name\":\"{name}\",\"type\":\"ITEM\",\"items\":[{items}]}}")
}

/// Puts the link of two ids behind others.
fn push_link(alloc: Global, links: &mut String, from: u32, to: u32) -> Result<(), AllocError> {
    let link = format!(in alloc; "{{\"fromID\":{from},\"toID\":{to}}}")?;
    push_piece(links, link.as_str())
}

/// The annotation of three levels and their links.
fn annot_text(
    alloc: Global,
    upper: &str,
    middle: &str,
    lower: &str,
    links: &str,
) -> Result<String, AllocError> {
    format!(in alloc;
        "{{\"sampleRate\":20000,\"levels\":[{upper},{middle},{lower}],\"links\":[{links}]}}"
    )
}

/// 100 items A, 200 items M and 100 items B. Item j of M, from 0 on, lies below the items j / 2 and j / 2 + 1 of A, the last of which is the
/// first, and above the item j / 2 of B: 600 links.
fn crossed_text(alloc: Global) -> Result<String, AllocError> {
    let mut links = String::new(alloc);
    for at in 0u32..200 {
        let half = at / 2;
        let item = M.saturating_add(at);
        push_link(alloc, &mut links, A.saturating_add(half), item)?;
        push_link(alloc, &mut links, A.saturating_add((half + 1) % 100), item)?;
        push_link(alloc, &mut links, item, B.saturating_add(half))?;
    }
    let upper = level_text(alloc, "A", A, 100, 2)?;
    let middle = level_text(alloc, "M", M, 200, 3)?;
    let lower = level_text(alloc, "B", B, 100, 3)?;
    annot_text(
        alloc,
        upper.as_str(),
        middle.as_str(),
        lower.as_str(),
        links.as_str(),
    )
}

/// Queries of that bundle, and how many results they have, counted by hand.
static CROSSED: [(&str, usize); 17] = [
    ("M == x", 67),
    ("M =~ '[^x]'", 133),
    ("[A == x ^ #M == x]", 67),
    ("[A == x ^ M == x]", 50),
    ("[A == x ^ #B == x]", 34),
    ("[B == x ^ #A == x]", 33),
    ("[M == x ^ B == x]", 34),
    ("[M == x -> M == y]", 67),
    ("[[M == x -> M == y] ^ A == x]", 51),
    ("Num(A, M) == 4", 100),
    ("Num(A, B) == 2", 100),
    ("Num(M, B) != 1", 0),
    ("Start(A, M) == 1", 99),
    ("Start(A, M) == 0", 101),
    ("End(A, M) == 1", 99),
    ("Medial(A, M) == 1", 198),
    ("Medial(A, M) == 0", 2),
];

/// How many results a text tells of.
fn count_of(told: &str) -> usize {
    if told.is_empty() {
        0
    } else {
        told.split(' ').count()
    }
}

/// Asks both evaluators a query of the table, and compares the results with each other and their number with the table.
fn expect_crossed(
    rt: &impl Abort,
    alloc: Global,
    config: &Config,
    indexed: &Indexed,
    row: &(&str, usize),
) -> Result<(), Fail>
    requires { FitsConfig config.now indexed.now.bundle }
{
    let (text, wanted) = *row;
    let (fast, plain) = found_for(alloc, config, indexed, text)?;
    assert_eq!(rt;
        (fast.as_str(), count_of(fast.as_str())),
        (plain.as_str(), wanted),
        "{text}"
    );
    Ok(())
}

/// Asks all queries of the table.
fn expect_all_crossed(
    rt: &impl Abort,
    alloc: Global,
    config: &Config,
    indexed: &Indexed,
) -> Result<(), Fail>
    requires { FitsConfig config.now indexed.now.bundle }
{
    for row in &CROSSED {
        expect_crossed(rt, alloc, config, indexed, row)?;
    }
    Ok(())
}

/// Asks them of the bundle.
fn ask_of_crossed(rt: &impl Abort, alloc: Global, config: &Config) -> Result<(), Fail> {
    let text = crossed_text(alloc)?;
    let indexed = indexed_of(alloc, config, text.as_str())?;
    let compared = expect_all_crossed(rt, alloc, config, &indexed);
    drop(indexed);
    compared
}

#[test]
fn both_evaluators_agree_where_items_have_several_parents(rt: HostRuntime) -> Result<(), Fail> {
    let config = config_of(rt.alloc(), DATABASE)?;
    let compared = ask_of_crossed(&rt, rt.alloc(), &config);
    drop(config);
    compared
}

/// So many items A above one item M, and 1,000 items B below it, all with the label x.
fn wide_text(alloc: Global, count: u32) -> Result<String, AllocError> {
    let mut links = String::new(alloc);
    for at in 0..count {
        push_link(alloc, &mut links, A.saturating_add(at), M)?;
    }
    for at in 0..1000 {
        push_link(alloc, &mut links, M, B.saturating_add(at))?;
    }
    let upper = level_text(alloc, "A", A, count, 1)?;
    let middle = level_text(alloc, "M", M, 1, 1)?;
    let lower = level_text(alloc, "B", B, 1000, 1)?;
    annot_text(
        alloc,
        upper.as_str(),
        middle.as_str(),
        lower.as_str(),
        links.as_str(),
    )
}

/// How many items A there are, a query, and how many results it has: 1,000,000 pairs are no fault.
static WIDE: [(u32, &str, Result<usize, MatchFault>); 5] = [
    (1000, "[A == x ^ #B == x]", Ok(1000)),
    (1000, "[A == x ^ B == x]", Ok(1000)),
    (1001, "[A == x ^ #B == x]", Err(MatchFault::TooManyTuples)),
    (1001, "[A == x ^ B == x]", Ok(1001)),
    (
        1001,
        "[A == z -> [A == x ^ #B == x]]",
        Err(MatchFault::TooManyTuples),
    ),
];

/// How many results the fast evaluator finds.
fn fast_count(
    alloc: Global,
    config: &Config,
    indexed: &Indexed,
    asked: &Asked,
) -> Result<usize, MatchFault>
    requires resolved { IsResolvedBy config.now asked.now }
    requires fits { FitsConfig config.now indexed.now.bundle }
{
    let spans = match_bundle(alloc, config, indexed, asked)?;
    Ok(spans.as_slice().len())
}

/// How many results it finds for a prepared query.
fn fast_count_of(
    alloc: Global,
    config: &Config,
    indexed: &Indexed,
    prepared: &Prepared,
) -> Result<Result<usize, MatchFault>, Fail>
    requires { FitsConfig config.now indexed.now.bundle }
{
    let asked = resolve(alloc, config, prepared, None)?;
    Ok(fast_count(alloc, config, indexed, &asked))
}

/// How many results it finds for a text in a bundle.
fn fast_count_in(
    alloc: Global,
    config: &Config,
    indexed: &Indexed,
    text: &str,
) -> Result<Result<usize, MatchFault>, Fail>
    requires { FitsConfig config.now indexed.now.bundle }
{
    let prepared = prepared_of(alloc, text)?;
    fast_count_of(alloc, config, indexed, &prepared)
}

/// The wide bundle with so many items.
fn wide(alloc: Global, config: &Config, count: u32) -> Result<Indexed, Fail>
    ensures { IfOk result (λ indexed. FitsConfig config.now indexed.bundle) }
{
    let annot = wide_text(alloc, count)?;
    indexed_of(alloc, config, annot.as_str())
}

/// How many results it finds for a text in the wide bundle with so many items.
fn fast_count_for(
    alloc: Global,
    config: &Config,
    count: u32,
    text: &str,
) -> Result<Result<usize, MatchFault>, Fail> {
    let indexed = wide(alloc, config, count)?;
    let found = fast_count_in(alloc, config, &indexed, text);
    drop(indexed);
    found
}

/// Asks the fast evaluator all queries of the table.
fn expect_wide(rt: &impl Abort, alloc: Global, config: &Config) -> Result<(), Fail> {
    for &(count, text, wanted) in &WIDE {
        let found = fast_count_for(alloc, config, count, text)?;
        assert_eq!(rt; found, wanted, "{count} {text}");
    }
    Ok(())
}

#[test]
fn a_query_has_a_million_pairs_at_most(rt: HostRuntime) -> Result<(), Fail> {
    let config = config_of(rt.alloc(), DATABASE)?;
    expect_wide(&rt, rt.alloc(), &config)
}
