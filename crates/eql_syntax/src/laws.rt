//! Laws with nothing to run: what brackets come to in the tokens of a query (EMU-SDMS Manual, "The EMU
//! Query Language version 2": conjunction, sequence and domination in brackets).
ghost use Rattle.eql_syntax.specs.Laws.{QueriesStandAnywhere, BracketsChangeNothing, BracketsHoldOneOrTwo, BracketsAreClosed};

/// Whether tokens are a query has nothing to do with what follows: a query with tokens behind it is the
/// front of a longer list of tokens, and each query at the front of a list is one by itself.
pub fn queries_stand_anywhere()
    ensures { QueriesStandAnywhere }
{}

/// Brackets change nothing: tokens that spell a query spell the same query with `[` before them and `]`
/// behind them, and so they do inside a longer query.
pub fn brackets_change_nothing()
    ensures { BracketsChangeNothing }
{}

/// Between `[` and `]` stands the query itself, or the left and the right query of a sequence with `->`
/// between them, or those of a dominance with `^` between them; and nothing else.
pub fn brackets_hold_one_or_two()
    ensures { BracketsHoldOneOrTwo }
{}

/// A query that begins with `[` ends with `]`.
pub fn brackets_are_closed()
    ensures { BracketsAreClosed }
{}
