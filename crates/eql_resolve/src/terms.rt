//! The conditions of a query, with their names replaced by levels and attributes.
ghost use Rattle.std.specs.Prelude.{◌≡◌, ◌<◌, true, length, map, IsSome, IfOk, OnOk};
ghost use Rattle.db_config.specs.Above.{is_above};
ghost use Rattle.db_config.specs.Lookups.{attribute_at};
ghost use Rattle.eql_resolve.specs.Prepared.{patterns_under, term_patterns, terms_patterns};
ghost use Rattle.eql_resolve.specs.Resolve.{named, path_between, places_between, asked_term, asked_terms};
ghost use Rattle.eql_resolve.specs.Sound.{IsTermOf, AreTermsOf};
ghost use Rattle.eql_resolve.specs.Inner.View.{Gives, op_in, is_found, labels_in, term_in};

use crate::asked::{AskedTerm, Wanted};
use crate::counts::term_count;
use crate::faults::AskFault;
use db_config::{AttributePlace, Config};
use emu_names::Text;
use eql_syntax::{Op, Term};
use label_match::Pattern;
use std::alloc::Global;

/// The attribute that a name stands for: its own, else the first of the level of this name. `UnknownName`
/// comes where there is neither. The only other refusal is want of memory.
pub fn named(alloc: Global, config: &Config, name: &Text) -> Result<AttributePlace, AskFault>
    ensures named { Gives (λ p. p) result (named config.now name.now) }
    ensures there { IfOk result (λ p. IsSome (attribute_at p config.now.levels)) }
{
    match config.name_place(name.as_str()) {
        Some(place) => Ok(place),
        None => Err(AskFault::UnknownName(name.copy(alloc)?)),
    }
}

/// Refuses two levels of which the first is not above the second.
fn path_between(config: &Config, upper: usize, lower: usize) -> Result<(), AskFault>
    requires upper { upper < length config.now.levels }
    requires lower { lower < length config.now.levels }
    ensures { Gives (λ _. true) result (path_between config.now upper lower) }
{
    if config.is_above(upper, lower) {
        Ok(())
    } else {
        Err(AskFault::NoPath)
    }
}

/// The places of the two names of a function, of which the first level is above the second.
fn places_between(
    alloc: Global,
    config: &Config,
    upper: &Text,
    lower: &Text,
) -> Result<(AttributePlace, AttributePlace), AskFault>
    ensures places { Gives (λ p. p) result (places_between config.now upper.now lower.now) }
    ensures upper { IfOk result (λ p. IsSome (attribute_at p.0 config.now.levels)) }
    ensures lower { IfOk result (λ p. IsSome (attribute_at p.1 config.now.levels)) }
    ensures above { IfOk result (λ p. is_above config.now.links p.0.level p.1.level ≡ true) }
{
    let above = named(alloc, config, upper)?;
    let below = named(alloc, config, lower)?;
    path_between(config, above.level, below.level)?;
    Ok((above, below))
}

/// Whether a test by this operator holds where a label is found.
fn is_found(op: Op) -> bool
    ensures { result ≡ is_found op }
{
    match op {
        Op::Is | Op::Like => true,
        Op::IsNot | Op::NotLike => false,
    }
}

/// What a test asks for: the labels as they are written, or their patterns.
fn wanted_by<'a>(op: Op, labels: &'a [Text], patterns: &'a [Pattern]) -> Wanted<'a>
    requires { patterns.now ≡ patterns_under op labels.now }
    ensures labels { labels_in result ≡ labels.now }
    ensures op { op_in (is_found op) result ≡ op }
{
    match op {
        Op::Is | Op::IsNot => Wanted::Labels(labels),
        Op::Like | Op::NotLike => Wanted::Patterns(patterns),
    }
}

/// A condition with its names replaced. The patterns are its own.
fn asked_term<'a>(
    alloc: Global,
    config: &Config,
    term: &'a Term,
    patterns: &'a [Pattern],
) -> Result<AskedTerm<'a>, AskFault>
    requires { patterns.now ≡ term_patterns term.now }
    ensures asked { Gives term_in result (asked_term config.now term.now) }
    ensures within { IfOk result (λ t. IsTermOf config.now (term_in t)) }
{
    match term {
        Term::Test {
            marked,
            name,
            op,
            labels,
        } => {
            let place = named(alloc, config, name)?;
            Ok(AskedTerm::Test {
                marked: *marked,
                place,
                found: is_found(*op),
                wanted: wanted_by(*op, labels.as_slice(), patterns),
            })
        }
        Term::Place {
            marked,
            place,
            upper,
            lower,
            wanted,
        } => {
            let (above, below) = places_between(alloc, config, upper, lower)?;
            Ok(AskedTerm::Position {
                marked: *marked,
                place: *place,
                upper: above.level,
                lower: below,
                wanted: *wanted,
            })
        }
        Term::Num {
            marked,
            upper,
            lower,
            compare,
            number,
        } => {
            let (above, below) = places_between(alloc, config, upper, lower)?;
            Ok(AskedTerm::Number {
                marked: *marked,
                upper: above,
                lower: below.level,
                compare: *compare,
                number: *number,
            })
        }
    }
}

/// The conditions of a conjunction with their names replaced. The patterns are theirs.
pub(crate) fn asked_terms<'a>(
    alloc: Global,
    config: &Config,
    terms: &'a [Term],
    patterns: &'a [Pattern],
) -> Result<Vec<AskedTerm<'a>>, AskFault>
    requires { patterns.now ≡ terms_patterns terms.now }
    ensures asked { Gives (λ ts. map term_in ts.items) result
        (asked_terms config.now terms.now) }
    ensures within { IfOk result (λ ts. AreTermsOf config.now (map term_in ts.items)) }
{
    let mut made = Vec::new(alloc);
    let mut rest = patterns;
    for term in terms {
        let (ours, others) = rest.split_at(term_count(term));
        rest = others;
        match asked_term(alloc, config, term, ours) {
            Ok(asked) => made.push(asked)?,
            Err(fault) => return Err(fault),
        }
    }
    Ok(made)
}
