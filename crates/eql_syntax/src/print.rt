//! The text of a query.
ghost use Rattle.std.specs.Prelude.{◌≡◌, ℕ, ◌++◌, ◌≤◌, List, length, IfOk, true, false, string_bytes, codes};
ghost use Rattle.std.specs.List.{join_by, flat_map};
ghost use Rattle.eql_syntax.specs.Inner.Tree.{tree_of};
ghost use Rattle.eql_syntax.specs.Answer.{IsQuery};
ghost use Rattle.eql_syntax.specs.Inner.Print.{op_text, compare_text, place_text, mark_text, bit_text, quoted_text, labels_text, names_text, term_text, query_text, Gains};
ghost use Rattle.eql_syntax.specs.Grammar.{Spells};
ghost use Rattle.eql_tokens.specs.Tokens.{tokens_of};
ghost use Rattle.eql_syntax.specs.Fault.{kinds};

use crate::query::{Compare, Op, Place, Query, Term};
use emu_names::limits::QUERY_BYTES;
use emu_names::{Memory, Text};
use std::alloc::Global;

/// The sign of a label test.
fn op_text(op: Op) -> &'static str
    ensures { result.now ≡ op_text op }
{
    match op {
        Op::Is => "==",
        Op::IsNot => "!=",
        Op::Like => "=~",
        Op::NotLike => "!~",
    }
}

/// The sign of a comparison.
fn compare_text(compare: Compare) -> &'static str
    ensures { result.now ≡ compare_text compare }
{
    match compare {
        Compare::Eq => "==",
        Compare::Ne => "!=",
        Compare::Lt => "<",
        Compare::Le => "<=",
        Compare::Gt => ">",
        Compare::Ge => ">=",
    }
}

/// The function that tests a place.
fn place_text(place: Place) -> &'static str
    ensures { result.now ≡ place_text place }
{
    match place {
        Place::Start => "Start",
        Place::Medial => "Medial",
        Place::End => "End",
    }
}

/// The mark, where there is one.
fn mark_text(marked: bool) -> &'static str
    ensures { result.now ≡ mark_text marked }
{
    if marked { "#" } else { "" }
}

/// What is wanted of a place.
fn bit_text(wanted: bool) -> &'static str
    ensures { result.now ≡ bit_text wanted }
{
    if wanted { "1" } else { "0" }
}

/// Writes the word between quotes.
fn push_quoted(out: &mut String, word: &Text) -> Result<(), Memory>
    ensures { IfOk result (λ _. Gains out.old out.new (quoted_text word.now)) }
{
    write!(out, "'{word}'")?;
    Ok(())
}

/// Writes the labels with `|` between them.
fn push_labels(out: &mut String, labels: &[Text]) -> Result<(), Memory>
    ensures { IfOk result (λ _. Gains out.old out.new (labels_text labels.now)) }
{
    let [first, others @ ..] = labels else {
        return Ok(());
    };
    push_quoted(out, first)?;
    for label in others {
        write!(out, "|'{label}'")?;
    }
    Ok(())
}

/// Writes the two names of a function.
fn push_names(out: &mut String, upper: &Text, lower: &Text) -> Result<(), Memory>
    ensures { IfOk result (λ _. Gains out.old out.new (names_text upper.now lower.now)) }
{
    write!(out, "('{upper}', '{lower}')")?;
    Ok(())
}

/// Writes a condition.
fn push_term(out: &mut String, term: &Term) -> Result<(), Memory>
    ensures { IfOk result (λ _. Gains out.old out.new (term_text term.now)) }
{
    match term {
        Term::Test {
            marked,
            name,
            op,
            labels,
        } => {
            let mark = mark_text(*marked);
            let sign = op_text(*op);
            write!(out, "{mark}'{name}' {sign} ")?;
            push_labels(out, labels.as_slice())
        }
        Term::Place {
            marked,
            place,
            upper,
            lower,
            wanted,
        } => {
            let mark = mark_text(*marked);
            let function = place_text(*place);
            let bit = bit_text(*wanted);
            write!(out, "{mark}{function}")?;
            push_names(out, upper, lower)?;
            write!(out, " == {bit}")?;
            Ok(())
        }
        Term::Num {
            marked,
            upper,
            lower,
            compare,
            number,
        } => {
            let mark = mark_text(*marked);
            let sign = compare_text(*compare);
            write!(out, "{mark}Num")?;
            push_names(out, upper, lower)?;
            write!(out, " {sign} {number}")?;
            Ok(())
        }
    }
}

/// Writes the conditions with `&` between them.
fn push_terms(out: &mut String, terms: &[Term]) -> Result<(), Memory>
    ensures { IfOk result (λ _. Gains out.old out.new (join_by term_text (codes " & ") terms.now)) }
{
    let [first, others @ ..] = terms else {
        return Ok(());
    };
    push_term(out, first)?;
    for term in others {
        out.push_str(" & ")?;
        push_term(out, term)?;
    }
    Ok(())
}

/// Writes the query.
fn push_query(out: &mut String, query: &Query) -> Result<(), Memory>
    ensures { IfOk result (λ _. Gains out.old out.new (query_text (tree_of query.now))) }
{
    match query {
        Query::Terms(terms) => push_terms(out, terms.as_slice()),
        Query::Sequence(left, right) => {
            out.push_str("[")?;
            push_query(out, left)?;
            out.push_str(" -> ")?;
            push_query(out, right)?;
            out.push_str("]")?;
            Ok(())
        }
        Query::Dominance(left, right) => {
            out.push_str("[")?;
            push_query(out, left)?;
            out.push_str(" ^ ")?;
            push_query(out, right)?;
            out.push_str("]")?;
            Ok(())
        }
    }
}

/// The text of the query: every name and label in quotes, single spaces round operators, `&`, `->`
/// and `^` and behind commas, bits as 0 and 1, a sequence or a dominance in brackets. The only
/// refusal is want of memory. (EMU-SDMS Manual, "The EMU Query Language version 2".)
///
/// Where some text spells the query, within the limits, the text of the query spells it too, and is
/// read as that query where it has at most `QUERY_BYTES` bytes.
pub fn print_query(alloc: Global, query: &Query) -> Result<Text, Memory>
    ensures text { IfOk result (λ print. print ≡ query_text (tree_of query.now)) }
    ensures spells { (text : List ℕ) → IsQuery text (tree_of query.now)
        → IfOk result (λ print. Spells (kinds (tokens_of print)) (tree_of query.now)) }
    ensures back { (text : List ℕ) → IsQuery text (tree_of query.now)
        → IfOk result (λ print. length print ≤ QUERY_BYTES → IsQuery print (tree_of query.now)) }
{
    let mut out = String::new(alloc);
    push_query(&mut out, query)?;
    Text::new(alloc, out.as_str())
}
