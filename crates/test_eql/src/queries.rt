//! Faults and their places, and the prints of queries, worked by hand from the grammar and the rules of printing.

use emu_names::{Memory, Text};
use eql_syntax::QueryFault::{Syntax, TwoMarks};
use eql_syntax::{Op, Query, QueryFault, Term, Terms, Words, print_query, read_query};
use std::alloc::Global;
use std::process::Abort;
use std::test::Fail;

static FAULTS: [(&str, QueryFault); 81] = [
    ("", Syntax(0)),
    ("   ", Syntax(3)),
    ("[Phonetic == ]", Syntax(13)),
    ("[A == a -> B == b -> C == c]", Syntax(18)),
    ("[[#Phonetic == V] -> [#Phonetic == m]]", TwoMarks(22)),
    ("A == a]", Syntax(6)),
    ("[Num(A, B) == 1234567890]", Syntax(14)),
    ("[Num(A, B) == '1']", Syntax(14)),
    ("['Start'(A, B) == 1]", Syntax(8)),
    ("[Start(A, B) == '1']", Syntax(16)),
    ("[Start(A, B) != 1]", Syntax(13)),
    ("[Start(A, B) == 2]", Syntax(16)),
    ("[start(A, B) == 1]", Syntax(6)),
    ("[A < a]", Syntax(3)),
    ("[Num(A, B) =~ 1]", Syntax(11)),
    ("A ! a", Syntax(2)),
    ("A == 'a", Syntax(5)),
    ("A == a|", Syntax(7)),
    ("A == a||b", Syntax(7)),
    ("A == a &", Syntax(8)),
    ("& A == a", Syntax(0)),
    ("A", Syntax(1)),
    ("A B", Syntax(2)),
    ("[A == a", Syntax(7)),
    ("[A == a] -> [B == b]", Syntax(9)),
    ("A == a ^ B == b", Syntax(7)),
    ("A == a -> B == b", Syntax(7)),
    ("A == a & [B == b]", Syntax(9)),
    ("##A == a", Syntax(1)),
    ("#A == a & #B == b", TwoMarks(10)),
    ("Wörd == ä ö", Syntax(12)),
    ("A->B == b", Syntax(1)),
    ("A == == a", Syntax(5)),
    ("A == (", Syntax(5)),
    ("[A == a,]", Syntax(7)),
    ("[[A == a] ^ [B == b] -> [C == c]]", Syntax(21)),
    ("]", Syntax(0)),
    (")", Syntax(0)),
    ("(A == a)", Syntax(0)),
    ("== a", Syntax(0)),
    ("| A == a", Syntax(0)),
    (", A == a", Syntax(0)),
    ("[-> A == a]", Syntax(1)),
    ("[^ A == a]", Syntax(1)),
    ("[#[A == a]]", Syntax(2)),
    ("A [", Syntax(2)),
    ("A # B", Syntax(2)),
    ("A | B", Syntax(2)),
    ("A == [", Syntax(5)),
    ("A == #", Syntax(5)),
    ("A == a b", Syntax(7)),
    ("A == a 'b'", Syntax(7)),
    ("A == a == b", Syntax(7)),
    ("A == a (", Syntax(7)),
    ("A == a !", Syntax(7)),
    ("A == a !~", Syntax(7)),
    ("[A == a] & B == b", Syntax(9)),
    ("[A == a] #", Syntax(9)),
    ("[A == a -> B == b ^ C == c]", Syntax(18)),
    ("[A == a -> B == b", Syntax(17)),
    ("Start A", Syntax(6)),
    ("Start(, B)", Syntax(6)),
    ("Start(A)", Syntax(7)),
    ("Start(A B)", Syntax(8)),
    ("Start(A, B", Syntax(10)),
    ("Start(A, B) 1", Syntax(12)),
    ("Start(A, B) < 1", Syntax(12)),
    ("Start(A, B) == true", Syntax(15)),
    ("Start(A, B) == 10", Syntax(15)),
    ("Begin(A, B) == 1", Syntax(5)),
    ("'Num'(A, B) == 1", Syntax(5)),
    ("Num(A, B) !~ 1", Syntax(10)),
    ("Num(A, B) == x", Syntax(13)),
    ("Num(A, B) == 12a", Syntax(13)),
    ("Num(A, B) == 1|2", Syntax(14)),
    ("#A == a #", Syntax(8)),
    ("#A == a & ##", TwoMarks(10)),
    ("A == a \r\n\t]", Syntax(10)),
    ("ä == ö ü", Syntax(9)),
    ("ä == ö |", Syntax(10)),
    ("'ä' == 'ö' 'ü", Syntax(13)),
];

/// Texts that are read, with the text that their query is printed as.
static PRINTS: [(&str, &str); 44] = [
    ("Phonetic == m", "'Phonetic' == 'm'"),
    ("[Phonetic = V]", "'Phonetic' == 'V'"),
    (
        "[[Phonetic = V] -> #Phonetic =~ 'm|n']",
        "['Phonetic' == 'V' -> #'Phonetic' =~ 'm|n']",
    ),
    (
        "[Start(A,B) = TRUE & #C != 'x'|y]",
        "Start('A', 'B') == 1 & #'C' != 'x'|'y'",
    ),
    ("Start == a", "'Start' == 'a'"),
    ("Num == a", "'Num' == 'a'"),
    ("T == TRUE", "'T' == 'TRUE'"),
    ("1 == 1", "'1' == '1'"),
    ("A == ''", "'A' == ''"),
    ("'' == ''", "'' == ''"),
    ("A == 'a->b'", "'A' == 'a->b'"),
    ("A == '\t->\n'", "'A' == '\t->\n'"),
    ("A == a-b", "'A' == 'a-b'"),
    ("[A == a->B == b]", "['A' == 'a' -> 'B' == 'b']"),
    ("[A == a--> B == b]", "['A' == 'a-' -> 'B' == 'b']"),
    ("[A==a^B==b]", "['A' == 'a' ^ 'B' == 'b']"),
    (
        "[Word == w ^ Phoneme == p]",
        "['Word' == 'w' ^ 'Phoneme' == 'p']",
    ),
    (
        "[[[#Phoneme == t] -> [Phoneme == r]] ^ [Syllable == S]]",
        "[[#'Phoneme' == 't' -> 'Phoneme' == 'r'] ^ 'Syllable' == 'S']",
    ),
    (
        "[[A == a & B == b] -> [[C == c ^ D == d]]]",
        "['A' == 'a' & 'B' == 'b' -> ['C' == 'c' ^ 'D' == 'd']]",
    ),
    (
        "[A == a ^ [B == b ^ C == c]]",
        "['A' == 'a' ^ ['B' == 'b' ^ 'C' == 'c']]",
    ),
    (
        "[[A == a -> B == b] -> C == c]",
        "[['A' == 'a' -> 'B' == 'b'] -> 'C' == 'c']",
    ),
    ("[Utterance =~ .*]", "'Utterance' =~ '.*'"),
    ("A ==~b", "'A' == '~b'"),
    ("A =~b", "'A' =~ 'b'"),
    ("A !~ a|b|c", "'A' !~ 'a'|'b'|'c'"),
    ("A!=a", "'A' != 'a'"),
    ("A==a|'b c'|''", "'A' == 'a'|'b c'|''"),
    ("Start(A, B) == T", "Start('A', 'B') == 1"),
    ("Start('A b', '') == 1", "Start('A b', '') == 1"),
    ("[Medial(A, B) == 0]", "Medial('A', 'B') == 0"),
    ("#Medial(A, B) == 1", "#Medial('A', 'B') == 1"),
    ("[End(A, B) == F]", "End('A', 'B') == 0"),
    ("End(A, B) = FALSE", "End('A', 'B') == 0"),
    ("Num(A,B)=0", "Num('A', 'B') == 0"),
    ("Num(A, B) >= 007", "Num('A', 'B') >= 7"),
    ("Num(A, B) < 123456789", "Num('A', 'B') < 123456789"),
    ("Num(A, B) = 000000000", "Num('A', 'B') == 0"),
    (
        "Num(A, B) <= 1 & Num(A, B) != 2 & Num(A, B) > 3",
        "Num('A', 'B') <= 1 & Num('A', 'B') != 2 & Num('A', 'B') > 3",
    ),
    (
        "#Num(Start, End) == 10 & A != b",
        "#Num('Start', 'End') == 10 & 'A' != 'b'",
    ),
    ("\t[\r\nA == a ]\n", "'A' == 'a'"),
    ("Wörd == 'ä ö'", "'Wörd' == 'ä ö'"),
    ("'a b' == c", "'a b' == 'c'"),
    ("[[[A == a]]]", "'A' == 'a'"),
    (
        "A == a & B == b & #C == c",
        "'A' == 'a' & 'B' == 'b' & #'C' == 'c'",
    ),
];

/// Compares the fault of a text, or that it has none.
pub(crate) fn check_fault(rt: &impl Abort, alloc: Global, text: &str, wanted: Option<QueryFault>) {
    let found = match read_query(alloc, text) {
        Ok(_) => None,
        Err(fault) => Some(fault.copy()),
    };
    assert!(rt; found == wanted, "{found:?} in {text}");
}

#[test]
fn faults_and_places(rt: HostRuntime) {
    for &(text, fault) in &FAULTS {
        check_fault(&rt, rt.alloc(), text, Some(fault));
    }
}

/// Compares the print of a query.
fn expect_print(rt: &impl Abort, alloc: Global, query: &Query, wanted: &str) -> Result<(), Memory> {
    let printed = print_query(alloc, query)?;
    assert_eq!(rt; printed.as_str(), wanted);
    Ok(())
}

/// Compares the print of a copy of a query.
fn expect_print_of_copy(
    rt: &impl Abort,
    alloc: Global,
    query: &Query,
    wanted: &str,
) -> Result<(), Memory> {
    let copied = query.copy(alloc)?;
    expect_print(rt, alloc, &copied, wanted)
}

/// Compares the prints of a query and of a copy of it.
fn expect_prints(
    rt: &impl Abort,
    alloc: Global,
    query: &Query,
    wanted: &str,
) -> Result<(), Memory> {
    expect_print(rt, alloc, query, wanted)?;
    expect_print_of_copy(rt, alloc, query, wanted)
}

/// Compares the prints of a text's query and of a copy of it.
pub(crate) fn check_prints(
    rt: &impl Abort,
    alloc: Global,
    text: &str,
    wanted: &str,
) -> Result<(), Fail> {
    let query = read_query(alloc, text)?;
    Ok(expect_prints(rt, alloc, &query, wanted)?)
}

#[test]
fn texts_and_their_prints(rt: HostRuntime) -> Result<(), Fail> {
    for &(text, print) in &PRINTS {
        check_prints(&rt, rt.alloc(), text, print)?;
        check_prints(&rt, rt.alloc(), print, print)?;
    }
    Ok(())
}

/// Puts the label `a` behind the labels.
fn push_label(alloc: Global, labels: &mut Words) -> Result<(), Memory> {
    labels.push(Text::new(alloc, "a")?)
}

/// The one label.
fn labels(alloc: Global) -> Result<Words, Memory> {
    let mut labels = Words::new(alloc);
    push_label(alloc, &mut labels)?;
    Ok(labels)
}

/// A copy of the one label.
fn copied_labels(alloc: Global) -> Result<Words, Memory> {
    let labels = labels(alloc)?;
    labels.copy(alloc)
}

/// The test of the name `B` for labels.
fn test(alloc: Global, labels: Words) -> Result<Term, Memory> {
    let name = Text::new(alloc, "B")?;
    Ok(Term::Test {
        marked: true,
        name,
        op: Op::IsNot.copy(),
        labels,
    })
}

/// Puts the one test behind the terms.
fn push_test(alloc: Global, terms: &mut Terms) -> Result<(), Memory> {
    let labels = copied_labels(alloc)?;
    terms.push(test(alloc, labels)?)
}

/// The one test.
fn terms(alloc: Global) -> Result<Terms, Memory> {
    let mut terms = Terms::new(alloc);
    push_test(alloc, &mut terms)?;
    Ok(terms)
}

/// The query of a copy of the one test.
fn made(alloc: Global) -> Result<Query, Memory> {
    let terms = terms(alloc)?;
    Ok(Query::Terms(terms.copy(alloc)?))
}

#[test]
fn a_query_made_by_hand(rt: HostRuntime) -> Result<(), Fail> {
    let query = made(rt.alloc())?;
    expect_print(&rt, rt.alloc(), &query, "#'B' != 'a'")?;
    Ok(())
}

/// Whether the label `a` stands alone in the list.
fn is_the_label(labels: &Words) -> bool {
    labels.len() == 1 && labels.get(0).as_str() == "a"
}

/// Whether the one label stands alone in its list.
fn label_stands_alone(alloc: Global) -> Result<bool, Memory> {
    let labels = labels(alloc)?;
    Ok(is_the_label(&labels))
}

/// How many terms there are.
fn count_of_terms(alloc: Global) -> Result<usize, Memory> {
    Ok(terms(alloc)?.len())
}

#[test]
fn lists_count(rt: HostRuntime) -> Result<(), Fail> {
    let alone = label_stands_alone(rt.alloc())?;
    let count = count_of_terms(rt.alloc())?;
    assert_eq!(rt; (alone, count), (true, 1));
    Ok(())
}
