//! Command lines from the program's manual, the ends of its ranges, and words that are no command line.

use cli_words::{Words, WordsFault, read_words};
use emu_names::Text;
use std::alloc::{AllocError, Global};
use std::process::Abort;
use std::test::Fail;

/// Words with a `|` between each two, and what they ask for. The empty line has none.
static LINES: [(&str, &str); 156] = [
    ("", "usage"),
    ("|run", "usage"),
    ("fly", "usage"),
    ("Run", "usage"),
    ("help", "usage"),
    ("--help", "usage"),
    ("--store|run", "usage"),
    ("--|run", "usage"),
    ("-|run", "usage"),
    ("ru", "usage"),
    ("version", "usage"),
    ("--version", "usage"),
    ("run", "run false"),
    ("run|--store", "run true"),
    ("run|--store|--store", "usage"),
    ("run|--store=true", "usage"),
    ("run|--sto", "usage"),
    ("run|--store=", "usage"),
    ("run|-store", "usage"),
    ("run|--help", "usage"),
    ("run|--time=x", "usage"),
    ("run|-s", "usage"),
    ("run|--", "usage"),
    ("run|--|--store", "usage"),
    ("run|--store|--", "usage"),
    ("run|-x", "usage"),
    ("run|-", "usage"),
    ("run|", "usage"),
    ("run|--workers|3", "usage"),
    ("live", "live false 4"),
    ("live|--store", "live true 4"),
    ("live|--workers|1", "live false 1"),
    ("live|--workers=3", "live false 3"),
    ("live|--workers|8|--store", "live true 8"),
    ("live|--store|--workers|8", "live true 8"),
    ("live|--workers=2|--store", "live true 2"),
    ("live|--store|--workers=2", "live true 2"),
    ("live|--workers", "usage"),
    ("live|--workers=", "usage"),
    ("live|--workers|0", "usage"),
    ("live|--workers|9", "usage"),
    ("live|--workers=9", "usage"),
    ("live|--workers=+5", "usage"),
    ("live|--workers|-", "usage"),
    ("live|--workers|--", "usage"),
    ("live|--workers|-3", "usage"),
    ("live|--workers=-3", "usage"),
    ("live|--workers==3", "usage"),
    ("live|--store|--workers=3|--store", "usage"),
    ("live|--workers=3|--store|--workers|3", "usage"),
    ("live|--workers|3|--store|--store", "usage"),
    ("live|--workers|3|--store|4", "usage"),
    ("live|a|b|c|d|e|f|g", "usage"),
    ("live|--workers|03", "usage"),
    ("live|--workers|+3", "usage"),
    ("live|--workers|10", "usage"),
    ("live|--work|3", "usage"),
    ("live|--worker=3", "usage"),
    ("live|--workers|--store", "usage"),
    ("live|--workers|--store|3", "usage"),
    ("live|--workers|2|--workers|2", "usage"),
    ("live|--workers=2|--workers=2", "usage"),
    ("live|--store|--store|--workers=2", "usage"),
    ("live|3", "usage"),
    ("ask", "usage"),
    ("ask|Phonetic == m", "ask <Phonetic == m>"),
    ("ask|[Phonetic == m]", "ask <[Phonetic == m]>"),
    (
        "ask|--time|Phonetic|[Phonetic == m]",
        "ask <[Phonetic == m]> by <Phonetic>",
    ),
    (
        "ask|[[Phonetic == V] -> [Phonetic == m]]|--time=Phonetic",
        "ask <[[Phonetic == V] -> [Phonetic == m]]> by <Phonetic>",
    ),
    ("ask|--time|x|--", "usage"),
    ("ask|--time|--|A == a", "usage"),
    ("ask|--time=--|A == a", "ask <A == a> by <-->"),
    ("ask|run", "ask <run>"),
    ("ask|", "ask <>"),
    ("ask|-", "ask <->"),
    ("ask|-x", "usage"),
    ("ask|--", "usage"),
    ("ask|--|A == a", "usage"),
    ("ask|A == a|--time|Phonetic", "ask <A == a> by <Phonetic>"),
    ("ask|--time|Phonetic|A == a", "ask <A == a> by <Phonetic>"),
    ("ask|A == a|--time=Phonetic", "ask <A == a> by <Phonetic>"),
    ("ask|--time=Phonetic|A == a", "ask <A == a> by <Phonetic>"),
    ("ask|A == a|--time=", "ask <A == a> by <>"),
    ("ask|A == a|--time|", "ask <A == a> by <>"),
    ("ask|A == a|--time=-x", "ask <A == a> by <-x>"),
    ("ask|A == a|--time=a=b", "ask <A == a> by <a=b>"),
    ("ask|A == a|--time|-", "ask <A == a> by <->"),
    ("ask|A == a|--time", "usage"),
    ("ask|A == a|--time|-x", "usage"),
    ("ask|A == a|--tim|x", "usage"),
    ("ask|A == a|B == b", "usage"),
    ("ask|--time|x", "usage"),
    ("ask|--time=x", "usage"),
    ("ask|--time=x|--time=y", "usage"),
    ("ask|--time|x|--time|y", "usage"),
    ("ask|A == a|--time=x|--time=y", "usage"),
    ("ask|A == a|--store", "usage"),
    ("load", "usage"),
    ("load|ae", "load <ae>"),
    ("load|ae|be", "usage"),
    ("load|-a", "usage"),
    ("load|--", "usage"),
    ("load|-", "load <->"),
    ("load|--store", "usage"),
    ("load|--store|ae", "usage"),
    ("load|ae|--time=x", "usage"),
    (
        "import|s1|b9|20000|a.TextGrid",
        "import <s1> <b9> 20000 <a.TextGrid>",
    ),
    (
        "import|s1|b9|1|a.TextGrid",
        "import <s1> <b9> 1 <a.TextGrid>",
    ),
    ("import|s1|b9|1000000|-", "import <s1> <b9> 1000000 <->"),
    ("import|s1|b9|0|a.TextGrid", "usage"),
    ("import|s1|b9|1000001|a.TextGrid", "usage"),
    ("import|s1|b9|020000|a.TextGrid", "usage"),
    ("import|s1|b9|2e4|a.TextGrid", "usage"),
    ("import|s1|b9||a.TextGrid", "usage"),
    ("import|s1|b9|20000", "usage"),
    ("import|s1|b9|20000|a|b", "usage"),
    ("import|s1|b9|+5|a.TextGrid", "usage"),
    ("import|s1|b9|20000|--", "usage"),
    ("import|s1|b9|-5|a.TextGrid", "usage"),
    ("import|--store|s1|b9|20000|a.TextGrid", "usage"),
    ("import|s1|b9|20000|a|b|c|d", "usage"),
    ("export|s1|b1", "export <s1> <b1>"),
    ("export|s1", "usage"),
    ("export|s1|b1|--store", "usage"),
    ("export|--time=x|s1|b1", "usage"),
    ("export|s1|b1|b2", "usage"),
    ("textgrid|s1|b1", "textgrid <s1> <b1>"),
    ("textgrid|-|", "textgrid <-> <>"),
    ("textgrid|s1", "usage"),
    ("textgrid|s1|b1|b2", "usage"),
    ("textgrid|s1|-b1", "usage"),
    ("textgrid|--store|s1|b1", "usage"),
    ("textgrid|s1|b1|x", "usage"),
    ("textgrid|s1|--store", "usage"),
    ("textgrid|-|-", "textgrid <-> <->"),
    ("history", "history"),
    ("history|--store", "usage"),
    ("history|x", "usage"),
    ("history|-", "usage"),
    ("history|--", "usage"),
    ("config", "config"),
    ("config|x", "usage"),
    ("config|--store", "usage"),
    ("config|--", "usage"),
    ("work|0|1", "work 0 1"),
    (
        "work|18446744073709551615|10000",
        "work 18446744073709551615 10000",
    ),
    ("work|18446744073709551616|1", "usage"),
    ("work|00|1", "usage"),
    ("work|0|0", "usage"),
    ("work|+5|1", "usage"),
    ("work|5|+1", "usage"),
    ("work|-5|1", "usage"),
    ("work|5", "usage"),
    ("work|5|1|1", "usage"),
    ("work|--store|5|1", "usage"),
    ("work|0|10001", "usage"),
];

/// The words of a line.
fn words_in(alloc: Global, line: &str) -> Result<Vec<String>, AllocError> {
    let mut words = Vec::new(alloc);
    if line.is_empty() {
        return Ok(words);
    }
    for word in line.split('|') {
        words.push(String::from_str(alloc, word)?)?;
    }
    Ok(words)
}

/// The text of words that ask a query.
fn ask_text(alloc: Global, eql: &Text, time: &Option<Text>) -> Result<String, AllocError> {
    match time {
        None => format!(in alloc; "ask <{eql}>"),
        Some(level) => format!(in alloc; "ask <{eql}> by <{level}>"),
    }
}

/// The text of words that import a bundle.
fn import_text(
    alloc: Global,
    session: &Text,
    bundle: &Text,
    rate: u32,
    file: &Text,
) -> Result<String, AllocError> {
    format!(in alloc; "import <{session}> <{bundle}> {rate} <{file}>")
}

/// The text of words of any kind.
fn words_text(alloc: Global, words: &Words) -> Result<String, AllocError> {
    match words {
        Words::Run { store } => format!(in alloc; "run {store}"),
        Words::Live { store, workers } => format!(in alloc; "live {store} {workers}"),
        Words::Ask { eql, time } => ask_text(alloc, eql, time),
        Words::Load { name } => format!(in alloc; "load <{name}>"),
        Words::Import {
            session,
            bundle,
            rate,
            file,
        } => import_text(alloc, session, bundle, *rate, file),
        Words::Export { session, bundle } => format!(in alloc; "export <{session}> <{bundle}>"),
        Words::TextGrid { session, bundle } => {
            format!(in alloc; "textgrid <{session}> <{bundle}>")
        }
        Words::History => String::from_str(alloc, "history"),
        Words::Config => String::from_str(alloc, "config"),
        Words::Work { number, bundles } => format!(in alloc; "work {number} {bundles}"),
    }
}

/// What was read, as a text.
fn shown(alloc: Global, read: &Result<Words, WordsFault>) -> Result<String, AllocError> {
    match read {
        Ok(words) => words_text(alloc, words),
        Err(WordsFault::Usage) => String::from_str(alloc, "usage"),
        Err(WordsFault::Memory) => String::from_str(alloc, "memory"),
    }
}

/// What these words ask for, as a text.
fn answer(alloc: Global, words: &[String]) -> Result<String, AllocError> {
    let read = read_words(alloc, words);
    let text = shown(alloc, &read);
    drop(read);
    text
}

/// What a line asks for, as a text.
fn answer_to(alloc: Global, line: &str) -> Result<String, AllocError> {
    let words = words_in(alloc, line)?;
    answer(alloc, words.as_slice())
}

/// Reads a line, and compares.
fn check(rt: &impl Abort, alloc: Global, line: &str, wanted: &str) -> Result<(), AllocError> {
    let text = answer_to(alloc, line)?;
    assert_eq!(rt; text.as_str(), wanted, "{line}");
    Ok(())
}

#[test]
fn lines_and_what_they_ask_for(rt: HostRuntime) -> Result<(), Fail> {
    for &(line, wanted) in &LINES {
        check(&rt, rt.alloc(), line, wanted)?;
    }
    Ok(())
}
