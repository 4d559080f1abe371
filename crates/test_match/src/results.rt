//! Queries of a bundle with five levels, and their results.
ghost use Rattle.std.specs.Prelude.{◌≡◌, IfOk};
ghost use Rattle.bundle_state.specs.Built.{FitsConfig};
ghost use Rattle.eql_resolve.specs.Inner.Sound.{IsResolvedBy};

use crate::made::{config_of, prepared_of};
use annot_json::read_annot;
use bundle_index::Indexed;
use bundle_state::Bundle;
use db_config::Config;
use emu_names::{BundleKey, Fault, Name, NameFault};
use eql_match::match_bundle;
use eql_model::match_plain;
use eql_resolve::{Asked, Prepared, resolve};
use eql_rows::Span;
use json_view::View;
use level_items::Annot;
use serde_json::Value;
use std::alloc::{AllocError, Global};
use std::process::Abort;
use std::test::Fail;

/// Words above syllables, these above phonemes and tones, and phonemes above segments.
static DATABASE: &str =
    r#"{"name":"t","levelDefinitions":[{"name":"Word","type":"ITEM","attributeDefinitions":[{"name":"Word"},{"name":"Accent"}]},{"name":"Syllable","type":"ITEM","attributeDefinitions":[{"name":"Syllable"}]},{"name":"Phoneme","type":"ITEM","attributeDefinitions":[{"name":"Phoneme"}]},{"name":"Phonetic","type":"SEGMENT","attributeDefinitions":[{"name":"Phonetic","labelGroups":[{"name":"vowel","values":["o:","V"]}]}]},{"name":"Tone","type":"EVENT","attributeDefinitions":[{"name":"Tone"}]}],"linkDefinitions":[{"type":"ONE_TO_MANY","superlevelName":"Word","sublevelName":"Syllable"},{"type":"ONE_TO_MANY","superlevelName":"Syllable","sublevelName":"Phoneme"},{"type":"ONE_TO_MANY","superlevelName":"Phoneme","sublevelName":"Phonetic"},{"type":"ONE_TO_MANY","superlevelName":"Syllable","sublevelName":"Tone"}]}"#;

/// Three words, four syllables, seven phonemes, their segments, and two tones.
static BUNDLE: &str =
    r#"{"name":"b1","sampleRate":20000,"levels":[{"name":"Word","type":"ITEM","items":[{"id":1,"labels":[{"name":"Word","value":"more"},{"name":"Accent","value":"S"}]},{"id":2,"labels":[{"name":"Word","value":"of"},{"name":"Accent","value":"W"}]},{"id":3,"labels":[{"name":"Word","value":""},{"name":"Accent","value":"S"}]}]},{"name":"Syllable","type":"ITEM","items":[{"id":11,"labels":[{"name":"Syllable","value":"S"}]},{"id":12,"labels":[{"name":"Syllable","value":"W"}]},{"id":13,"labels":[{"name":"Syllable","value":"W"}]},{"id":14,"labels":[{"name":"Syllable","value":"S"}]}]},{"name":"Phoneme","type":"ITEM","items":[{"id":21,"labels":[{"name":"Phoneme","value":"m"}]},{"id":22,"labels":[{"name":"Phoneme","value":"o:"}]},{"id":23,"labels":[{"name":"Phoneme","value":"r"}]},{"id":24,"labels":[{"name":"Phoneme","value":"V"}]},{"id":25,"labels":[{"name":"Phoneme","value":"v"}]},{"id":26,"labels":[{"name":"Phoneme","value":"m"}]},{"id":27,"labels":[{"name":"Phoneme","value":"V"}]}]},{"name":"Phonetic","type":"SEGMENT","items":[{"id":31,"labels":[{"name":"Phonetic","value":"m"}],"sampleStart":0,"sampleDur":99},{"id":32,"labels":[{"name":"Phonetic","value":"o:"}],"sampleStart":100,"sampleDur":99},{"id":33,"labels":[{"name":"Phonetic","value":"r"}],"sampleStart":200,"sampleDur":49},{"id":34,"labels":[{"name":"Phonetic","value":"V"}],"sampleStart":250,"sampleDur":49},{"id":35,"labels":[{"name":"Phonetic","value":"v"}],"sampleStart":300,"sampleDur":99},{"id":36,"labels":[{"name":"Phonetic","value":"m"}],"sampleStart":500,"sampleDur":9},{"id":37,"labels":[{"name":"Phonetic","value":"V"}],"sampleStart":510,"sampleDur":89}]},{"name":"Tone","type":"EVENT","items":[{"id":41,"labels":[{"name":"Tone","value":"H*"}],"samplePoint":120},{"id":42,"labels":[{"name":"Tone","value":"L%"}],"samplePoint":360}]}],"links":[{"fromID":1,"toID":11},{"fromID":1,"toID":12},{"fromID":2,"toID":13},{"fromID":3,"toID":14},{"fromID":11,"toID":21},{"fromID":11,"toID":22},{"fromID":12,"toID":23},{"fromID":13,"toID":24},{"fromID":13,"toID":25},{"fromID":14,"toID":26},{"fromID":14,"toID":27},{"fromID":21,"toID":31},{"fromID":22,"toID":32},{"fromID":23,"toID":33},{"fromID":24,"toID":34},{"fromID":25,"toID":35},{"fromID":26,"toID":36},{"fromID":27,"toID":37},{"fromID":11,"toID":41},{"fromID":13,"toID":42}]}"#;

/// Queries, and the first and last positions of their results.
static ROWS: [(&str, &str); 37] = [
    ("Phonetic == m", "0-0 5-5"),
    ("Phonetic != m", "1-1 2-2 3-3 4-4 6-6"),
    ("Phonetic == x", ""),
    ("Phonetic == vowel", "1-1 3-3 6-6"),
    ("Phonetic != vowel|r", "0-0 4-4 5-5"),
    ("Phoneme =~ '.:|V'", "1-1 3-3 6-6"),
    ("Phoneme !~ '[mv]'", "1-1 2-2 3-3 6-6"),
    ("Accent == S", "0-0 2-2"),
    ("Word == ''", "2-2"),
    ("[Phonetic == m -> Phonetic == vowel]", "0-1 5-6"),
    ("[#Phonetic == m -> Phonetic == vowel]", "0-0 5-5"),
    (
        "[[Phoneme =~ '.*' -> Phoneme == r] -> #Phoneme == V]",
        "3-3",
    ),
    ("[Syllable == W -> Syllable == W]", "1-2"),
    ("[Word =~ '.*' ^ Phonetic == m]", "0-0 2-2"),
    ("[Phonetic == m ^ Accent == S]", "0-0 5-5"),
    ("[Word == more ^ #Phoneme == m]", "0-0"),
    (
        "[[Syllable == S -> Syllable == W] ^ [Phonetic == 'o:' -> Phonetic == r]]",
        "0-1",
    ),
    ("[Syllable == S ^ Tone == 'H*']", "0-0"),
    ("[Tone =~ '.*' ^ Word == of]", "1-1"),
    ("[#Syllable == W ^ Phonetic != q]", "1-1 2-2"),
    ("[[Word =~ '.*' ^ Syllable == W] ^ #Phoneme == V]", "3-3"),
    ("[[Phoneme == 'o:' ^ Syllable == S] -> Phoneme != m]", "1-2"),
    ("[Phonetic == x -> Phonetic == vowel]", ""),
    ("[Phonetic == x ^ [Syllable == S ^ Accent == S]]", ""),
    ("[[Phonetic == x -> Phonetic == m] ^ #Syllable == S]", ""),
    ("[Phonetic == m -> [Phonetic == x ^ Syllable == W]]", ""),
    ("Start(Word,Phoneme) == 1", "0-0 3-3 5-5"),
    ("Start(Word,Phoneme) == 0", "1-1 2-2 4-4 6-6"),
    ("Medial(Word,Phoneme) == 1", "1-1"),
    (
        "Medial(Syllable,Phonetic) == 0",
        "0-0 1-1 2-2 3-3 4-4 5-5 6-6",
    ),
    ("End(Syllable,Phonetic) == 1", "1-1 2-2 4-4 6-6"),
    ("Start(Word,Syllable) == 1 & #Syllable == W", "2-2"),
    ("Num(Word,Phonetic) == 3", "0-0"),
    ("Num(Syllable,Phoneme) != 2", "1-1"),
    ("Num(Word,Tone) <= 0", "2-2"),
    ("Num(Word,Syllable) > 1 & Accent == S", "0-0"),
    (
        "[Num(Syllable,Phonetic) >= 2 ^ #End(Word,Phonetic) == 1]",
        "4-4 6-6",
    ),
];

/// The annotation of a value.
fn annot_of_value(alloc: Global, value: &Value) -> Result<Annot, Fail> {
    let view = View::root(alloc, value)?;
    Ok(read_annot(alloc, &view)?)
}

/// The annotation of a text.
fn annot_of(alloc: Global, text: &str) -> Result<Annot, Fail> {
    let value = Value::from_str(alloc, text)?;
    annot_of_value(alloc, &value)
}

/// The key of the bundle b1.
fn key_of(alloc: Global) -> Result<BundleKey, NameFault> {
    Ok(BundleKey {
        session: Name::new(alloc, "s1")?,
        bundle: Name::new(alloc, "b1")?,
    })
}

/// The bundle of an annotation.
#[tactic(auto, using(bundle_state::proofs::Calling::fits_built))]
fn built(alloc: Global, config: &Config, key: BundleKey, annot: &Annot) -> Result<Bundle, Fault>
    ensures { IfOk result (λ bundle. FitsConfig config.now bundle) }
{
    Bundle::build(alloc, config, key, annot)
}

/// The bundle b1 of an annotation.
fn bundle_of(alloc: Global, config: &Config, annot: &Annot) -> Result<Bundle, Fail>
    ensures { IfOk result (λ bundle. FitsConfig config.now bundle) }
{
    let key = key_of(alloc)?;
    Ok(built(alloc, config, key, annot)?)
}

/// The bundle b1 of an annotation, with its columns.
fn indexed(alloc: Global, config: &Config, annot: &Annot) -> Result<Indexed, Fail>
    ensures { IfOk result (λ made. FitsConfig config.now made.bundle) }
{
    let bundle = bundle_of(alloc, config, annot)?;
    Ok(Indexed::new(alloc, bundle)?)
}

/// The bundle b1 of the annotation of a text, with its columns.
pub(crate) fn indexed_of(alloc: Global, config: &Config, text: &str) -> Result<Indexed, Fail>
    ensures { IfOk result (λ made. FitsConfig config.now made.bundle) }
{
    let annot = annot_of(alloc, text)?;
    indexed(alloc, config, &annot)
}

/// The first and last positions of results, as the table says them.
fn told(alloc: Global, spans: &[Span]) -> Result<String, AllocError> {
    let mut text = String::new(alloc);
    for span in spans {
        if !text.is_empty() {
            text.push(' ')?;
        }
        let stretch = format!(in alloc; "{}-{}", span.first, span.last)?;
        text.push_str(stretch.as_str())?;
    }
    Ok(text)
}

/// What the fast evaluator finds.
fn fast(
    alloc: Global,
    config: &Config,
    indexed: &Indexed,
    asked: &Asked,
) -> Result<String, AllocError>
    requires resolved { IsResolvedBy config.now asked.now }
    requires fits { FitsConfig config.now indexed.now.bundle }
{
    match match_bundle(alloc, config, indexed, asked) {
        Ok(spans) => told(alloc, spans.as_slice()),
        Err(_) => String::from_str(alloc, "refused"),
    }
}

/// What the plain evaluator finds.
fn plain(
    alloc: Global,
    config: &Config,
    bundle: &Bundle,
    asked: &Asked,
) -> Result<String, AllocError>
    requires resolved { IsResolvedBy config.now asked.now }
    requires fits { FitsConfig config.now bundle.now }
{
    match match_plain(alloc, config, bundle, asked) {
        Ok(spans) => told(alloc, spans.as_slice()),
        Err(_) => String::from_str(alloc, "refused"),
    }
}

/// What both evaluators find, the fast one first.
fn both(
    alloc: Global,
    config: &Config,
    indexed: &Indexed,
    asked: &Asked,
) -> Result<(String, String), AllocError>
    requires resolved { IsResolvedBy config.now asked.now }
    requires fits { FitsConfig config.now indexed.now.bundle }
{
    let fast = fast(alloc, config, indexed, asked)?;
    let plain = plain(alloc, config, indexed.bundle(), asked)?;
    Ok((fast, plain))
}

/// What both evaluators find for a prepared query.
fn found(
    alloc: Global,
    config: &Config,
    indexed: &Indexed,
    prepared: &Prepared,
) -> Result<(String, String), Fail>
    requires { FitsConfig config.now indexed.now.bundle }
{
    let asked = resolve(alloc, config, prepared, None)?;
    Ok(both(alloc, config, indexed, &asked)?)
}

/// What both evaluators find for a text.
pub(crate) fn found_for(
    alloc: Global,
    config: &Config,
    indexed: &Indexed,
    text: &str,
) -> Result<(String, String), Fail>
    requires { FitsConfig config.now indexed.now.bundle }
{
    let prepared = prepared_of(alloc, text)?;
    found(alloc, config, indexed, &prepared)
}

/// Asks all queries of the table.
fn ask_all(rt: &impl Abort, alloc: Global, config: &Config, indexed: &Indexed) -> Result<(), Fail>
    requires { FitsConfig config.now indexed.now.bundle }
{
    for &(text, wanted) in &ROWS {
        let (fast, plain) = found_for(alloc, config, indexed, text)?;
        assert_eq!(rt; (fast.as_str(), plain.as_str()), (wanted, wanted), "{text}");
    }
    Ok(())
}

/// Asks all queries of the bundle.
fn ask_of_bundle(rt: &impl Abort, alloc: Global, config: &Config) -> Result<(), Fail> {
    let indexed = indexed_of(alloc, config, BUNDLE)?;
    let compared = ask_all(rt, alloc, config, &indexed);
    drop(indexed);
    compared
}

#[test]
fn results_are_those_of_the_table(rt: HostRuntime) -> Result<(), Fail> {
    let config = config_of(rt.alloc(), DATABASE)?;
    let compared = ask_of_bundle(&rt, rt.alloc(), &config);
    drop(config);
    compared
}
