//! Values that are a configuration or an annotation, and the first fault of those that are none.
use crate::compared::{at_arrow, same_text};
use annot_json::read_annot;
use config_json::{ConfigFault, read_config};
use json_view::{View, Wanted};
use serde_json::Value;
use std::alloc::{AllocError, Global};
use std::process::Abort;
use std::test::Fail;

/// What reading the member `config` of a line answers, `ok` or the fault, and behind the arrow the member.
static CONFIGS: [&str; 56] = [
    r#"ok <- {"name":"t","levelDefinitions":[{"name":"Phonetic","type":"SEGMENT","attributeDefinitions":[{"name":"Phonetic","type":"STRING"}]}],"linkDefinitions":[]}"#,
    r#"the name Phonetic stands twice <- {"name":"t","levelDefinitions":[{"name":"Phonetic","type":"SEGMENT","attributeDefinitions":[{"name":"Phonetic","type":"STRING"}]},{"name":"Phonetic","type":"SEGMENT","attributeDefinitions":[{"name":"Phonetic","type":"STRING"}]}],"linkDefinitions":[]}"#,
    "$.config: object wanted <- []",
    r#"$.config: object wanted <- "x""#,
    "$.config.name: name wanted <- {}",
    r#"$.config.name: name wanted <- {"name":""}"#,
    r#"$.config.name: name wanted <- {"name":null,"UUID":5}"#,
    r#"$.config.UUID: text wanted <- {"name":"t","UUID":5}"#,
    r#"$.config.mediafileExtension: text wanted <- {"name":"t","UUID":null,"mediafileExtension":[]}"#,
    r#"$.config.levelDefinitions: list wanted <- {"name":"t"}"#,
    r#"ok <- {"name":"t","levelDefinitions":[]}"#,
    r#"$.config.levelDefinitions: list wanted <- {"name":"t","levelDefinitions":{}}"#,
    r#"$.config.ssffTrackDefinitions: list wanted <- {"name":"t","ssffTrackDefinitions":{},"levelDefinitions":{}}"#,
    r#"$.config.ssffTrackDefinitions[1].name: text wanted <- {"name":"t","ssffTrackDefinitions":[{"name":"dft"},{"name":5}],"levelDefinitions":{}}"#,
    r#"$.config.levelDefinitions[0].attributeDefinitions: non-empty list wanted <- {"name":"t","levelDefinitions":[{"name":"A","type":"ITEM"}]}"#,
    r#"$.config.levelDefinitions[0].attributeDefinitions: non-empty list wanted <- {"name":"t","levelDefinitions":[{"name":"A","type":"ITEM","attributeDefinitions":[]}]}"#,
    r#"$.config.levelDefinitions[0].type: kind wanted <- {"name":"t","levelDefinitions":[{"name":"A","attributeDefinitions":5}]}"#,
    r#"$.config.levelDefinitions[0].type: kind wanted <- {"name":"t","levelDefinitions":[{"name":"A","type":"item"}]}"#,
    r#"$.config.levelDefinitions[0].attributeDefinitions[0].type: kind wanted <- {"name":"t","levelDefinitions":[{"name":"A","type":"EVENT","attributeDefinitions":[{"name":"A","type":"FLOAT"}]}]}"#,
    r#"$.config.levelDefinitions[0].attributeDefinitions[0].legalLabels[1]: text wanted <- {"name":"t","levelDefinitions":[{"name":"A","type":"EVENT","attributeDefinitions":[{"name":"A","type":null,"legalLabels":["a",5]}]}]}"#,
    r#"ok <- {"name":"t","levelDefinitions":[{"name":"A","type":"EVENT","attributeDefinitions":[{"name":"A","legalLabels":"a","labelGroups":[{"name":"g"},{"name":"h","values":"a"}]}]}]}"#,
    r#"$.config.labelGroups[0].values: list wanted <- {"name":"t","levelDefinitions":[{"name":"A","type":"ITEM","attributeDefinitions":[{"name":"A"}]}],"labelGroups":[{"name":"g","values":5}]}"#,
    r#"$.config.labelGroups[0].name: text wanted <- {"name":"t","levelDefinitions":[{"name":"A","type":"ITEM","attributeDefinitions":[{"name":"A"}]}],"labelGroups":[{"values":[]}]}"#,
    r#"$.config.linkDefinitions[0].superlevelName: text wanted <- {"name":"t","levelDefinitions":[{"name":"A","type":"ITEM","attributeDefinitions":[{"name":"A"}]}],"linkDefinitions":[{"type":"ONE_TO_MANY","sublevelName":"A"}]}"#,
    r#"$.config.linkDefinitions[0].type: kind wanted <- {"name":"t","levelDefinitions":[{"name":"A","type":"ITEM","attributeDefinitions":[{"name":"A"}]}],"linkDefinitions":[{"superlevelName":"A","sublevelName":"A"}]}"#,
    r#"$.config.linkDefinitions: list wanted <- {"name":"t","levelDefinitions":[{"name":"A","type":"ITEM","attributeDefinitions":[{"name":"A"}]},{"name":"A","type":"ITEM","attributeDefinitions":[{"name":"A"}]}],"linkDefinitions":5,"labelGroups":5}"#,
    r#"the name A stands twice <- {"name":"t","levelDefinitions":[{"name":"A","type":"ITEM","attributeDefinitions":[{"name":"A"}]},{"name":"A","type":"ITEM","attributeDefinitions":[{"name":"A"}]}],"linkDefinitions":[{"type":"ONE_TO_MANY","superlevelName":"A","sublevelName":"X"}]}"#,
    r#"ok <- {"name":"t","levelDefinitions":[{"name":"A","type":"ITEM","attributeDefinitions":[{"name":"B"},{"name":"A"}]},{"name":"C","type":"ITEM","attributeDefinitions":[{"name":"D"}]}]}"#,
    r#"the name A stands twice <- {"name":"t","levelDefinitions":[{"name":"A","type":"ITEM","attributeDefinitions":[{"name":"A"},{"name":"A"}]}]}"#,
    r#"the name B stands twice <- {"name":"t","levelDefinitions":[{"name":"A","type":"ITEM","attributeDefinitions":[{"name":"B"}]},{"name":"C","type":"ITEM","attributeDefinitions":[{"name":"B"}]}]}"#,
    r#"the name B stands twice <- {"name":"t","levelDefinitions":[{"name":"A","type":"ITEM","attributeDefinitions":[{"name":"B"}]},{"name":"B","type":"ITEM","attributeDefinitions":[{"name":"B"}]}]}"#,
    r#"there is no level X <- {"name":"t","levelDefinitions":[{"name":"A","type":"ITEM","attributeDefinitions":[{"name":"A"}]},{"name":"B","type":"ITEM","attributeDefinitions":[{"name":"B"}]}],"linkDefinitions":[{"type":"ONE_TO_MANY","superlevelName":"A","sublevelName":"X"},{"type":"ONE_TO_MANY","superlevelName":"Y","sublevelName":"B"}]}"#,
    r#"there is no level Y <- {"name":"t","levelDefinitions":[{"name":"A","type":"ITEM","attributeDefinitions":[{"name":"A"}]},{"name":"B","type":"ITEM","attributeDefinitions":[{"name":"B"}]}],"linkDefinitions":[{"type":"ONE_TO_MANY","superlevelName":"Y","sublevelName":"X"}]}"#,
    r#"two link definitions have the same levels <- {"name":"t","levelDefinitions":[{"name":"A","type":"ITEM","attributeDefinitions":[{"name":"A"}]},{"name":"B","type":"ITEM","attributeDefinitions":[{"name":"B"}]}],"linkDefinitions":[{"type":"ONE_TO_MANY","superlevelName":"A","sublevelName":"B"},{"type":"ONE_TO_MANY","superlevelName":"B","sublevelName":"A"},{"type":"ONE_TO_MANY","superlevelName":"A","sublevelName":"B"}]}"#,
    r#"link definitions lead from a level to itself <- {"name":"t","levelDefinitions":[{"name":"A","type":"ITEM","attributeDefinitions":[{"name":"A"}]},{"name":"B","type":"ITEM","attributeDefinitions":[{"name":"B"}]}],"linkDefinitions":[{"type":"ONE_TO_MANY","superlevelName":"A","sublevelName":"B"},{"type":"ONE_TO_MANY","superlevelName":"B","sublevelName":"A"}]}"#,
    r#"link definitions lead from a level to itself <- {"name":"t","levelDefinitions":[{"name":"A","type":"ITEM","attributeDefinitions":[{"name":"A"}]}],"linkDefinitions":[{"type":"ONE_TO_MANY","superlevelName":"A","sublevelName":"A"}]}"#,
    r#"link definitions lead from a level to itself <- {"name":"t","levelDefinitions":[{"name":"A","type":"ITEM","attributeDefinitions":[{"name":"A"}]},{"name":"B","type":"ITEM","attributeDefinitions":[{"name":"B"}]},{"name":"C","type":"ITEM","attributeDefinitions":[{"name":"C"}]}],"linkDefinitions":[{"type":"ONE_TO_MANY","superlevelName":"A","sublevelName":"B"},{"type":"ONE_TO_MANY","superlevelName":"B","sublevelName":"C"},{"type":"ONE_TO_MANY","superlevelName":"C","sublevelName":"A"}]}"#,
    r#"ok <- {"name":"t","levelDefinitions":[{"name":"A","type":"ITEM","attributeDefinitions":[{"name":"A"}]},{"name":"B","type":"ITEM","attributeDefinitions":[{"name":"B"}]},{"name":"C","type":"ITEM","attributeDefinitions":[{"name":"C"}]}],"linkDefinitions":[{"type":"ONE_TO_MANY","superlevelName":"A","sublevelName":"B"},{"type":"ONE_TO_MANY","superlevelName":"B","sublevelName":"C"},{"type":"ONE_TO_MANY","superlevelName":"A","sublevelName":"C"}]}"#,
    r#"ok <- {"name":"t","levelDefinitions":[{"name":"Phonetic","type":"SEGMENT","attributeDefinitions":[{"name":"Phonetic","type":"STRING"}]}],"linkDefinitions":[]}"#,
    r#"the name Phonetic stands twice <- {"name":"t","levelDefinitions":[{"name":"Phonetic","type":"SEGMENT","attributeDefinitions":[{"name":"Phonetic","type":"STRING"},{"name":"Phonetic"}]}],"linkDefinitions":[]}"#,
    r#"$.config.levelDefinitions[0].type: kind wanted <- {"name":"t","levelDefinitions":[{"name":"Phonetic","type":1,"attributeDefinitions":[{"name":"Phonetic","type":"STRING","legalLabels":["V","m","n","a","b"],"labelGroups":[{"name":"vowel","values":["V","E","a"]}]}]}],"linkDefinitions":[]}"#,
    r#"ok <- {"name":"t","levelDefinitions":[{"name":"Phonetic","type":"SEGMENT","attributeDefinitions":[{"name":"Phonetic","type":"STRING","legalLabels":["V","m","n","a","b"],"labelGroups":[{"name":"vowel","values":["V","E","a"]}]}]}],"linkDefinitions":[]}"#,
    r#"ok <- {"name":"äö","levelDefinitions":[{"name":"Word","type":"ITEM","attributeDefinitions":[{"name":"Word","type":"STRING"},{"name":"1"}]},{"name":"Phonetic","type":"ITEM","attributeDefinitions":[{"name":"Phonetic","type":"STRING"}]}],"linkDefinitions":[{"type":"ONE_TO_ONE","superlevelName":"Word","sublevelName":"Phonetic"}],"UUID":"\u0000"}"#,
    r#"$.config.levelDefinitions: list wanted <- {"name":"xxxxxxxxxxxxxxxxxxxxxxxxxxxxxxxxxxxxxxxxxxxxxxxxxxxxxxxxxxxxxxxxxxxxxxxxxxxxxxxxxxxxxxxxxxxxxxxxxxxxxxxxxxxxxxxxxxxxxxxxxxxxxxxxxxxxxxxxxxxxxxxxxxxxxxxxxxxxxxxxxxxxxxxxxxxxxxxxxxxxxxxxxxxxxxxxxxxxxxxxxxxxxxxxxxxxxxxxxxxxxxxxxxxxxxxxxxxxxxxxxxxxxxxxxxxxxxx","linkDefinitions":[],"labelGroups":[{"name":"x y","values":"w"}],"UUID":"\u0000"}"#,
    r#"$.config.levelDefinitions[1].attributeDefinitions[0].labelGroups[0]: object wanted <- {"name":"db","levelDefinitions":[{"name":"n!","type":"ITEM","attributeDefinitions":[{"name":"n!","legalLabels":["t","aab","b","vowel","w","a"]},{"name":"𝄞","type":"STRING"}]},{"name":"Word","type":"SEGMENT","attributeDefinitions":[{"name":"Word","type":"STRING","labelGroups":[null,{"name":"cons","values":["p","V","*","t"]},{"name":"V","values":["p","t","n"]}]},{"name":"b\\s","type":"STRING","legalLabels":["m","n","w","abb","''","a"]}]}],"linkDefinitions":[]}"#,
    r#"the name Word stands twice <- {"name":"db","levelDefinitions":[{"name":"Word","type":"ITEM","attributeDefinitions":[{"name":"Word","type":"STRING"},{"name":"Gloss","type":"STRING","legalLabels":["w","V","n","b","a"]},{"name":"Foot","type":"STRING"}]},{"name":"Text","type":"ITEM","attributeDefinitions":[{"name":"Text"}]},{"name":"Word","type":"SEGMENT","attributeDefinitions":[{"name":"Utterance","type":"STRING","labelGroups":[{"name":"a","values":["n","S","é","m"]}]},{"name":"Speaker","type":"STRING"}]}],"linkDefinitions":[{"type":"ONE_TO_ONE","superlevelName":"-","sublevelName":"Word"},{"type":"MANY_TO_MANY","superlevelName":"Text","sublevelName":"-"}],"mediafileExtension":"","ssffTrackDefinitions":[{"name":"fm"},{"name":"dft"}]}"#,
    r#"$.config.ssffTrackDefinitions[0]: object wanted <- {"name":"xxxxxxxxxxxxxxxxxxxxxxxxxxxxxxxxxxxxxxxxxxxxxxxxxxxxxxxxxxxxxxxxxxxxxxxxxxxxxxxxxxxxxxxxxxxxxxxxxxxxxxxxxxxxxxxxxxxxxxxxxxxxxxxxxxxxxxxxxxxxxxxxxxxxxxxxxxxxxxxxxxxxxxxxxxxxxxxxxxxxxxxxxxxxxxxxxxxxxxxxxxxxxxxxxxxxxxxxxxxxxxxxxxxxxxxxxxxxxxxxxxxxxxxxxxxxxxx","levelDefinitions":[{"name":"1","type":"SEGMENT","attributeDefinitions":[{"name":"1"},{"name":"Word","type":"STRING"},{"name":"Syllable","type":"STRING"}]},{"name":"Tone","type":"ITEM","attributeDefinitions":[{"name":"Tone","type":"STRING"}]},{"name":"Pitch","type":"ITEM","attributeDefinitions":[{"name":"Pitch","type":"STRING"},{"name":"Text","labelGroups":[{"name":"a","values":["V","S"]}]}]}],"linkDefinitions":[{"type":"ONE_TO_ONE","superlevelName":"Pitch","sublevelName":"1"}],"labelGroups":[{"name":"a","values":["E","$"]}],"UUID":"","mediafileExtension":"wav","ssffTrackDefinitions":[[]]}"#,
    r#"$.config.levelDefinitions[2].attributeDefinitions: non-empty list wanted <- {"name":"t","levelDefinitions":[{"name":"Word","type":"ITEM","attributeDefinitions":[{"name":"Word","type":"STRING"}]},{"name":"Syllable","type":"ITEM","attributeDefinitions":[{"name":"Syllable","type":"STRING"}]},{"name":"Phoneme","type":"ITEM","attributeDefinitions":"x"},{"name":"Phonetic","type":"SEGMENT","attributeDefinitions":[{"name":"Phonetic","legalLabels":[]}]},{"name":"Gesture","type":"SEGMENT","attributeDefinitions":[{"name":"Gesture"}]},{"name":"Tone","type":"EVENT","attributeDefinitions":[{"name":"Tone","type":"STRING"}]}],"linkDefinitions":[{"type":"ONE_TO_MANY","superlevelName":"Word","sublevelName":"Syllable"},{"type":"ONE_TO_ONE","superlevelName":"Phoneme","sublevelName":"Phonetic"},{"type":"ONE_TO_MANY","superlevelName":"Word","sublevelName":"Tone"},{"type":"MANY_TO_MANY","superlevelName":"Syllable","sublevelName":"Gesture"},{"type":"ONE_TO_MANY","superlevelName":"Gesture","sublevelName":"Phonetic"}]}"#,
    r#"two link definitions have the same levels <- {"name":"äö","levelDefinitions":[{"name":"Word","type":"ITEM","attributeDefinitions":[{"name":"Word"},{"name":"a b","type":"STRING"}]},{"name":"Stress","type":"ITEM","attributeDefinitions":[{"name":"Stress","type":"STRING"},{"name":"Text","type":"STRING"}]},{"name":"Foot","type":"EVENT","attributeDefinitions":[{"name":"Foot","type":"STRING","labelGroups":[{"name":"a","values":[]},{"name":"a","values":["m","V"]},{"name":"ə","values":["t","^a","b","S"]}]}]},{"name":"Role","type":"ITEM","attributeDefinitions":[{"name":"Role","type":"STRING","legalLabels":["E","t","V","aab","S","a"]}]}],"linkDefinitions":[{"type":"ONE_TO_MANY","superlevelName":"Word","sublevelName":"Role"},{"type":"ONE_TO_MANY","superlevelName":"Role","sublevelName":"Foot"},{"type":"ONE_TO_ONE","superlevelName":"Word","sublevelName":"Role"}],"labelGroups":[{"name":"stop","values":["m","b"]},{"name":"a","values":[]},{"name":"stop","values":["aab","m","S","p"]}]}"#,
    r#"$.config.levelDefinitions[2].type: kind wanted <- {"name":"t","levelDefinitions":[{"name":"Accent","type":"ITEM","attributeDefinitions":[{"name":"Accent","type":"STRING"},{"name":"Text","type":"STRING"}]},{"name":"Utterance","type":"ITEM","attributeDefinitions":[{"name":"Utterance","type":"STRING","legalLabels":["V","abb","a"]}]},{"name":"Phonetic","type":null,"attributeDefinitions":[{"name":"Phonetic","type":"STRING","labelGroups":[{"name":"stop","values":["p","V"]},{"name":"cons","values":["E","b","V"]},{"name":"a","values":["a","w","b","t"]}]},{"name":"Tone","type":"STRING","labelGroups":[{"name":"x y","values":["b","m","V"]}]}]},{"name":"x.y","type":"EVENT","attributeDefinitions":[{"name":"Speaker","type":"STRING"},{"name":"Phoneme","type":"STRING","labelGroups":[{"name":"nasal","values":"\u0000"},{"name":"a","values":[]}]}]}],"linkDefinitions":[{"type":"ONE_TO_MANY","superlevelName":"Accent","sublevelName":"Utterance"},{"type":"ONE_TO_MANY","superlevelName":"Phonetic","sublevelName":"x.y"}],"UUID":"u-1"}"#,
    r#"link definitions lead from a level to itself <- {"name":"db","levelDefinitions":[{"name":"x.y","type":"ITEM","attributeDefinitions":[{"name":"Pitch","type":"STRING","legalLabels":["t","w","a","n","m"],"labelGroups":[{"name":"stop","values":["V","E"]},{"name":"a","values":[]}]},{"name":"Foot","type":"STRING","legalLabels":["a","1"]}]},{"name":"a|b","type":"SEGMENT","attributeDefinitions":[{"name":"a|b","type":"STRING"}]},{"name":"TRUE","type":"EVENT","attributeDefinitions":[{"name":"TRUE","type":"STRING","labelGroups":[{"name":"ə","values":["b","t","t","S"]},{"name":"a","values":["b"]},{"name":"ə","values":["w"]}]}]},{"name":"Text","type":"EVENT","attributeDefinitions":[{"name":"Text","type":"STRING","legalLabels":["b","a","w","V"]},{"name":"a->b","type":"STRING"}]}],"linkDefinitions":[{"type":"ONE_TO_MANY","superlevelName":"x.y","sublevelName":"a|b"},{"type":"ONE_TO_ONE","superlevelName":"a|b","sublevelName":"Text"},{"type":"ONE_TO_MANY","superlevelName":"Text","sublevelName":"TRUE"},{"type":"ONE_TO_MANY","superlevelName":"x.y","sublevelName":"x.y"}],"UUID":"u-1"}"#,
    r#"$.config.levelDefinitions[0]: object wanted <- {"name":"ae","UUID":"0fc618dc-8980-414d-8c7a-144a649ce199","mediafileExtension":"wav","ssffTrackDefinitions":[{"name":"dft","columnName":"dft","fileExtension":"dft"},{"name":"fm"}],"levelDefinitions":[[]],"linkDefinitions":[{"type":"ONE_TO_MANY","superlevelName":"Utterance","sublevelName":"Intonational"},{"type":"ONE_TO_MANY","superlevelName":"Intonational","sublevelName":"Intermediate"},{"type":"ONE_TO_MANY","superlevelName":"Intermediate","sublevelName":"Word"},{"type":"ONE_TO_MANY","superlevelName":"Word","sublevelName":"Syllable"},{"type":"ONE_TO_MANY","superlevelName":"Syllable","sublevelName":"Phoneme"},{"type":"MANY_TO_MANY","superlevelName":"Phoneme","sublevelName":"Phonetic"},{"type":"ONE_TO_MANY","superlevelName":"Syllable","sublevelName":"Tone"},{"type":"ONE_TO_MANY","superlevelName":"Intonational","sublevelName":"Foot"},{"type":"ONE_TO_MANY","superlevelName":"Foot","sublevelName":"Syllable"}],"EMUwebAppConfig":{"zoom":0.5},"labelGroups":[{"name":"cons","values":["t","p","m"]},{"name":"vowel","values":["zz"]}]}"#,
    r#"$.config.levelDefinitions[1].name: name wanted <- {"name":"äö","levelDefinitions":[{"name":"Tone","type":"SEGMENT","attributeDefinitions":[{"name":"Pitch","type":"STRING"}]},{"type":"ITEM","attributeDefinitions":[{"name":"Phoneme","type":"STRING"},{"name":"Word","type":"STRING"},{"name":"Syllable","type":"STRING","legalLabels":["V","S","a"],"labelGroups":[{"name":"cons","values":"E"},{"name":"vowel","values":["w"]},{"name":"vowel","values":["p","w"]}]}]},{"name":"-","type":"SEGMENT","attributeDefinitions":[{"name":"Phonetic","type":"STRING"}]},{"name":"a b","type":"ITEM","attributeDefinitions":[{"name":"Text","type":"STRING","labelGroups":[{"name":"stop","values":["V","a|b","w","a"]}]}]},{"name":"Foot","type":"SEGMENT","attributeDefinitions":[{"name":"Foot"}]}],"linkDefinitions":[{"type":"MANY_TO_MANY","superlevelName":"Phoneme","sublevelName":"-"},{"type":"ONE_TO_MANY","superlevelName":"a b","sublevelName":"Foot"},{"type":"MANY_TO_MANY","superlevelName":"-","sublevelName":"a b"}],"labelGroups":[{"name":"cons","values":[]},{"name":"vowel","values":[]}],"mediafileExtension":""}"#,
    r#"$.config.levelDefinitions[4].attributeDefinitions[0]: object wanted <- {"name":"t","levelDefinitions":[{"name":"Word","type":"ITEM","attributeDefinitions":[{"name":"Word","type":"STRING","legalLabels":["p","t","m","a"],"labelGroups":[{"name":"V","values":["w","𝄞"]}]}]},{"name":"Syllable","type":"ITEM","attributeDefinitions":[{"name":"Syllable"}]},{"name":"Phoneme","type":"ITEM","attributeDefinitions":[{"name":"Phoneme","type":"STRING"}]},{"name":"Phonetic","type":"SEGMENT","attributeDefinitions":[{"name":"Phonetic","type":"STRING"}]},{"name":"Gesture","type":"SEGMENT","attributeDefinitions":["éééééééééééééééééééééééééééééééééééééééééééééééééééééééééééééééééééééééééééééééééééééééééééééééééééééééééééééééééééééééééééééééé"]},{"name":"Tone","type":"EVENT","attributeDefinitions":[{"name":"Tone","type":"STRING","legalLabels":["vowel","a"]}]}],"linkDefinitions":[{"type":"ONE_TO_ONE","superlevelName":"Phoneme","sublevelName":"Phonetic"},{"type":"ONE_TO_MANY","superlevelName":"Word","sublevelName":"Tone"},{"type":"MANY_TO_MANY","superlevelName":"Syllable","sublevelName":"Gesture"},{"type":"ONE_TO_MANY","superlevelName":"Gesture","sublevelName":"Phonetic"}]}"#,
    r#"$.config.name: name wanted <- {"name":4294967295,"levelDefinitions":[{"name":"Phoneme","type":"ITEM","attributeDefinitions":[{"name":"Phoneme","type":"STRING","legalLabels":["vowel","n","a"]}]},{"name":"Stress","type":"SEGMENT","attributeDefinitions":[{"name":"Stress","type":"STRING"}]},{"name":"Role","type":"SEGMENT","attributeDefinitions":[{"name":"Role","type":"STRING"},{"name":"Utterance"}]},{"name":"End","type":"ITEM","attributeDefinitions":[{"name":"End","type":"STRING","legalLabels":["ə","V","p"," a","n","a","S"]},{"name":"a->b","type":"STRING","legalLabels":["p","x->y","V","m","b","a\nb","\\","a"]}]},{"name":"Gloss","type":"SEGMENT","attributeDefinitions":[{"name":"Gloss","type":"STRING","labelGroups":[{"name":"a","values":["n","E","m"]},{"name":"cons","values":["\u007f"]},{"name":"ə","values":["a","n"]}]},{"name":"Word"}]}],"linkDefinitions":[{"type":"MANY_TO_MANY","superlevelName":"Role","sublevelName":"Stress"},{"type":"MANY_TO_MANY","superlevelName":"End","sublevelName":"Phoneme"},{"type":"MANY_TO_MANY","superlevelName":"Phoneme","sublevelName":"Gloss"},{"type":"MANY_TO_MANY","superlevelName":"Gloss","sublevelName":"Stress"}]}"#,
    r#"the name Syllable stands twice <- {"name":"t","levelDefinitions":[{"name":"Word","type":"ITEM","attributeDefinitions":[{"name":"Word","type":"STRING","legalLabels":["b","V","é","a|b","a"],"labelGroups":[{"name":"V","values":["S","m","S"]}]}]},{"name":"Syllable","type":"ITEM","attributeDefinitions":[{"name":"Syllable","type":"STRING","legalLabels":[],"labelGroups":[{"name":"vowel","values":[]}]}]},{"name":"Phoneme","type":"ITEM","attributeDefinitions":[{"name":"Phoneme","type":"STRING"}]},{"name":"Phonetic","type":"SEGMENT","attributeDefinitions":[{"name":"Phonetic","type":"STRING","labelGroups":[{"name":"ə","values":["a","S","^a"]},{"name":"a","values":[]},{"name":"cons","values":["m","w","w"]}]}]},{"name":"Gesture","type":"SEGMENT","attributeDefinitions":[{"name":"Gesture","type":"STRING","labelGroups":[{"name":"a","values":["b","E","w"]},{"name":"x y","values":["w","t","w"]},{"name":"vowel","values":"m"}]}]},{"name":"Syllable","type":"EVENT","attributeDefinitions":[{"name":"Tone","type":"STRING","legalLabels":["t","\\","V","a"],"labelGroups":[{"name":"stop","values":["V","w"]}]}]}],"linkDefinitions":[{"type":"ONE_TO_MANY","superlevelName":"Word","sublevelName":"Syllable"},{"type":"ONE_TO_MANY","superlevelName":"Syllable","sublevelName":"Phoneme"},{"type":"ONE_TO_MANY","superlevelName":"Word","sublevelName":"Tone"},{"type":"MANY_TO_MANY","superlevelName":"Syllable","sublevelName":"Gesture"},{"type":"ONE_TO_MANY","superlevelName":"Gesture","sublevelName":"Phonetic"}]}"#,
];

/// The same of the member `annot`.
static ANNOTATIONS: [&str; 31] = [
    r#"ok <- {"annotates":"b1.wav","sampleRate":20000,"levels":[{"name":"Phonetic","type":"SEGMENT","items":[{"id":1,"sampleStart":3749,"sampleDur":1389,"labels":[{"name":"Phonetic","value":"V"}]}]}],"links":[]}"#,
    r#"ok <- {"sampleRate":1}"#,
    r#"ok <- {"name":null,"annotates":null,"sampleRate":9223372036854775807,"levels":null,"links":null}"#,
    "$.annot: object wanted <- []",
    r#"$.annot.name: text wanted <- {"name":["b"],"annotates":"","sampleRate":16000,"levels":[]}"#,
    r#"$.annot.annotates: text wanted <- {"annotates":1000.0,"sampleRate":"x"}"#,
    r#"$.annot.sampleRate: whole number wanted <- {"levels":[5],"links":5}"#,
    r#"$.annot.sampleRate: whole number wanted <- {"annotates":"é.wav","sampleRate":[null],"levels":[]}"#,
    r#"$.annot.sampleRate: whole number wanted <- {"sampleRate":9223372036854775808}"#,
    r#"$.annot.levels: list wanted <- {"sampleRate":1,"levels":"x","links":5}"#,
    r#"$.annot.levels[0]: object wanted <- {"name":"b","sampleRate":20000,"levels":[null]}"#,
    r#"$.annot.levels[0].name: text wanted <- {"sampleRate":1,"levels":[{"type":5,"items":5}]}"#,
    r#"$.annot.levels[0].type: kind wanted <- {"sampleRate":1,"levels":[{"name":"L","items":5}]}"#,
    r#"$.annot.levels[0].type: kind wanted <- {"sampleRate":1,"levels":[{"name":"L","type":"item"}]}"#,
    r#"$.annot.levels[0].items: list wanted <- {"sampleRate":1,"levels":[{"name":"L","type":"ITEM","items":5}],"links":5}"#,
    r#"$.annot.levels[1].items[0]: object wanted <- {"sampleRate":1,"levels":[{"name":"L","type":"ITEM"},{"name":"M","type":"ITEM","items":[9]}]}"#,
    r#"$.annot.levels[0].items[0].id: whole number wanted <- {"sampleRate":1,"levels":[{"name":"L","type":"ITEM","items":[{"labels":5}]}]}"#,
    r#"ok <- {"sampleRate":1,"levels":[{"name":"L","type":"ITEM","items":[{"id":4294967295}]}]}"#,
    r#"$.annot.levels[0].items[0].id: whole number wanted <- {"sampleRate":1,"levels":[{"name":"L","type":"ITEM","items":[{"id":4294967296}]}]}"#,
    r#"$.annot.levels[0].items[0].labels: list wanted <- {"sampleRate":1,"levels":[{"name":"L","type":"ITEM","items":[{"id":1,"labels":true}]}]}"#,
    r#"$.annot.levels[0].items[0].labels[1]: object wanted <- {"sampleRate":1,"levels":[{"name":"L","type":"SEGMENT","items":[{"id":1,"labels":[{"name":"L","value":"a"},7]}]}]}"#,
    r#"$.annot.levels[0].items[0].labels[0].value: text wanted <- {"sampleRate":1,"levels":[{"name":"L","type":"SEGMENT","items":[{"id":1,"labels":[{"name":"L"}]}]}]}"#,
    r#"$.annot.levels[0].items[0].labels[0].name: text wanted <- {"sampleRate":1,"levels":[{"name":"L","type":"SEGMENT","items":[{"id":1,"labels":[{"value":5}]}]}]}"#,
    r#"$.annot.levels[0].items[0].sampleStart: whole number wanted <- {"sampleRate":1,"levels":[{"name":"L","type":"SEGMENT","items":[{"id":1,"samplePoint":1}]}]}"#,
    r#"$.annot.levels[0].items[0].sampleDur: whole number wanted <- {"sampleRate":1,"levels":[{"name":"L","type":"SEGMENT","items":[{"id":1,"sampleStart":1,"sampleDur":-1}]}]}"#,
    r#"$.annot.levels[0].items[0].samplePoint: whole number wanted <- {"sampleRate":1,"levels":[{"name":"L","type":"EVENT","items":[{"id":1,"sampleStart":1,"sampleDur":1}]}]}"#,
    r#"ok <- {"sampleRate":1,"levels":[{"name":"L","type":"ITEM","items":[{"id":1,"sampleStart":"x","sampleDur":-1,"samplePoint":[]}]}]}"#,
    r#"$.annot.links: list wanted <- {"sampleRate":1,"links":{}}"#,
    r#"$.annot.links[1]: object wanted <- {"sampleRate":1,"links":[{"fromID":1,"toID":2},3]}"#,
    r#"$.annot.links[0].fromID: whole number wanted <- {"sampleRate":1,"links":[{"toID":1.0}]}"#,
    r#"$.annot.links[0].toID: whole number wanted <- {"sampleRate":1,"links":[{"fromID":1,"toID":4294967296}]}"#,
];

/// The most elements that a list has; what is counted, what reading a configuration answers that has so many zeros in the list,
/// and that configuration, with an `@` in their place.
static LIMITS: [(usize, &str); 8] = [
    (
        64,
        r#"Levels <- $.config.levelDefinitions[0]: object wanted <- {"name":"t","levelDefinitions":[@]}"#,
    ),
    (
        16,
        r#"Attributes <- $.config.levelDefinitions[0].attributeDefinitions[0]: object wanted <- {"name":"t","levelDefinitions":[{"name":"A","type":"ITEM","attributeDefinitions":[@]}]}"#,
    ),
    (
        4096,
        r#"Texts <- $.config.levelDefinitions[0].attributeDefinitions[0].legalLabels[0]: text wanted <- {"name":"t","levelDefinitions":[{"name":"A","type":"ITEM","attributeDefinitions":[{"name":"A","legalLabels":[@]}]}]}"#,
    ),
    (
        256,
        r#"Groups <- $.config.levelDefinitions[0].attributeDefinitions[0].labelGroups[0]: object wanted <- {"name":"t","levelDefinitions":[{"name":"A","type":"ITEM","attributeDefinitions":[{"name":"A","labelGroups":[@]}]}]}"#,
    ),
    (
        256,
        r#"Groups <- $.config.labelGroups[0]: object wanted <- {"name":"t","levelDefinitions":[],"labelGroups":[@]}"#,
    ),
    (
        4096,
        r#"Texts <- $.config.labelGroups[0].values[0]: text wanted <- {"name":"t","levelDefinitions":[],"labelGroups":[{"name":"g","values":[@]}]}"#,
    ),
    (
        64,
        r#"Links <- $.config.linkDefinitions[0]: object wanted <- {"name":"t","levelDefinitions":[],"linkDefinitions":[@]}"#,
    ),
    (
        1024,
        r#"Tracks <- $.config.ssffTrackDefinitions[0]: object wanted <- {"name":"t","ssffTrackDefinitions":[@],"levelDefinitions":5}"#,
    ),
];

/// The text of a copy of a fault.
fn fault_told(alloc: Global, fault: &ConfigFault) -> Result<String, AllocError> {
    match fault.copy(alloc) {
        Ok(copied) => format!(in alloc; "{copied}"),
        Err(_) => Err(AllocError),
    }
}

/// What reading a configuration answers.
fn config_told(alloc: Global, view: &View) -> Result<String, AllocError> {
    match read_config(alloc, view) {
        Ok(config) => {
            drop(config);
            String::from_str(alloc, "ok")
        }
        Err(fault) => {
            let told = fault_told(alloc, &fault);
            drop(fault);
            told
        }
    }
}

/// What reading an annotation answers.
fn annot_told(alloc: Global, view: &View) -> Result<String, AllocError> {
    match read_annot(alloc, view) {
        Ok(annot) => {
            drop(annot);
            String::from_str(alloc, "ok")
        }
        Err(fault) => format!(in alloc; "{fault}"),
    }
}

/// What reading the member of this name answers.
fn told_of(alloc: Global, value: &Value, name: &str) -> Result<String, Fail> {
    let view = View::root(alloc, value)?;
    let member = view.member(name, Wanted::Object)?;
    let told = if name == "config" {
        config_told(alloc, &member)
    } else {
        annot_told(alloc, &member)
    };
    Ok(told?)
}

/// What reading the member of this name in a line answers.
fn answer_of(alloc: Global, line: &str, name: &str) -> Result<String, Fail> {
    let value = Value::from_str(alloc, line)?;
    told_of(alloc, &value, name)
}

/// What reading a member of this name and this text answers.
fn answer(alloc: Global, name: &str, text: &str) -> Result<String, Fail> {
    let line = format!(in alloc; "{{\"{name}\":{text}}}")?;
    answer_of(alloc, line.as_str(), name)
}

/// Reads a member, and compares.
fn check(rt: &impl Abort, alloc: Global, name: &str, text: &str, wanted: &str) -> Result<(), Fail> {
    let told = answer(alloc, name, text)?;
    same_text(rt, text, told.as_str(), wanted);
    Ok(())
}

/// Reads the members of a table, and compares.
fn check_all(rt: &impl Abort, alloc: Global, name: &str, rows: &[&str]) -> Result<(), Fail> {
    for row in rows {
        let (wanted, text) = at_arrow(row);
        check(rt, alloc, name, text, wanted)?;
    }
    Ok(())
}

#[test]
fn configurations_are_read_or_refused(rt: HostRuntime) -> Result<(), Fail> {
    check_all(&rt, rt.alloc(), "config", &CONFIGS)
}

#[test]
fn annotations_are_read_or_refused(rt: HostRuntime) -> Result<(), Fail> {
    check_all(&rt, rt.alloc(), "annot", &ANNOTATIONS)
}

/// A configuration with a list of so many zeros.
fn zeros(alloc: Global, text: &str, count: usize) -> Result<String, AllocError> {
    let (before, after) = text.split_once('@').unwrap_or((text, ""));
    let mut filled = String::from_str(alloc, before)?;
    for place in 0..count {
        filled.push_str(if place == 0 { "0" } else { ",0" })?;
    }
    filled.push_str(after)?;
    Ok(filled)
}

/// Reads a configuration with a list of so many zeros, and compares.
fn check_zeros(
    rt: &impl Abort,
    alloc: Global,
    text: &str,
    count: usize,
    wanted: &str,
) -> Result<(), Fail> {
    let config = zeros(alloc, text, count)?;
    check(rt, alloc, "config", config.as_str(), wanted)
}

/// Reads a configuration with as many zeros as there may be, and with one more.
fn check_limit(rt: &impl Abort, alloc: Global, most: usize, row: &str) -> Result<(), Fail> {
    let (what, rest) = at_arrow(row);
    let (within, text) = at_arrow(rest);
    let past = format!(in alloc; "too many: {what}")?;
    check_zeros(rt, alloc, text, most.saturating_add(1), past.as_str())?;
    check_zeros(rt, alloc, text, most, within)
}

#[test]
fn lists_have_limits(rt: HostRuntime) -> Result<(), Fail> {
    for &(most, row) in &LIMITS {
        check_limit(&rt, rt.alloc(), most, row)?;
    }
    Ok(())
}
