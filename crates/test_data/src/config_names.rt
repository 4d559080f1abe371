//! What the names and numbers of a configuration stand for.
ghost use Rattle.std.specs.Prelude.{◌≡◌, ◌<◌, length, IsSome};
ghost use Rattle.db_config.specs.Lookups.{attribute_at};

use crate::annot_printing::config_of;
use crate::compared::same;
use crate::levels::crosses_threads;
use db_config::Config;
use emu_names::{LevelKind, LinkKind};
use std::alloc::Global;
use std::process::Abort;
use std::test::Fail;

/// A database with nine levels, in which two ways lead from one level to another.
static NINE: &str =
    "{\"name\":\"ae\",\"ssffTrackDefinitions\":[{\"name\":\"dft\"},{\"name\":\"fm\"}],\"levelDefinitions\":[{\"name\":\"Utterance\",\"type\":\"ITEM\",\"attributeDefinitions\":[{\"name\":\"Utterance\"}]},{\"name\":\"Intonational\",\"type\":\"ITEM\",\"attributeDefinitions\":[{\"name\":\"Intonational\"}]},{\"name\":\"Intermediate\",\"type\":\"ITEM\",\"attributeDefinitions\":[{\"name\":\"Intermediate\"}]},{\"name\":\"Word\",\"type\":\"ITEM\",\"attributeDefinitions\":[{\"name\":\"Word\"}]},{\"name\":\"Syllable\",\"type\":\"ITEM\",\"attributeDefinitions\":[{\"name\":\"Syllable\"}]},{\"name\":\"Phoneme\",\"type\":\"ITEM\",\"attributeDefinitions\":[{\"name\":\"Phoneme\"}]},{\"name\":\"Foot\",\"type\":\"ITEM\",\"attributeDefinitions\":[{\"name\":\"Foot\"}]},{\"name\":\"Phonetic\",\"type\":\"SEGMENT\",\"attributeDefinitions\":[{\"name\":\"Phonetic\"}]},{\"name\":\"Tone\",\"type\":\"EVENT\",\"attributeDefinitions\":[{\"name\":\"Tone\"}]}],\"linkDefinitions\":[{\"type\":\"ONE_TO_MANY\",\"superlevelName\":\"Utterance\",\"sublevelName\":\"Intonational\"},{\"type\":\"ONE_TO_MANY\",\"superlevelName\":\"Intonational\",\"sublevelName\":\"Intermediate\"},{\"type\":\"ONE_TO_MANY\",\"superlevelName\":\"Intermediate\",\"sublevelName\":\"Word\"},{\"type\":\"ONE_TO_MANY\",\"superlevelName\":\"Word\",\"sublevelName\":\"Syllable\"},{\"type\":\"ONE_TO_MANY\",\"superlevelName\":\"Syllable\",\"sublevelName\":\"Phoneme\"},{\"type\":\"MANY_TO_MANY\",\"superlevelName\":\"Phoneme\",\"sublevelName\":\"Phonetic\"},{\"type\":\"ONE_TO_MANY\",\"superlevelName\":\"Syllable\",\"sublevelName\":\"Tone\"},{\"type\":\"ONE_TO_MANY\",\"superlevelName\":\"Intonational\",\"sublevelName\":\"Foot\"},{\"type\":\"ONE_TO_MANY\",\"superlevelName\":\"Foot\",\"sublevelName\":\"Syllable\"}],\"EMUwebAppConfig\":{\"zoom\":0.5}}";

/// The pairs of levels of which the first is above the second; of no other pair it is.
static ABOVE: [(&str, &str); 32] = [
    ("Utterance", "Intonational"),
    ("Utterance", "Intermediate"),
    ("Utterance", "Word"),
    ("Utterance", "Syllable"),
    ("Utterance", "Phoneme"),
    ("Utterance", "Foot"),
    ("Utterance", "Phonetic"),
    ("Utterance", "Tone"),
    ("Intonational", "Intermediate"),
    ("Intonational", "Word"),
    ("Intonational", "Syllable"),
    ("Intonational", "Phoneme"),
    ("Intonational", "Foot"),
    ("Intonational", "Phonetic"),
    ("Intonational", "Tone"),
    ("Intermediate", "Word"),
    ("Intermediate", "Syllable"),
    ("Intermediate", "Phoneme"),
    ("Intermediate", "Phonetic"),
    ("Intermediate", "Tone"),
    ("Word", "Syllable"),
    ("Word", "Phoneme"),
    ("Word", "Phonetic"),
    ("Word", "Tone"),
    ("Syllable", "Phoneme"),
    ("Syllable", "Phonetic"),
    ("Syllable", "Tone"),
    ("Phoneme", "Phonetic"),
    ("Foot", "Syllable"),
    ("Foot", "Phoneme"),
    ("Foot", "Phonetic"),
    ("Foot", "Tone"),
];

/// A database with legal labels and label groups.
static GROUPS: &str =
    "{\"name\":\"t\",\"levelDefinitions\":[{\"name\":\"Phonetic\",\"type\":\"SEGMENT\",\"attributeDefinitions\":[{\"name\":\"Phonetic\",\"type\":\"STRING\",\"legalLabels\":[\"V\",\"m\"],\"labelGroups\":[{\"name\":\"vowel\",\"values\":[\"V\",\"E\"]},{\"name\":\"vowel\",\"values\":[]}]},{\"name\":\"Tone\"}]},{\"name\":\"Word\",\"type\":\"ITEM\",\"attributeDefinitions\":[{\"name\":\"Text\"},{\"name\":\"Accent\"}]}],\"labelGroups\":[{\"name\":\"vowel\",\"values\":[\"a\"]},{\"name\":\"stop\",\"values\":[\"t\",\"k\"]}]}";

/// Whether the table says that the one level is above the other.
fn is_listed(upper: &str, lower: &str) -> bool {
    for &(above, below) in &ABOVE {
        if above == upper && below == lower {
            return true;
        }
    }
    false
}

/// The first two levels for which the table says something else.
fn first_odd(config: &Config) -> Option<(usize, usize)> {
    for upper in 0..config.level_count() {
        for lower in 0..config.level_count() {
            let above = config.parts().levels.get(upper).name.as_str();
            let below = config.parts().levels.get(lower).name.as_str();
            if config.is_above(upper, lower) != is_listed(above, below) {
                return Some((upper, lower));
            }
        }
    }
    None
}

/// Compares each two levels with the table.
fn expect_listed(rt: &impl Abort, config: &Config) {
    same(rt, first_odd(config), None);
}

/// Compares the levels of a copy of the configuration.
fn expect_listed_in_copy(rt: &impl Abort, alloc: Global, config: &Config) -> Result<(), Fail> {
    let copied = config.copy(alloc)?;
    expect_listed(rt, &copied);
    drop(copied);
    Ok(())
}

#[test]
fn levels_are_above_levels(rt: HostRuntime) -> Result<(), Fail> {
    let config = config_of(rt.alloc(), NINE)?;
    crosses_threads(&config);
    expect_listed(&rt, &config);
    let copied = expect_listed_in_copy(&rt, rt.alloc(), &config);
    drop(config);
    copied
}

/// A link definition by the numbers of its levels, its place, and its type where it is there.
static DEFINITIONS: [(usize, usize, Option<u32>); 5] = [
    (0, 1, Some(0)),
    (5, 7, Some(5)),
    (6, 4, Some(8)),
    (0, 2, None),
    (7, 5, None),
];

/// Compares the link definitions of the table.
fn expect_definitions(rt: &impl Abort, config: &Config) {
    for &(upper, lower, wanted) in &DEFINITIONS {
        let found = config.link_definition(upper, lower);
        same(rt, (upper, lower, found), (upper, lower, wanted));
    }
}

/// Compares the numbers of levels, link definitions and tracks, and some of them.
fn expect_counts(rt: &impl Abort, config: &Config) {
    let parts = config.parts();
    let counts = (config.level_count(), parts.links.len(), parts.tracks.len());
    assert_eq!(rt; counts, (9, 9, 2));
    let some = (
        config.link_kind(5),
        config.kind(8),
        parts.tracks.get(1).as_str(),
    );
    same(rt, some, (LinkKind::ManyToMany, LevelKind::Event, "fm"));
}

#[test]
fn definitions_are_found(rt: HostRuntime) -> Result<(), Fail> {
    let config = config_of(rt.alloc(), NINE)?;
    expect_definitions(&rt, &config);
    expect_counts(&rt, &config);
    drop(config);
    Ok(())
}

/// A name, the number of its level, and the place that it stands for.
type Named = (&'static str, Option<usize>, Option<(usize, usize)>);

static NAMES: [Named; 6] = [
    ("Phonetic", Some(0), Some((0, 0))),
    ("Tone", None, Some((0, 1))),
    ("Word", Some(1), Some((1, 0))),
    ("Text", None, Some((1, 0))),
    ("Accent", None, Some((1, 1))),
    ("word", None, None),
];

/// Compares what the names of the table stand for.
fn expect_names(rt: &impl Abort, config: &Config) {
    for &(name, level, place) in &NAMES {
        let found = config.name_place(name).map(|p| (p.level, p.attribute));
        same(
            rt,
            (name, config.level_named(name), found),
            (name, level, place),
        );
    }
}

/// The name of an attribute, a label, and whether edits may set it there.
static LABELS: [(&str, &str, bool); 5] = [
    ("Phonetic", "V", true),
    ("Phonetic", "E", false),
    ("Phonetic", "v", false),
    ("Phonetic", "", true),
    ("Accent", "E", true),
];

/// Compares which labels are legal.
fn expect_legal(rt: &impl Abort, config: &Config) {
    for &(name, label, legal) in &LABELS {
        let found = match config.name_place(name) {
            Some(place) => Some(config.is_legal(place, label)),
            None => None,
        };
        same(rt, (name, label, found), (name, label, Some(legal)));
    }
}

#[test]
fn names_stand_for_places(rt: HostRuntime) -> Result<(), Fail> {
    let config = config_of(rt.alloc(), GROUPS)?;
    expect_names(&rt, &config);
    expect_legal(&rt, &config);
    drop(config);
    Ok(())
}
