//! Whether a bundle fits one configuration where it fits another.
ghost use Rattle.std.specs.Prelude.{◌≡◌, true, map};
ghost use Rattle.bundle_state.specs.Built.{form_asked};
ghost use Rattle.version_steps.specs.Inner.Drafts.{AskAlike};

use crate::given::{is_none, is_same_kind};
use db_config::{Config, LevelDef, LinkDef};
use emu_names::LinkKind;

/// Whether two levels have the same type and as many attributes.
fn is_same_form(old: &LevelDef, new: &LevelDef) -> bool
    ensures { result ≡ true → form_asked new.now ≡ form_asked old.now }
{
    is_same_kind(new.kind, old.kind) && old.attributes.len() == new.attributes.len()
}

/// Whether these levels have the same types and as many attributes, each beside that of its place.
fn have_same_forms(olds: &[LevelDef], news: &[LevelDef]) -> bool
    ensures { result ≡ true → map form_asked news.now ≡ map form_asked olds.now }
{
    match olds {
        [] => is_none(news),
        [old, olds_after @ ..] => match news {
            [] => false,
            [new, news_after @ ..] => {
                is_same_form(old, new) && have_same_forms(olds_after, news_after)
            }
        },
    }
}

/// Whether two types of links are the same.
fn is_same_link_kind(a: LinkKind, b: LinkKind) -> bool
    ensures { result ≡ true → a ≡ b }
{
    match (a, b) {
        (LinkKind::OneToOne, LinkKind::OneToOne) => true,
        (LinkKind::OneToMany, LinkKind::OneToMany) => true,
        (LinkKind::ManyToMany, LinkKind::ManyToMany) => true,
        _ => false,
    }
}

/// Whether two link definitions are the same.
fn is_same_link(old: &LinkDef, new: &LinkDef) -> bool
    ensures { result ≡ true → new.now ≡ old.now }
{
    is_same_link_kind(new.kind, old.kind) && new.upper == old.upper && new.lower == old.lower
}

/// Whether these are the same link definitions, in the same order.
fn are_same_links(olds: &[LinkDef], news: &[LinkDef]) -> bool
    ensures { result ≡ true → news.now ≡ olds.now }
{
    match olds {
        [] => is_none(news),
        [old, olds_after @ ..] => match news {
            [] => false,
            [new, news_after @ ..] => is_same_link(old, new)
                && are_same_links(olds_after, news_after),
        },
    }
}

/// Whether two configurations ask the same of the bundles that fit them.
pub(crate) fn are_alike(old: &Config, new: &Config) -> bool
    ensures { result ≡ true → AskAlike old.now new.now }
{
    have_same_forms(old.parts().levels.as_slice(), new.parts().levels.as_slice())
        && are_same_links(old.parts().links.as_slice(), new.parts().links.as_slice())
}
