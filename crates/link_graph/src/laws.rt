//! Laws with nothing to run: links that are added by `Links::add`, each definition with the kind
//! that it has, keep that kind, also where some of them are taken out.
ghost use Rattle.std.specs.Prelude.{◌≡◌, ◌≢◌, ◌++◌, ◌∷◌, ◌<◌, ℕ, Bool, false, insert, length, List, [], None};
ghost use Rattle.std.specs.List.{filter, list_any};
ghost use Rattle.emu_names.specs.declared.kinds.ItemId.{ItemId};
ghost use Rattle.emu_names.specs.declared.kinds.LinkKind.{LinkKind};
ghost use Rattle.emu_names.specs.declared.limits.TheConstants.{BUNDLE_LINKS};
ghost use Rattle.link_graph.specs.declared.link.Link.{Link};
ghost use Rattle.link_graph.specs.Kind.{KeepKind};
ghost use Rattle.link_graph.specs.Link.{add_fault, joins, ArePairsApart};

/// No links keep every kind.
pub fn no_links_keep_kinds()
    ensures { (kind : LinkKind) (definition : ℕ) → KeepKind kind definition [] }
{}

/// A link that breaks no rule of its definition's kind keeps that kind, and leaves the links of
/// other definitions as they were.
pub fn added_links_keep_kinds()
    ensures same { (kind : LinkKind) (link : Link) (links : List Link)
        → add_fault kind link.definition link.from link.to links ≡ None
        → KeepKind kind link.definition links → KeepKind kind link.definition (links ++ link ∷ []) }
    ensures others { (kind : LinkKind) (definition : ℕ) (link : Link) (links : List Link)
        → link.definition ≢ definition → KeepKind kind definition links
        → KeepKind kind definition (links ++ link ∷ []) }
{}

/// The same of a link that is put at a place.
pub fn inserted_links_keep_kinds()
    ensures same { (kind : LinkKind) (link : Link) (place : ℕ) (links : List Link)
        → add_fault kind link.definition link.from link.to links ≡ None
        → KeepKind kind link.definition links → KeepKind kind link.definition (insert links place link) }
    ensures others { (kind : LinkKind) (definition : ℕ) (link : Link) (place : ℕ) (links : List Link)
        → link.definition ≢ definition → KeepKind kind definition links
        → KeepKind kind definition (insert links place link) }
    ensures pairs { (link : Link) (place : ℕ) (links : List Link)
        → list_any (joins link.from link.to) links ≡ false
        → ArePairsApart links → ArePairsApart (insert links place link) }
{}

/// A link whose pair is free, where there is room for it, and with which the definition keeps its kind,
/// breaks no rule.
pub fn links_that_fit_are_added()
    ensures { (kind : LinkKind) (link : Link) (links : List Link)
        → list_any (joins link.from link.to) links ≡ false
        → length links < BUNDLE_LINKS
        → KeepKind kind link.definition (links ++ link ∷ [])
        → add_fault kind link.definition link.from link.to links ≡ None }
{}

/// Links of which some are taken out keep each kind that they kept.
pub fn kept_links_keep_kinds()
    ensures { (kind : LinkKind) (definition : ℕ) (test : Link → Bool) (links : List Link)
        → KeepKind kind definition links → KeepKind kind definition (filter test links) }
{}
