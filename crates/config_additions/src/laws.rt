//! Laws with nothing to run: what additions come to.
ghost use Rattle.std.specs.Prelude.{ℕ, List};
ghost use Rattle.emu_names.specs.declared.kinds.LinkKind.{LinkKind};
ghost use Rattle.db_config.specs.declared.attributes.AttributeDef.{AttributeDef};
ghost use Rattle.db_config.specs.declared.parts.LevelDef.{LevelDef};
ghost use Rattle.config_additions.specs.Added.{level_added, attribute_added, definition_added};
ghost use Rattle.config_additions.specs.Laws.{AdditionsExtend, AdditionsKeepRules};

/// A configuration that keeps the rules keeps them also where a level, an attribute or a link definition is
/// added to it.
pub fn additions_keep_rules()
    ensures levels { (def : LevelDef) → AdditionsKeepRules (level_added def) }
    ensures attributes { (level : List ℕ) → (attribute : AttributeDef)
        → AdditionsKeepRules (attribute_added level attribute) }
    ensures definitions { (kind : LinkKind) → (upper : List ℕ) → (lower : List ℕ)
        → AdditionsKeepRules (definition_added kind upper lower) }
{}

/// What is added stands behind all that was there, which stays as it was.
pub fn additions_extend()
    ensures levels { (def : LevelDef) → AdditionsExtend (level_added def) }
    ensures attributes { (level : List ℕ) → (attribute : AttributeDef)
        → AdditionsExtend (attribute_added level attribute) }
    ensures definitions { (kind : LinkKind) → (upper : List ℕ) → (lower : List ℕ)
        → AdditionsExtend (definition_added kind upper lower) }
{}
