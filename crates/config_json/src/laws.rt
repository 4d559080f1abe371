//! A law with nothing to run: what printing and reading come to.
ghost use Rattle.std.specs.Prelude.{◌≡◌, ℕ, List, Ok, true};
ghost use Rattle.json_view.specs.Seen.{seen};
ghost use Rattle.db_config.specs.declared.parts.ConfigParts.{ConfigParts};
ghost use Rattle.db_config.specs.Valid.{is_config};
ghost use Rattle.config_json.specs.Read.{config_of};
ghost use Rattle.config_json.specs.Texts.{config_data};

/// A law: the value that a configuration is printed as is read as that configuration, at each path.
pub fn printed_is_read()
    ensures { (config : ConfigParts) (path : List ℕ) → is_config config ≡ true
        → config_of (seen (config_data config) path) ≡ Ok config }
{}
