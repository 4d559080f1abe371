//! A law with nothing to run: what an addition makes of a configuration.
ghost use Rattle.config_laws.specs.Laws.{AttributesMakeConfigs, DefinitionsMakeConfigs, LevelsMakeConfigs};

/// A configuration to which a level, an attribute or a link definition is added is a configuration whole:
/// its names are names, each of its lists is within its limit, and its parts keep the rules together.
pub fn additions_make_configurations()
    ensures levels { LevelsMakeConfigs }
    ensures attributes { AttributesMakeConfigs }
    ensures definitions { DefinitionsMakeConfigs }
{}
