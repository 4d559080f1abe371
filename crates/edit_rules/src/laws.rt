//! Laws with nothing to run: what acts keep, and what histories have in common.
ghost use Rattle.edit_rules.specs.Laws.{ActsKeepRules, AllOrNothing, ChangeOneBundle, EditsKeepRules, OrderDoesNotMatter, ReplayGoesOn, PrefixesAreLegal, StatesKeepRules};

/// A database that keeps the rules keeps them also behind an edit that breaks none.
pub fn edits_keep_rules()
    ensures { EditsKeepRules }
{}

/// A database that keeps the rules keeps them also behind an act that breaks none.
pub fn acts_keep_rules()
    ensures { ActsKeepRules }
{}

/// A list of edits that is accepted is its edits one by one; one that is refused names the first edit that
/// breaks a rule, behind edits that break none.
pub fn acts_are_whole()
    ensures { AllOrNothing }
{}

/// A list of edits of one bundle changes that bundle and nothing else.
pub fn acts_change_one_bundle()
    ensures { ChangeOneBundle }
{}

/// One more entry of a history changes the database as its act does.
pub fn replay_goes_on()
    ensures { ReplayGoesOn }
{}

/// Two edits of different bundles leave the same database in either order, where both orders break no rule.
pub fn order_does_not_matter()
    ensures { OrderDoesNotMatter }
{}

/// Each beginning of a legal history is legal.
pub fn prefixes_are_legal()
    ensures { PrefixesAreLegal }
{}

/// Under a valid configuration the database after each beginning of a legal history keeps the rules.
pub fn states_keep_rules()
    ensures { StatesKeepRules }
{}
