//! A law with nothing to run: when `inverse` may be asked.
ghost use Rattle.edit_undo.specs.Before.{PassingActsAreBefore};

/// An act that breaks no rule of a database, whose edits are all of one bundle, breaks none over that bundle.
pub fn passing_acts_are_before()
    ensures { PassingActsAreBefore }
{}
