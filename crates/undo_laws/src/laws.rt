//! A law with nothing to run: what taking back comes to.
ghost use Rattle.undo_laws.specs.Laws.{ActsAreTakenBack};

/// The inverse of an act that breaks no rule leads from the database behind it to the one before it.
pub fn acts_are_taken_back()
    ensures { ActsAreTakenBack }
{}
