//! The faults of names that are not there.
ghost use Rattle.bundle_edits.specs.Inner.Given.{IsRule};
ghost use Rattle.emu_names.specs.declared.rules.Broken.TheVariants as rules;

use emu_names::{Broken, Fault, Text};
use std::alloc::Global;

/// The fault of a name that no level has.
pub(crate) fn no_level(alloc: Global, name: &Text) -> Fault
    ensures { IsRule (rules.NoLevel name.now) result }
{
    match name.copy(alloc) {
        Ok(own) => Fault::Broken(Broken::NoLevel(own)),
        Err(_memory) => Fault::Memory,
    }
}

/// The fault of a name that no attribute of the level has.
pub(crate) fn no_attribute(alloc: Global, name: &Text) -> Fault
    ensures { IsRule (rules.NoAttribute name.now) result }
{
    match name.copy(alloc) {
        Ok(own) => Fault::Broken(Broken::NoAttribute(own)),
        Err(_memory) => Fault::Memory,
    }
}
