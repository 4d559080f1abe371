//! Laws with nothing to run: additions in any order.
ghost use Rattle.work_script.specs.States.{AdditionsInAnyOrder};

/// Additions of bundles leave the same database in whatever order they come, where no order breaks a rule.
pub fn additions_in_any_order()
    ensures { AdditionsInAnyOrder }
{}
