//! Which calls of a disk in memory are to fail.
ghost use Rattle.std.specs.Prelude.{◌≡◌, ◌+◌, ◌-◌, ◌^◌, min, IsTrue};

// Which calls are to fail: those at the listed places, and all once it has stopped.
#[derive(Drop)]
pub(crate) struct Plan {
    pub(crate) failing: Vec<u64>,
    pub(crate) stop: Option<u64>,
    pub(crate) made: u64,
}

impl Plan {
    ghost use Rattle.emu_disk.specs.Inner.Plan.{IsDue};

    // Counts a call, and says whether it is not to fail.
    pub(crate) fn turn(&mut self) -> bool
        ensures due { IsTrue result → IsDue self.old }
        ensures all { IsDue self.old → IsTrue result }
        ensures failing { self.new.failing.items ≡ self.old.failing.items }
        ensures stop { self.new.stop ≡ self.old.stop }
        ensures made { self.new.made ≡ min (self.old.made + 1) (2 ^ 64 - 1) }
    {
        let place = self.made;
        self.made = place.saturating_add(1);
        let stopped = match self.stop {
            Some(stop) => stop <= place,
            None => false,
        };
        !stopped && !self.failing.contains(&place)
    }
}
