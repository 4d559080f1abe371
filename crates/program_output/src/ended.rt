//! Why a run ends before its script does.
use script_lines::LineFault;

/// Why a run ends before its script does.
#[derive(Drop)]
pub enum Ended {
    /// A limit is passed.
    Limit,
    /// The line of this number is at fault.
    AtFault(u32, LineFault),
    /// The store has no room for the script's configuration.
    NoRoom,
    /// The script's configuration could not be written into the store.
    Disk,
    /// A write failed.
    Write,
    /// Memory ran out.
    Memory,
}

impl From<emu_names::Memory> for Ended {
    ghost use Rattle.std.specs.Prelude.{◌≡◌};
    ghost use Rattle.program_output.specs.declared.ended.Ended.TheVariants.{Memory as OutOfMemory};

    ghost from_gives = { λ _ e. e ≡ OutOfMemory };

    fn from(_error: emu_names::Memory) -> Ended {
        Ended::Memory
    }
}

impl From<emu_io::Failed> for Ended {
    ghost use Rattle.std.specs.Prelude.{◌≡◌};
    ghost use Rattle.program_output.specs.declared.ended.Ended.TheVariants.{Write as NotWritten};

    ghost from_gives = { λ _ e. e ≡ NotWritten };

    fn from(_error: emu_io::Failed) -> Ended {
        Ended::Write
    }
}
