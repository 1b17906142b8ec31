// Why files have no scripts.
ghost use Rattle.std.specs.Prelude.{◌≡◌};
ghost use Rattle.script_files.specs.declared.stop.Stop.TheVariants.{Memory as WantOfMemory};

use block_parser::BlockKind;
use script_parser::FaultKind;
use std::alloc::{AllocError, AllocFailed};
use step_replay::PlanKind;

/// The most bytes of a script.
pub const MOST_BYTES: usize = 1_048_576;

/// Why the reading of files stops at one of them. Files count from 0, lines from 1.
#[derive(Drop)]
pub enum Stop {
    /// The script has a first faulty line, or one command too many.
    Script {
        script: u32,
        line: u32,
        kind: FaultKind,
    },
    /// The script of blocks has a first faulty line, or one command too many.
    BlockScript {
        script: u32,
        line: u32,
        kind: BlockKind,
    },
    /// The plan has a first faulty line, or one step too many.
    Plan {
        script: u32,
        line: u32,
        kind: PlanKind,
    },
    /// The script has more than `MOST_BYTES` bytes.
    Bytes {
        script: u32,
    },
    /// Opening or reading the file failed.
    Read {
        script: u32,
    },
    /// Want of memory.
    Memory,
}

impl From<AllocError> for Stop {
    ghost from_gives = { λ _ stop. stop ≡ WantOfMemory };

    fn from(_error: AllocError) -> Stop {
        Stop::Memory
    }
}

impl<T: Drop> From<AllocFailed<T>> for Stop {
    ghost from_gives = { λ _ stop. stop ≡ WantOfMemory };

    fn from(_failed: AllocFailed<T>) -> Stop {
        Stop::Memory
    }
}
