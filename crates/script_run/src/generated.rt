// The generated scripts of a number.
ghost use Rattle.std.specs.Prelude.{◌≡◌, ◌≤◌, All, IfOk, length, map};
ghost use Rattle.script_workers.specs.Workers.{items_of};
ghost use Rattle.generated_runs.specs.OneAfterAnother.{scripts_of};

use run_words::Options;
use script_gen::commands;
use set_model::Command;
use std::alloc::{AllocError, Global};

/// The numbers of the run of generated scripts.
pub const WORK: Options = Options {
    objects: 16_384,
    slots: 1024,
    base: 0,
};

// How many scripts a number has.
const SEATS: u32 = 4;

/// The four scripts of a number, for the seats 0 to 3. The error is want of memory.
pub fn four_scripts(alloc: Global, number: u64) -> Result<Vec<Vec<Command>>, AllocError>
    ensures four { IfOk result (λ scripts. map items_of scripts.items ≡ scripts_of number) }
    ensures short { IfOk result (λ scripts. All (λ script. length script.items ≤ 65536) scripts.items) }
{
    let mut scripts = Vec::with_capacity(alloc, SEATS as usize)?;
    for seat in 0..SEATS {
        scripts.push_reserved(commands(alloc, number, seat)?);
    }
    Ok(scripts)
}
