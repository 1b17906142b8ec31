// The counts of a seat of objects, for C.
ghost use Rattle.std.specs.Prelude.{◌≡◌, false};
ghost use Rattle.object_seats.specs.Calls as calls;
ghost use Rattle.c_answers.specs.Statuses.{done};
ghost use Rattle.mvrlu_c.specs.Told.{Tells};
ghost use Rattle.c_answers.specs.Counted.{counts_in};

use crate::handle::on_open;
use crate::object_handle::MvrluSeat;
use c_answers::{MvrluCounts, tell_counts};
use object_seats::ObjectSeat;
use std::alloc::Global;

/// Tells the counts of the seat's log.
#[unsafe(no_mangle)]
pub extern "C" fn mvrlu_raw_count(
    alloc: Global,
    seat: &mut MvrluSeat,
    counts: &mut MvrluCounts,
) -> i32
    ensures tells { Tells done seat.old seat.new (λ p q a. calls.Counts p q a × (counts.new ≡ counts_in counts.old a)) result }
    ensures closed { seat.old.is_open ≡ false → counts.new ≡ counts.old }
{
    let answer = on_open(
        alloc,
        seat,
        (),
        |seat: ObjectSeat, _none: ()|
            ensures { calls.Counts seat.position result.0.position result.1 }
        { seat.count() },
    );
    tell_counts(answer, counts).code()
}
