// Closing the seats of a domain.
ghost use Rattle.std.specs.Prelude.{◌≡◌, true, false};
ghost use Rattle.crossbeam_utils.specs.Padded.{padded_value};
ghost use Rattle.grow_seats.specs.Commands.{IsTableOpening, IsTableCommit};
ghost use Rattle.object_seats.specs.Rules.{IsAnyState, IsAnyCommit};
ghost use Rattle.set_blocks.specs.BlockRules.{IsBlockCommit};
ghost use Rattle.set_model.specs.Lawful.{IsOpening};
ghost use Rattle.shared_domain.specs.Met.{Closes, gathering_of};
ghost use Rattle.c_answers.specs.Statuses.{code_of};
ghost use Rattle.mvrlu_c.specs.Closing.{TellsClose};
ghost use Rattle.c_answers.specs.declared.status.Status.TheVariants.{Closed as IsClosed};

use crate::handle::close_by;
use crate::object_handle::MvrluSeat;
use crate::sets_handle::MvrluSets;
use crate::table_handle::MvrluTable;
use c_answers::tell_closed;
use grow_seats::GrowSeat;
use object_seats::ObjectSeat;
use set_seats::SetSeat;
use std::alloc::Global;

/// Closes a handle. What its section holds is given up first. Where it was the last one of its domain, all
/// seats of the domain meet, and the time of the last entry is written into `last`.
#[unsafe(no_mangle)]
pub extern "C" fn mvrlu_raw_close(alloc: Global, handle: &mut MvrluSeat, last: &mut u64) -> i32
    ensures closed { handle.old.is_open ≡ false → (result ≡ code_of IsClosed) × (handle.new ≡ handle.old) × (last.new ≡ last.old) }
    ensures open { handle.old.is_open ≡ true → (handle.new.is_open ≡ false)
        × TellsClose IsAnyState IsAnyCommit (gathering_of (padded_value handle.old.state).share) last.old last.new result }
{
    let answer = close_by(
        alloc,
        handle,
        |seat: ObjectSeat|
            ensures { Closes IsAnyState IsAnyCommit (gathering_of seat.share) result }
        { seat.close() },
    );
    tell_closed(answer, last).code()
}

/// Closes a handle of the sets, as `mvrlu_raw_close` closes one of objects.
#[unsafe(no_mangle)]
pub extern "C" fn mvrlu_raw_sets_close(alloc: Global, handle: &mut MvrluSets, last: &mut u64) -> i32
    ensures closed { handle.old.is_open ≡ false → (result ≡ code_of IsClosed) × (handle.new ≡ handle.old) × (last.new ≡ last.old) }
    ensures open { handle.old.is_open ≡ true → (handle.new.is_open ≡ false)
        × TellsClose IsOpening IsBlockCommit (gathering_of (padded_value handle.old.state).share) last.old last.new result }
{
    let answer = close_by(
        alloc,
        handle,
        |seat: SetSeat|
            ensures { Closes IsOpening IsBlockCommit (gathering_of seat.share) result }
        { seat.close() },
    );
    tell_closed(answer, last).code()
}

/// Closes a handle of a growing set, as `mvrlu_raw_close` closes one of objects.
#[unsafe(no_mangle)]
pub extern "C" fn mvrlu_raw_table_close(
    alloc: Global,
    handle: &mut MvrluTable,
    last: &mut u64,
) -> i32
    ensures closed { handle.old.is_open ≡ false → (result ≡ code_of IsClosed) × (handle.new ≡ handle.old) × (last.new ≡ last.old) }
    ensures open { handle.old.is_open ≡ true → (handle.new.is_open ≡ false)
        × TellsClose IsTableOpening IsTableCommit (gathering_of (padded_value handle.old.state).share) last.old last.new result }
{
    let answer = close_by(
        alloc,
        handle,
        |seat: GrowSeat|
            ensures { Closes IsTableOpening IsTableCommit (gathering_of seat.share) result }
        { seat.close() },
    );
    tell_closed(answer, last).code()
}
