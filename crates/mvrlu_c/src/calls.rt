// The calls of C on one seat.
ghost use Rattle.std.specs.Prelude.{◌≡◌, false, Some};
ghost use Rattle.object_seats.specs.Calls as calls;
ghost use Rattle.c_answers.specs.ObjectsTold.{told, pair_told, object_told, next_told, refused_by, time_told, live_told};
ghost use Rattle.c_answers.specs.Statuses.{status_of_lock, status_of_room, status_of_vacant, status_of_commit, done};
ghost use Rattle.mvrlu_c.specs.Told.{Tells};

use crate::handle::on_open;
use crate::object_handle::MvrluSeat;
use c_answers::{
    tell_commit, tell_live, tell_lock, tell_made, tell_pair, tell_room, tell_vacant, tell_value,
};
use object_seats::ObjectSeat;
use std::alloc::Global;

/// Begins a section, whose snapshot is the whole history at one moment of this call.
#[unsafe(no_mangle)]
pub extern "C" fn mvrlu_raw_enter(alloc: Global, seat: &mut MvrluSeat) -> i32
    ensures tells { Tells done seat.old seat.new calls.Enters result }
{
    tell_made(on_open(alloc, seat, (), |seat: ObjectSeat, _none: ()| seat.enter())).code()
}

/// Reads the six words of an object in the section's state.
#[unsafe(no_mangle)]
pub extern "C" fn mvrlu_raw_read(
    alloc: Global,
    seat: &mut MvrluSeat,
    object: u32,
    words: &mut [u64; 6],
) -> i32
    ensures tells { Tells done seat.old seat.new (λ p q a. calls.Reads p object q a × (words.new ≡ told words.old a)) result }
    ensures closed { seat.old.is_open ≡ false → words.new ≡ words.old }
{
    let answer = on_open(
        alloc,
        seat,
        object,
        |seat: ObjectSeat, object: u32|
            ensures { calls.Reads seat.position object result.0.position result.1 }
        { seat.read(object) },
    );
    tell_value(answer, words).code()
}

/// Reads two words of an object: that of a place from 0 to 4, and the one behind it.
#[unsafe(no_mangle)]
pub extern "C" fn mvrlu_raw_read_pair(
    alloc: Global,
    seat: &mut MvrluSeat,
    object: u32,
    place: u32,
    words: &mut [u64; 2],
) -> i32
    ensures tells { Tells done seat.old seat.new (λ p q a. calls.ReadsPair p object place q a × (words.new ≡ pair_told words.old a)) result }
    ensures closed { seat.old.is_open ≡ false → words.new ≡ words.old }
{
    let answer = on_open(
        alloc,
        seat,
        (object, place),
        |seat: ObjectSeat, at: (u32, u32)|
            ensures { calls.ReadsPair seat.position at.0 at.1 result.0.position result.1 }
        { seat.read_pair(at.0, at.1) },
    );
    tell_pair(answer, words).code()
}

/// Tries to hold an object, so that it takes part in the commit. Where another seat holds it, `by` is that
/// seat's number, and where it was written after the section began, the time of that write.
#[unsafe(no_mangle)]
pub extern "C" fn mvrlu_raw_lock(
    alloc: Global,
    seat: &mut MvrluSeat,
    object: u32,
    by: &mut u64,
) -> i32
    ensures tells { Tells status_of_lock seat.old seat.new (λ p q a. calls.Locks p object q a × (by.new ≡ refused_by by.old (Some a))) result }
    ensures closed { seat.old.is_open ≡ false → by.new ≡ by.old }
{
    let answer = on_open(
        alloc,
        seat,
        object,
        |seat: ObjectSeat, object: u32|
            ensures { calls.Locks seat.position object result.0.position result.1 }
        { seat.lock(object) },
    );
    tell_lock(answer, by).code()
}

/// Finds the first vacant object from `hint` on, and tries to hold it. It is written into `object`, and the
/// number behind it into `hint`, where one was found, held or not.
#[unsafe(no_mangle)]
pub extern "C" fn mvrlu_raw_vacant(
    alloc: Global,
    seat: &mut MvrluSeat,
    hint: &mut u32,
    object: &mut u32,
) -> i32
    ensures tells { Tells status_of_vacant seat.old seat.new
        (λ p q a. calls.TakesVacant p hint.old q a × (hint.new ≡ next_told hint.old (Some a)) × (object.new ≡ object_told object.old (Some a))) result }
    ensures closed { seat.old.is_open ≡ false → (hint.new ≡ hint.old) × (object.new ≡ object.old) }
{
    let answer = on_open(
        alloc,
        seat,
        *hint,
        |seat: ObjectSeat, hint: u32|
            ensures { calls.TakesVacant seat.position hint result.0.position result.1 }
        { seat.vacant(hint) },
    );
    tell_vacant(answer, hint, object).code()
}

/// Gives a held object these words. Nobody else sees them before the commit.
#[unsafe(no_mangle)]
pub extern "C" fn mvrlu_raw_write(
    alloc: Global,
    seat: &mut MvrluSeat,
    object: u32,
    words: &[u64; 6],
) -> i32
    ensures tells { Tells done seat.old seat.new (λ p q a. calls.Writes p object words.now q a) result }
{
    tell_made(on_open(
        alloc,
        seat,
        (object, *words),
        |seat: ObjectSeat, new: (u32, [u64; 6])| seat.write(new.0, new.1),
    ))
    .code()
}

/// Tries to commit all that is held, as one entry of the history with this tag. `time` is that of the
/// entry, or of the one that came first.
#[unsafe(no_mangle)]
pub extern "C" fn mvrlu_raw_commit(
    alloc: Global,
    seat: &mut MvrluSeat,
    tag: &[u64; 4],
    time: &mut u64,
) -> i32
    ensures tells { Tells status_of_commit seat.old seat.new (λ p q a. calls.Commits p tag.now q a × (time.new ≡ time_told time.old (Some a))) result }
    ensures closed { seat.old.is_open ≡ false → time.new ≡ time.old }
{
    let answer = on_open(
        alloc,
        seat,
        *tag,
        |seat: ObjectSeat, tag: [u64; 4]|
            ensures { calls.Commits seat.position tag result.0.position result.1 }
        { seat.commit(tag) },
    );
    tell_commit(answer, time).code()
}

/// Gives up all that is held, and leaves the section.
#[unsafe(no_mangle)]
pub extern "C" fn mvrlu_raw_abort(alloc: Global, seat: &mut MvrluSeat) -> i32
    ensures tells { Tells done seat.old seat.new calls.Aborts result }
{
    tell_made(on_open(alloc, seat, (), |seat: ObjectSeat, _none: ()| seat.abort())).code()
}

/// Leaves a section that holds nothing.
#[unsafe(no_mangle)]
pub extern "C" fn mvrlu_raw_leave(alloc: Global, seat: &mut MvrluSeat) -> i32
    ensures tells { Tells done seat.old seat.new calls.Leaves result }
{
    tell_made(on_open(alloc, seat, (), |seat: ObjectSeat, _none: ()| seat.leave())).code()
}

/// Tells the printed time of the section's snapshot.
#[unsafe(no_mangle)]
pub extern "C" fn mvrlu_raw_time(alloc: Global, seat: &mut MvrluSeat, time: &mut u64) -> i32
    ensures tells { Tells done seat.old seat.new (λ p q a. calls.TellsTime p q a × (time.new ≡ told time.old a)) result }
    ensures closed { seat.old.is_open ≡ false → time.new ≡ time.old }
{
    let answer = on_open(
        alloc,
        seat,
        (),
        |seat: ObjectSeat, _none: ()|
            ensures { calls.TellsTime seat.position result.0.position result.1 }
        { seat.time() },
    );
    tell_value(answer, time).code()
}

/// Makes room in the seat's log for one section that locks as many objects as it may.
#[unsafe(no_mangle)]
pub extern "C" fn mvrlu_raw_prepare(alloc: Global, seat: &mut MvrluSeat) -> i32
    ensures tells { Tells status_of_room seat.old seat.new
        calls.MakesRoom result }
{
    let answer = on_open(
        alloc,
        seat,
        (),
        |seat: ObjectSeat, _none: ()|
            ensures { calls.MakesRoom seat.position result.0.position result.1 }
        { seat.prepare() },
    );
    tell_room(answer).code()
}

/// Reclaims what it can of the seat's log, and tells how many slots are live afterwards.
#[unsafe(no_mangle)]
pub extern "C" fn mvrlu_raw_tidy(alloc: Global, seat: &mut MvrluSeat, live: &mut u32) -> i32
    ensures tells { Tells done seat.old seat.new
        (λ p q a. calls.Tidies p q a × (live.new ≡ live_told live.old a)) result }
    ensures closed { seat.old.is_open ≡ false → live.new ≡ live.old }
{
    let answer = on_open(
        alloc,
        seat,
        (),
        |seat: ObjectSeat, _none: ()|
            ensures { calls.Tidies seat.position result.0.position result.1 }
        { seat.tidy() },
    );
    tell_live(answer, live).code()
}

/// Tells a time that no section of the domain is below, and none ever will be.
#[unsafe(no_mangle)]
pub extern "C" fn mvrlu_raw_grace(alloc: Global, seat: &mut MvrluSeat, time: &mut u64) -> i32
    ensures tells { Tells done seat.old seat.new (λ p q a. calls.TellsGrace p q a × (time.new ≡ told time.old a)) result }
    ensures closed { seat.old.is_open ≡ false → time.new ≡ time.old }
{
    let answer = on_open(
        alloc,
        seat,
        (),
        |seat: ObjectSeat, _none: ()|
            ensures { calls.TellsGrace seat.position result.0.position result.1 }
        { seat.grace() },
    );
    tell_value(answer, time).code()
}
