// A walk over the keys of one set, for C.
ghost use Rattle.std.specs.Prelude.{◌≡◌, ◌<◌, ◌≤◌, IfOk};
ghost use Rattle.mvrlu_c.specs.SetsWalk.{IsNoWalk, TellsWalk, Walks, key_or_none, walk_told};
ghost use Rattle.c_answers.specs.declared.status.Status.TheVariants.{BadSet};

use crate::handle::on_open;
use crate::sets_handle::MvrluSets;
use c_answers::Status;
use set_model::Name;
use set_seats::{KeyValue, SetSeat, Walked};
use std::alloc::{AllocError, Global};

/// What a walk over a set came to.
#[repr(C)]
#[derive(Clone, Copy)]
pub struct MvrluWalk {
    /// The time of the state of which all its entries are.
    pub time: u64,
    /// How many entries were written.
    pub count: u64,
    /// The least key for which there was no room.
    pub next: u32,
    /// 1 where there is such a key, else 0.
    pub more: u32,
}

// The key, or 0, and whether there is one.
fn told_key(more: Option<u32>) -> (u32, u32)
    ensures { result ≡ key_or_none more }
{
    match more {
        Some(key) => (key, 1),
        None => (0, 0),
    }
}

// What C is told of a walk.
fn told(walked: Walked) -> MvrluWalk
    ensures { result ≡ walk_told walked }
{
    let (next, more) = told_key(walked.more);
    MvrluWalk {
        time: walked.time,
        count: walked.count as u64,
        next,
        more,
    }
}

// Memory of its own for entries, which holds the same.
fn copy_of(alloc: Global, entries: &[KeyValue]) -> Result<Vec<KeyValue>, AllocError>
    ensures { IfOk result (λ room. room.items ≡ entries.now) }
{
    let mut room = Vec::with_capacity(alloc, entries.len())?;
    room.extend_from_slice(entries)?;
    Ok(room)
}

/// Writes the entries of the set whose key is not below `from`, in rising order, as many as there are or as there is room
/// for; the rest of the room is left as it was. All of them are of one state. Memory is taken for as many entries as
/// there is room for, and given back before the call returns.
#[unsafe(no_mangle)]
pub extern "C" fn mvrlu_raw_sets_walk(
    alloc: Global,
    sets: &mut MvrluSets,
    set: u32,
    from: u32,
    entries: &mut [KeyValue],
    walk: &mut MvrluWalk,
) -> i32
    ensures bad { 30 ≤ set → IsNoWalk BadSet sets.old sets.new (entries.old, walk.old) (entries.new, walk.new) result }
    ensures tells { set < 30 → TellsWalk set from sets.old sets.new (entries.old, walk.old) (entries.new, walk.new) result }
{
    let Some(name) = Name::new(set) else {
        return Status::BadSet.code();
    };
    let Ok(room) = copy_of(alloc, entries) else {
        return Status::NoMemory.code();
    };
    let answer = on_open(
        alloc,
        sets,
        (name, from, room),
        |seat: SetSeat, given: (Name, u32, Vec<KeyValue>)|
            ensures { Walks given.0 given.1 given.2.items result.1.1.items seat result.0 result.1.0 }
        {
            let (name, from, mut room) = given;
            let (seat, walked) = seat.walk(name, from, &mut room);
            (seat, (walked, room))
        },
    );
    match answer {
        None => Status::Closed.code(),
        Some((walked, room)) => {
            entries.copy_from_slice(&room);
            *walk = told(walked);
            Status::Done.code()
        }
    }
}
