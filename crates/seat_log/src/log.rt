// The notes of a log.
use crate::version::Note;
use std::alloc::Global;
use std::collections::VecDeque;
use std::marker::Model;

/// A seat's private notes of its own log, which is a ring of slots: the live versions from the oldest
/// on, the one that is being built, and what the log has come to. Clauses see it as these.
#[derive(Drop)]
pub struct Log {
    pub(crate) seat: u32,
    pub(crate) slots: u32,
    pub(crate) live: VecDeque<Note, Global>,
    pub(crate) built: Option<Note>,
    pub(crate) held: u32,
    pub(crate) freed: u64,
    pub(crate) back: u64,
    pub(crate) commits: u64,
    pub(crate) aborts: u64,
    pub(crate) rests: u64,
}

impl Model for Log {
    ghost use Rattle.std.specs.Prelude.{◌≤◌};
    ghost use Rattle.std.specs.VecDeque.{deque_capacity};
    ghost use Rattle.seat_log.specs.Notes.{Noted, IsLog};

    ghost Value = { Noted };

    ghost view = { λ l. record {
      seat = l.seat;
      slots = l.slots;
      live = l.live.items;
      built = l.built;
      held = l.held;
      freed = l.freed;
      back = l.back;
      commits = l.commits;
      aborts = l.aborts;
      rests = l.rests;
    } };

    ghost invariant = { λ l. (l.slots ≤ deque_capacity l.live)
        × IsLog (record {
          seat = l.seat;
          slots = l.slots;
          live = l.live.items;
          built = l.built;
          held = l.held;
          freed = l.freed;
          back = l.back;
          commits = l.commits;
          aborts = l.aborts;
          rests = l.rests;
        }) };
}
