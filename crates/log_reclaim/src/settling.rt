// Finding out of each version without a time of death why it has none, with a write-back or without.
ghost use Rattle.std.specs.Prelude.{◌≡◌, ℕ, ◌+◌, ◌*◌, ◌<◌, ◌≤◌, List, length, true, Option, IfSome};
ghost use Rattle.mv_history.specs.declared.Step.{Step};
ghost use Rattle.seat_log.specs.mv_core.EnterSteps.{MayLoadLow};
ghost use Rattle.seat_log.specs.mv_core.Passes.{view, IsOf, IsSame, config_of};
ghost use Rattle.seat_log.specs.mv_core.ReclaimSteps.{FoundEmpty};
ghost use Rattle.seat_log.specs.commit_clock.Hears.{Hears};
ghost use Rattle.seat_log.specs.reader_marks.Scans.{IsKnown};
ghost use Rattle.seat_log.specs.declared.version.Note.{Note};
ghost use Rattle.seat_log.specs.Notes.{IsNoteAt};
ghost use Rattle.seat_log.specs.Stands.{Stands};
ghost use Rattle.log_reclaim.specs.Sweeps.{found_at, found_set, IsTableOf, Settles, SettlesOne};
ghost use Rattle.log_reclaim.specs.Backs.{IsWriting};
ghost use Rattle.log_reclaim.specs.Tries.{MaySettle, IsUntimed, StoresAll, TriesOne, LoadsSuper};

use crate::writing_back::{
    BackEnd, NoBack, StartedWriteBack, back_word, finish_clock, start_clock,
};
use mv_history::Protocol;
use mv_layout::WIDTH;
use seat_log::mv_core::{Pass, Shared, Steps};
use seat_log::reader_marks::Watermark;
use seat_log::{Log, live, note, retire};
use std::sync::ledger::Ledger;

// The greatest number of slots of a log.
const SLOTS_MAX: usize = 4096;

/// Of which other seat each write-back of a round found a version in HEAD, by the place of the version
/// in the log, whose oldest position is `base`: one byte each, 0 where none was found, else one more
/// than the seat's number.
///
/// It lies on the stack, since the holder is known only at a tidy's end, and no call takes memory.
#[derive(Drop)]
pub(crate) struct HeadHolders {
    base: u64,
    seats: [u8; SLOTS_MAX],
}

impl HeadHolders {
    /// Nothing was found yet, of a log with this oldest position.
    pub(crate) fn new(base: u64) -> HeadHolders
        ensures base { result.base ≡ base }
        ensures wide { length result.seats ≡ 4096 }
    {
        HeadHolders {
            base,
            seats: [0; SLOTS_MAX],
        }
    }

    /// The seat whose version the write-back of this position found in HEAD.
    pub(crate) fn at(&self, position: u64) -> Option<u32>
        requires low { self.now.base ≤ position }
        requires high { position < self.now.base + 4096 }
        requires wide { length self.now.seats ≡ 4096 }
        ensures { result ≡ found_at self.now position }
    {
        match self.seats[(position - self.base) as usize] {
            0 => None,
            byte => Some(byte as u32 - 1),
        }
    }

    // Notes what the write-back of the version at this place found.
    fn note(&mut self, index: u32, above: Option<u32>)
        requires range { index < 4096 }
        requires wide { length self.old.seats ≡ 4096 }
        requires small { IfSome above (λ seat. seat < 64) }
        ensures { self.new ≡ found_set self.old index above }
    {
        self.seats[index as usize] = match above {
            None => 0,
            Some(seat) => seat as u8 + 1,
        };
    }
}

// What a write-back came to: the other seat whose version it found in HEAD, if any, and the greatest
// time that it found in CLOCK, or 0.
#[derive(Clone, Copy)]
struct WriteBackSeen {
    above: Option<u32>,
    clock: u64,
}

// Stores the six words of a write-back, and ends it.
fn store_all<P: Protocol, L: Ledger>(
    shared: &Shared<P>,
    pass: &mut Pass<P>,
    log: &mut Log,
    back: StartedWriteBack,
    steps: &mut Steps<L>,
) -> (BackEnd, u64)
    requires of { IsOf shared.now pass.old }
    requires writing { IsWriting (config_of shared.now) (view pass.old) back }
    requires begun { back.stored ≡ 0 }
    requires stands { Stands (config_of shared.now) (view pass.old) log.old }
    ensures same { IsSame pass.old pass.new }
    ensures stands { Stands (config_of shared.now) (view pass.new) log.new }
    ensures stores { StoresAll (config_of shared.now) (view pass.old) (view pass.new) log.old log.new back result.0 result.1 }
    ensures hears { Hears (view pass.old) (view pass.new) result.1 }
    ensures cost { steps.new ≤ steps.old + 9 }
    ensures trail { length (view pass.new).trail ≤ length (view pass.old).trail + 9 }
{
    let mut back = back;
    for _ in 0..WIDTH {
        back_word(shared, pass, &mut back, steps);
    }
    finish_clock(shared, pass, log, back, steps)
}

// Loads SUPER of the version at a position, and notes a time that it finds as the time of death. It
// answers whether it found one, as it does where a section of the seat whose time wasn't below the
// version's found HEAD of its object 0.
fn load_super<P: Protocol, L: Ledger>(
    shared: &Shared<P>,
    pass: &mut Pass<P>,
    log: &mut Log,
    position: u64,
    steps: &mut Steps<L>,
) -> bool
    ghost at: { Note }
    requires of { IsOf shared.now pass.old }
    requires may { MayLoadLow (view pass.old) }
    requires stands { Stands (config_of shared.now) (view pass.old) log.old }
    requires untimed { IsUntimed log.old position at }
    ensures same { IsSame pass.old pass.new }
    ensures stands { Stands (config_of shared.now) (view pass.new) log.new }
    ensures loads { LoadsSuper (config_of shared.now) (view pass.old) (view pass.new) log.old log.new at result }
    ensures empty { FoundEmpty (view pass.old) at.object at.time → result ≡ true }
    ensures step { steps.new ≡ steps.old + 1 }
{
    let time = shared.load_super(pass, position, steps);
    if time == 0 {
        return false;
    }
    retire(log, position, time);
    true
}

// Writes the version at a position back, whose SUPER was 0, where its time isn't above the watermark
// and HEAD names it.
fn write_back<P: Protocol, L: Ledger>(
    shared: &Shared<P>,
    pass: &mut Pass<P>,
    log: &mut Log,
    position: u64,
    mark: &Watermark,
    steps: &mut Steps<L>,
) -> WriteBackSeen
    ghost at: { Note }
    requires of { IsOf shared.now pass.old }
    requires may { MayLoadLow (view pass.old) }
    requires stands { Stands (config_of shared.now) (view pass.old) log.old }
    requires untimed { IsUntimed log.old position at }
    requires known { IsKnown (view pass.old) mark.now }
    ensures same { IsSame pass.old pass.new }
    ensures stands { Stands (config_of shared.now) (view pass.new) log.new }
    ensures tries { TriesOne (config_of shared.now) (view pass.old) (view pass.new) log.old log.new at mark.now result }
    ensures hears { Hears (view pass.old) (view pass.new) result.clock }
    ensures cost { steps.new ≤ steps.old + 17 }
    ensures trail { length (view pass.new).trail ≤ length (view pass.old).trail + 17 }
{
    let (start, clock) = start_clock(shared, pass, log, position, mark, steps);
    let above = match start {
        Ok(back) => {
            let (end, time) = store_all(shared, pass, log, back, steps);
            let above = match end {
                BackEnd::Cut => None,
                BackEnd::Above { seat } => Some(seat),
            };
            return WriteBackSeen {
                above,
                clock: clock.max(time),
            };
        }
        Err(NoBack::Young) => None,
        Err(NoBack::Gone) => {
            let _ = load_super(shared, pass, log, position, steps);
            None
        }
        Err(NoBack::Above { seat }) => {
            if seat == pass.seat() {
                None
            } else {
                Some(seat)
            }
        }
    };
    WriteBackSeen { above, clock }
}

// Looks at the version at this index: loads SUPER where it has no time of death, and in a round with
// write-backs writes it back where that was 0. It answers the greatest time that it found in CLOCK, or 0.
fn settle<P: Protocol, L: Ledger>(
    shared: &Shared<P>,
    pass: &mut Pass<P>,
    log: &mut Log,
    index: u32,
    back: bool,
    mark: &Watermark,
    found: &mut HeadHolders,
    steps: &mut Steps<L>,
) -> u64
    requires of { IsOf shared.now pass.old }
    requires may { (clock : ℕ) × MaySettle (view pass.old) log.old mark.now clock }
    requires stands { Stands (config_of shared.now) (view pass.old) log.old }
    requires range { index < length log.old.live }
    requires table { IsTableOf log.old found.old }
    ensures same { IsSame pass.old pass.new }
    ensures stands { Stands (config_of shared.now) (view pass.new) log.new }
    ensures settles { (clock : ℕ) → MaySettle (view pass.old) log.old mark.now clock
        → (made : List Step) × SettlesOne (config_of shared.now) (view pass.old) (view pass.new) log.old log.new made mark.now clock back
        found.old found.new index result }
    ensures hears { Hears (view pass.old) (view pass.new) result }
    ensures cost { steps.new ≤ steps.old + 18 }
    ensures trail { length (view pass.new).trail ≤ length (view pass.old).trail + 18 }
{
    let version = note(log, index);
    if version.dead != 0 {
        return 0;
    }
    if load_super(shared, pass, log, version.position, steps) || !back {
        return 0;
    }
    let tried = write_back(shared, pass, log, version.position, mark, steps);
    found.note(index, tried.above);
    tried.clock
}

/// Looks at each version of the log, from the oldest on. It answers the greatest time that it found
/// in CLOCK, or that of the scan.
pub(crate) fn settle_all<P: Protocol, L: Ledger>(
    shared: &Shared<P>,
    pass: &mut Pass<P>,
    log: &mut Log,
    back: bool,
    mark: &Watermark,
    clock: u64,
    found: &mut HeadHolders,
    steps: &mut Steps<L>,
) -> u64
    requires of { IsOf shared.now pass.old }
    requires may { MaySettle (view pass.old) log.old mark.now clock }
    requires stands { Stands (config_of shared.now) (view pass.old) log.old }
    requires table { IsTableOf log.old found.old }
    ensures same { IsSame pass.old pass.new }
    ensures stands { Stands (config_of shared.now) (view pass.new) log.new }
    ensures settles { (made : List Step) × Settles (config_of shared.now) (view pass.old) (view pass.new) log.old log.new made mark.now clock back found.new
        result (length log.old.live) }
    ensures hears { Hears (view pass.old) (view pass.new) result }
    ensures cost { steps.new ≤ steps.old + 18 * length log.old.live }
    ensures trail { length (view pass.new).trail ≤ length (view pass.old).trail + 18 * length log.old.live }
{
    let mut top = clock;
    for index in 0..live(log) {
        let time = settle(shared, pass, log, index, back, mark, found, steps);
        top = top.max(time);
    }
    top
}
