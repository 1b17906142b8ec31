// The word that a step is of, and what it does with it.
ghost use Rattle.std.specs.Prelude.{◌≡◌};
ghost use Rattle.mv_layout.specs.Limits.{Checked};
ghost use Rattle.mv_layout.specs.Words.{link_seat_of};
ghost use Rattle.mv_core.specs.LockSteps.{field_place};
ghost use Rattle.replay_text.specs.replay_rules.Tasks.{link_slot, slot_at, link_to, stamp_from};
ghost use Rattle.replay_text.specs.replay_rules.Tasks.{next_clock, commit_clock, named_place, entering_place, helping_place};
ghost use Rattle.replay_text.specs.replay_rules.Tasks.{walking_place, locking_place, ending_place};
ghost use Rattle.replay_text.specs.replay_rules.Tasks.{sweeping_place, place_in_task, entering_access, helping_access};
ghost use Rattle.replay_text.specs.replay_rules.Tasks.{field_word, locking_access, ending_access, sweeping_access, access_in_task};

use crate::notes::word_of;
use mv_layout::{
    Config, LAST, SharedWord, clock_seat, clock_slot, clock_time, clock_word, link_word,
    slot_of_position, unset_stamp,
};
use replay_text::replay_rules::{
    Access, Ending, Entering, Helping, Locking, NextStep, NotedVersion, Sweeping, Walking,
};

/// The seat of a link.
pub fn seat_of_link(link: u64) -> u32
    ensures { result ≡ link_seat_of link }
{
    (link / 144_115_188_075_855_872).saturating_sub(1) as u32
}

// The slot of a link.
fn link_slot(config: &Config, link: u64) -> u32
    requires { Checked config.now }
    ensures { result ≡ link_slot config.now link }
{
    slot_of_position(config, link % 144_115_188_075_855_872)
}

// The slot of a position.
fn slot_at(config: &Config, at: usize) -> u32
    requires { Checked config.now }
    ensures { result ≡ slot_at config.now at }
{
    slot_of_position(config, at as u64)
}

/// The link to a position of a seat's log.
pub fn link_to(seat: u32, at: usize) -> u64
    ensures { result ≡ link_to seat at }
{
    if seat < 64 && (at as u64) < 144_115_188_075_855_872 {
        link_word(seat, at as u64)
    } else {
        0
    }
}

// The unset stamp of a write set that begins at a position.
fn stamp_from(at: usize) -> u64
    ensures { result ≡ stamp_from at }
{
    if (at as u64) < 144_115_188_075_855_872 {
        unset_stamp(at as u64)
    } else {
        0
    }
}

/// The clock word of a seat's next entry behind a word, with this slot.
pub fn next_clock(word: u64, seat: u32, slot: u32) -> u64
    ensures { result ≡ next_clock word seat slot }
{
    let time = clock_time(word);
    if time < LAST && seat < 64 && slot <= 8_191 {
        clock_word(time + 1, seat, slot)
    } else {
        0
    }
}

/// The clock word of a seat's next commit behind a word, whose write set begins at a position.
pub fn commit_clock(config: &Config, word: u64, seat: u32, at: usize) -> u64
    requires { Checked config.now }
    ensures { result ≡ commit_clock config.now word seat at }
{
    next_clock(word, seat, slot_at(config, at))
}

// The stamp of the commit that a clock word names.
fn named_place(word: u64) -> SharedWord
    ensures { result ≡ named_place word }
{
    SharedWord::Stamp(clock_seat(word), clock_slot(word))
}

fn entering_place(seat: u32, step: Entering) -> SharedWord
    ensures { result ≡ entering_place seat step }
{
    match step {
        Entering::LoadLow | Entering::LoadTime => SharedWord::Clock,
        Entering::StoreMark { mark: _ } => SharedWord::Mark(seat),
    }
}

fn helping_place(step: Helping) -> SharedWord
    ensures { result ≡ helping_place step }
{
    match step {
        Helping::LoadNamed { word } => named_place(word),
        Helping::LoadCheck { word: _, unset: _ } => SharedWord::Clock,
        Helping::SwapStamp { word, unset: _ } => named_place(word),
    }
}

fn walking_place(config: &Config, object: u32, step: Walking) -> SharedWord
    requires { Checked config.now }
    ensures { result ≡ walking_place config.now object step }
{
    match step {
        Walking::LoadHead => SharedWord::Head(object),
        Walking::LoadFirst { link } => {
            SharedWord::First(seat_of_link(link), link_slot(config, link))
        }
        Walking::LoadStamp { link, first } => SharedWord::Stamp(
            seat_of_link(link),
            slot_of_position(config, first),
        ),
        Walking::LoadPrev { link } => {
            SharedWord::Prev(seat_of_link(link), link_slot(config, link))
        }
        Walking::LoadWord {
            link,
            words: _,
            word,
        } => {
            if link == 0 {
                SharedWord::Master(object, word)
            } else {
                SharedWord::Data(seat_of_link(link), link_slot(config, link), word)
            }
        }
    }
}

// A word of the slot of a position.
fn field_place(seat: u32, slot: u32, field: u32) -> SharedWord
    ensures { result ≡ field_place seat slot field }
{
    match field {
        0 => SharedWord::First(seat, slot),
        1 => SharedWord::Stamp(seat, slot),
        2 => SharedWord::Prev(seat, slot),
        3 => SharedWord::Super(seat, slot),
        _ => SharedWord::Data(seat, slot, field - 4),
    }
}

fn locking_place(config: &Config, seat: u32, object: u32, at: usize, step: Locking) -> SharedWord
    requires { Checked config.now }
    ensures { result ≡ locking_place config.now seat object at step }
{
    match step {
        Locking::Build { field } => field_place(seat, slot_at(config, at), field),
        Locking::LockHead => SharedWord::Head(object),
        Locking::ClearPrevious => SharedWord::Prev(seat, slot_at(config, at)),
        Locking::FoundFirst { link } => {
            SharedWord::First(seat_of_link(link), link_slot(config, link))
        }
        Locking::FoundStamp { link, first } => SharedWord::Stamp(
            seat_of_link(link),
            slot_of_position(config, first),
        ),
    }
}

fn ending_place(config: &Config, seat: u32, step: Ending) -> SharedWord
    requires { Checked config.now }
    ensures { result ≡ ending_place config.now seat step }
{
    match step {
        Ending::LoadNow | Ending::LoadDeath => SharedWord::Clock,
        Ending::Name { word: _, new: _ } => SharedWord::Clock,
        Ending::StampOwn { first, time: _ } => SharedWord::Stamp(seat, slot_at(config, first)),
        Ending::StoreSuper {
            at: _,
            link,
            time: _,
        } => { SharedWord::Super(seat_of_link(link), link_slot(config, link)) }
        Ending::Unlock {
            at: _,
            object,
            previous: _,
        } => SharedWord::Head(object),
        Ending::Leave(_) => SharedWord::Mark(seat),
    }
}

fn sweeping_place(config: &Config, seat: u32, step: Sweeping) -> SharedWord
    requires { Checked config.now }
    ensures { result ≡ sweeping_place config.now seat step }
{
    match step {
        Sweeping::LoadGrace { again: _ } => SharedWord::Grace,
        Sweeping::Free { at, left: _ } => SharedWord::Stamp(seat, slot_at(config, at)),
        Sweeping::LoadScan => SharedWord::Clock,
        Sweeping::LoadMark { seat } => SharedWord::Mark(seat),
        Sweeping::RaiseGrace { low: _ } => SharedWord::Grace,
        Sweeping::LoadSuper { at } => SharedWord::Super(seat, slot_at(config, at)),
        Sweeping::LoadTop { at: _, object } => SharedWord::Head(object),
        Sweeping::StoreMaster {
            at: _,
            object,
            words: _,
            word,
        } => SharedWord::Master(object, word),
        Sweeping::CutHead { at: _, object } => SharedWord::Head(object),
        Sweeping::LoadCutDeath { at: _ } => SharedWord::Clock,
        Sweeping::LeaveBack { at: _, back: _ } => SharedWord::Mark(seat),
        Sweeping::LoadSuperAgain { at } => SharedWord::Super(seat, slot_at(config, at)),
        Sweeping::NameRest { word: _, new: _ } => SharedWord::Clock,
    }
}

/// The word that the next step of a seat is of.
pub fn place_of(config: &Config, seat: u32, task: NextStep) -> SharedWord
    requires { Checked config.now }
    ensures { result ≡ place_in_task config.now seat task }
{
    match task {
        NextStep::Enters(step) => entering_place(seat, step),
        NextStep::Helps(step) => helping_place(step),
        NextStep::Walks { object, next } => walking_place(config, object, next),
        NextStep::Locks { version, at, next } => locking_place(
            config,
            seat,
            version.object,
            at,
            next,
        ),
        NextStep::Writes { at, words: _, word } => SharedWord::Data(
            seat,
            slot_at(config, at),
            word,
        ),
        NextStep::EndsSection(step) => ending_place(config, seat, step),
        NextStep::Tidies(step) => sweeping_place(config, seat, step),
    }
}

fn entering_access(step: Entering) -> Access
    ensures { result ≡ entering_access step }
{
    match step {
        Entering::LoadLow | Entering::LoadTime => Access::Load,
        Entering::StoreMark { mark } => Access::Store { new: mark },
    }
}

fn helping_access(step: Helping) -> Access
    ensures { result ≡ helping_access step }
{
    match step {
        Helping::LoadNamed { word: _ } => Access::Load,
        Helping::LoadCheck { word: _, unset: _ } => Access::Load,
        Helping::SwapStamp { word, unset } => Access::Swap {
            old: unset,
            new: clock_time(word),
        },
    }
}

// The word of a field of a version's slot.
fn field_word(version: &NotedVersion, at: usize, field: u32) -> u64
    ensures { result ≡ field_word version.now at field }
{
    match field {
        0 => version.first as u64,
        1 => stamp_from(at),
        2 => version.previous,
        3 => 0,
        _ => word_of(&version.words, field - 4),
    }
}

fn locking_access(seat: u32, version: &NotedVersion, at: usize, step: Locking) -> Access
    ensures { result ≡ locking_access seat version.now at step }
{
    match step {
        Locking::Build { field } => Access::Store {
            new: field_word(version, at, field),
        },
        Locking::LockHead => Access::Swap {
            old: version.previous,
            new: link_to(seat, at),
        },
        Locking::ClearPrevious => Access::Store { new: 0 },
        Locking::FoundFirst { link: _ } => Access::Load,
        Locking::FoundStamp { link: _, first: _ } => Access::Load,
    }
}

fn ending_access(step: Ending) -> Access
    ensures { result ≡ ending_access step }
{
    match step {
        Ending::LoadNow | Ending::LoadDeath => Access::Load,
        Ending::Name { word, new } => Access::Swap { old: word, new },
        Ending::StampOwn { first, time } => Access::Swap {
            old: stamp_from(first),
            new: time,
        },
        Ending::StoreSuper {
            at: _,
            link: _,
            time,
        } => Access::Store { new: time },
        Ending::Unlock {
            at: _,
            object: _,
            previous,
        } => Access::Store { new: previous },
        Ending::Leave(_) => Access::Store { new: 0 },
    }
}

fn sweeping_access(seat: u32, step: Sweeping) -> Access
    ensures { result ≡ sweeping_access seat step }
{
    match step {
        Sweeping::LoadGrace { again: _ } => Access::Load,
        Sweeping::Free { at: _, left: _ } => Access::Store { new: 0 },
        Sweeping::LoadScan => Access::Load,
        Sweeping::LoadMark { seat: _ } => Access::Load,
        Sweeping::RaiseGrace { low } => Access::Raise { by: low },
        Sweeping::LoadSuper { at: _ } => Access::Load,
        Sweeping::LoadTop { at: _, object: _ } => Access::Load,
        Sweeping::StoreMaster {
            at: _,
            object: _,
            words,
            word,
        } => Access::Store {
            new: word_of(&words, word),
        },
        Sweeping::CutHead { at, object: _ } => Access::Swap {
            old: link_to(seat, at),
            new: 0,
        },
        Sweeping::LoadCutDeath { at: _ } => Access::Load,
        Sweeping::LeaveBack { at: _, back: _ } => Access::Store { new: 0 },
        Sweeping::LoadSuperAgain { at: _ } => Access::Load,
        Sweeping::NameRest { word, new } => Access::Swap { old: word, new },
    }
}

/// What the next step of a seat does with its word.
pub fn access_of(seat: u32, task: NextStep) -> Access
    ensures { result ≡ access_in_task seat task }
{
    match task {
        NextStep::Enters(step) => entering_access(step),
        NextStep::Helps(step) => helping_access(step),
        NextStep::Walks { object: _, next: _ } => Access::Load,
        NextStep::Locks { version, at, next } => locking_access(seat, &version, at, next),
        NextStep::Writes { at: _, words, word } => Access::Store {
            new: word_of(&words, word),
        },
        NextStep::EndsSection(step) => ending_access(step),
        NextStep::Tidies(step) => sweeping_access(seat, step),
    }
}
