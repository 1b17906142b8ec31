// The turns of a seat.
ghost use Rattle.std.specs.Prelude.{◌≡◌, ◌+◌, ◌≤◌, ◌<◌, ◌^◌, OnOk, IfOk, length, drop, slice_index_or};
ghost use Rattle.mv_layout.specs.Limits.{Checked};
ghost use Rattle.mv_layout.specs.Places.{IsPlace};
ghost use Rattle.step_replay.specs.Machines.{config_of};
ghost use Rattle.replay_text.specs.replay_rules.Words.{word_at, words_with};
ghost use Rattle.replay_text.specs.replay_rules.Tasks.{written_by};
ghost use Rattle.replay_text.specs.replay_rules.Runs.{found_in, tape_after, step_made, call_looked, one_looked, looked, turned, new_seat, no_call};
ghost use Rattle.step_replay.specs.Shown.{seat_of, tape_of, scene_of, looked_of};

use crate::access::{access_of, place_of};
use crate::calls::{begin, begun, may_begin, new_sweep};
use crate::going::then_after;
use crate::learning::{edit_of, state_after};
use crate::machine::Machine;
use crate::notes::apply;
use crate::places::{is_place, place_number};
use mv_layout::{Config, SharedWord};
use replay_text::replay_rules::{Access, Call, CallOf, NextStep, NotedVersion, State, Then};
use replay_text::{write_answer, write_idle, write_skip, write_step};
use std::alloc::{AllocError, Global};

/// A seat of a replay: the versions of its log, what it is at, the step that comes next where a call is under way, and
/// how many of the plan's calls are behind it.
#[derive(Drop)]
pub struct ReplaySeat {
    log: Vec<NotedVersion>,
    state: State,
    task: Option<NextStep>,
    next: usize,
}

/// What a replay has come to: the words, and the text with the number of its steps.
#[derive(Drop)]
pub struct Tape {
    pub machine: Machine,
    pub made: u64,
    pub text: String,
}

// Does with the word what a step does, and answers what was there.
fn do_access(machine: &mut Machine, place: SharedWord, access: Access) -> u64
    requires { IsPlace (config_of machine.old) place }
    ensures numbers { config_of machine.new ≡ config_of machine.old }
    ensures word { result ≡ word_at (config_of machine.old) machine.old.words.items place }
    ensures words { machine.new.words.items ≡ words_with (config_of machine.old) machine.old.words.items place (written_by access result) }
{
    match access {
        Access::Load => machine.load(place),
        Access::Store { new } => machine.store(place, new),
        Access::Swap { old, new } => machine.swap(place, old, new),
        Access::Raise { by } => machine.raise(place, by),
    }
}

impl Tape {
    // Makes the step of a seat, and writes it.
    fn make(&mut self, config: &Config, seat: u32, task: NextStep) -> Result<u64, AllocError>
        requires checked { Checked config.now }
        requires same { config_of self.old.machine ≡ config.now }
        requires room { self.old.made + 1 < 2 ^ 64 }
        ensures same { config_of self.new.machine ≡ config.now }
        ensures room { self.new.made ≤ self.old.made + 1 }
        ensures found { IfOk result (λ found. found ≡ found_in config.now seat task (tape_of self.old)) }
        ensures tape { OnOk result (tape_of self.new ≡ tape_after config.now seat task (tape_of self.old)) }
    {
        if !is_place(config, place_of(config, seat, task)) {
            return Ok(0);
        }
        let access = access_of(seat, task);
        let number = place_number(config, place_of(config, seat, task));
        let found = do_access(&mut self.machine, place_of(config, seat, task), access);
        self.made += 1;
        write_step(&mut self.text, self.made, seat, access, number, found)?;
        Ok(found)
    }
}

impl ReplaySeat {
    // Makes the step that comes next.
    fn step(
        &mut self,
        config: &Config,
        tape: &mut Tape,
        calls: &[CallOf],
        task: NextStep,
    ) -> Result<(), AllocError>
        requires checked { Checked config.now }
        requires same { config_of tape.old.machine ≡ config.now }
        requires room { tape.old.made + 1 < 2 ^ 64 }
        ensures same { config_of tape.new.machine ≡ config.now }
        ensures room { tape.new.made ≤ tape.old.made + 1 }
        ensures made { OnOk result (scene_of calls.now self.new tape.new ≡ step_made config.now task (scene_of calls.now self.old tape.old)) }
    {
        let _ = calls;
        let seat = self.state.seat;
        let found = tape.make(config, seat, task)?;
        let edit = edit_of(&self.state, task, found);
        self.state = state_after(&self.log, self.state, task, found);
        apply(&mut self.log, edit)?;
        match then_after(config, &self.log, &self.state, task, found) {
            Then::Goes(task) => {
                self.task = Some(task);
                Ok(())
            }
            Then::Ends(answer) => {
                self.task = None;
                write_answer(&mut tape.text, seat, self.state.call, &answer)
            }
        }
    }

    // Begins a call, and answers its first step, if it has one.
    fn begin(
        &mut self,
        config: &Config,
        tape: &mut Tape,
        calls: &[CallOf],
        call: Call,
    ) -> Result<Option<NextStep>, AllocError>
        requires same { config_of tape.old.machine ≡ config.now }
        ensures same { config_of tape.new.machine ≡ config.now }
        ensures room { tape.new.made ≡ tape.old.made }
        ensures next { self.new.next ≡ self.old.next }
        ensures looked { IfOk result (λ task. looked_of calls.now self.new tape.new task
            ≡ call_looked config.now call (scene_of calls.now self.old tape.old)) }
    {
        let _ = calls;
        let seat = self.state.seat;
        if !may_begin(&self.log, &self.state, call) {
            write_skip(&mut tape.text, seat, call)?;
            return Ok(None);
        }
        self.state = begun(self.state, call);
        match begin(config, &self.log, &self.state) {
            Then::Goes(task) => Ok(Some(task)),
            Then::Ends(answer) => {
                write_answer(&mut tape.text, seat, call, &answer)?;
                Ok(None)
            }
        }
    }

    // Looks at the call at this place, unless it is another seat's.
    fn look_at(
        &mut self,
        config: &Config,
        tape: &mut Tape,
        calls: &[CallOf],
        place: usize,
    ) -> Result<Option<NextStep>, AllocError>
        requires range { place < length calls.now }
        requires same { config_of tape.old.machine ≡ config.now }
        ensures same { config_of tape.new.machine ≡ config.now }
        ensures room { tape.new.made ≡ tape.old.made }
        ensures next { self.new.next ≡ place + 1 }
        ensures looked { IfOk result (λ task. looked_of calls.now self.new tape.new task
            ≡ one_looked config.now (slice_index_or calls.now place no_call) (scene_of calls.now (record self.old { next = place + 1 }) tape.old)) }
    {
        self.next = place + 1;
        let call = calls[place];
        if call.seat != self.state.seat {
            return Ok(None);
        }
        self.begin(config, tape, calls, call.call)
    }

    // Looks at the calls that come next, up to one that needs a step, and answers that step.
    fn look(
        &mut self,
        config: &Config,
        tape: &mut Tape,
        calls: &[CallOf],
    ) -> Result<Option<NextStep>, AllocError>
        requires same { config_of tape.old.machine ≡ config.now }
        ensures same { config_of tape.new.machine ≡ config.now }
        ensures room { tape.new.made ≡ tape.old.made }
        ensures looked { IfOk result (λ task. looked_of calls.now self.new tape.new task
            ≡ looked config.now (drop self.old.next calls.now) (scene_of calls.now self.old tape.old)) }
    {
        for place in self.next..calls.len() {
            if let Some(task) = self.look_at(config, tape, calls, place)? {
                return Ok(Some(task));
            }
        }
        Ok(None)
    }

    /// A turn of the seat.
    pub fn turn(
        &mut self,
        config: &Config,
        tape: &mut Tape,
        calls: &[CallOf],
    ) -> Result<(), AllocError>
        requires checked { Checked config.now }
        requires same { config_of tape.old.machine ≡ config.now }
        requires room { tape.old.made + 1 < 2 ^ 64 }
        ensures same { config_of tape.new.machine ≡ config.now }
        ensures room { tape.new.made ≤ tape.old.made + 1 }
        ensures turned { OnOk result (scene_of calls.now self.new tape.new ≡ turned config.now (scene_of calls.now self.old tape.old)) }
    {
        if let Some(task) = self.task {
            return self.step(config, tape, calls, task);
        }
        match self.look(config, tape, calls)? {
            Some(task) => self.step(config, tape, calls, task),
            None => write_idle(&mut tape.text, self.state.seat),
        }
    }
}

/// A seat of this number that has made no call.
pub fn new_seat(alloc: Global, calls: &[CallOf], seat: u32) -> ReplaySeat
    ensures { seat_of calls.now result ≡ new_seat calls.now seat }
{
    let _ = calls;
    ReplaySeat {
        log: Vec::new(alloc),
        state: State {
            seat,
            time: None,
            from: 0,
            freed: 0,
            call: Call::Enter,
            sweep: new_sweep(0),
        },
        task: None,
        next: 0,
    }
}
