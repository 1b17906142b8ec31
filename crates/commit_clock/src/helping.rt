// Loading the clock, and helping the commit that a clock word names.
ghost use Rattle.std.specs.Prelude.{◌≡◌, ◌+◌, ◌≤◌, List};
ghost use Rattle.mv_history.specs.declared.Entry.{Entry};
ghost use Rattle.mv_layout.specs.Words.{clock_slot_of};
ghost use Rattle.mv_core.specs.Passes.{view, IsOf, IsSame, config_of};
ghost use Rattle.mv_core.specs.SectionFacts.{IsWord};
ghost use Rattle.mv_core.specs.EnterSteps.{IsWhole, MayLoadCheck, check_loaded};
ghost use Rattle.commit_clock.specs.Hears.{HearsJust};
ghost use Rattle.commit_clock.specs.Helps.{HasLoaded, Helps, FindsClock, HelpStarts, IsStarted, IsChecked, EndsHelp};

use mv_core::{Pass, Shared, Steps};
use mv_history::Protocol;
use mv_layout::{NO_SLOT, clock_slot, is_unset};
use std::sync::ledger::Ledger;

/// The word of CLOCK, by one load. The pass is outside or in a section, and has then seen the whole
/// history.
pub fn now<P: Protocol, L: Ledger>(
    shared: &Shared<P>,
    pass: &mut Pass<P>,
    steps: &mut Steps<L>,
) -> u64
    requires of { IsOf shared.now pass.old }
    requires may { MayLoadCheck (view pass.old).phase }
    ensures same { IsSame pass.old pass.new }
    ensures view { (h : List Entry) × IsWhole (config_of shared.now) (view pass.old) result h
        × (view pass.new ≡ check_loaded (config_of shared.now) (view pass.old) result h) }
    ensures loaded { HasLoaded (view pass.new) result }
    ensures word { IsWord (config_of shared.now) result }
    ensures step { steps.new ≡ steps.old + 1 }
{
    shared.load_check(pass, steps)
}

/// Helps the commit that a clock word names, which the pass has loaded: afterwards that commit is
/// stamped, if it is still live. It makes at most three steps, and none where the word names no
/// commit.
pub fn help<P: Protocol, L: Ledger>(
    shared: &Shared<P>,
    pass: &mut Pass<P>,
    word: u64,
    steps: &mut Steps<L>,
)
    requires of { IsOf shared.now pass.old }
    requires may { MayLoadCheck (view pass.old).phase }
    requires loaded { HasLoaded (view pass.old) word }
    ensures same { IsSame pass.old pass.new }
    ensures helps { Helps (config_of shared.now) (view pass.old) (view pass.new) word }
    ensures none { clock_slot_of word ≡ 8191 → (view pass.new ≡ view pass.old) × (steps.new ≡ steps.old) }
    ensures cost { steps.new ≤ steps.old + 3 }
{
    let _ = help_clock(shared, pass, word, steps);
}

/// Helps as `help` does, and answers the word of CLOCK that the help loaded, or None where it made
/// no load of CLOCK: each load of CLOCK among its steps found that word. It is `help_start`, and
/// where that has begun one, `help_check` and `help_end`.
pub fn help_clock<P: Protocol, L: Ledger>(
    shared: &Shared<P>,
    pass: &mut Pass<P>,
    word: u64,
    steps: &mut Steps<L>,
) -> Option<u64>
    requires of { IsOf shared.now pass.old }
    requires may { MayLoadCheck (view pass.old).phase }
    requires loaded { HasLoaded (view pass.old) word }
    ensures same { IsSame pass.old pass.new }
    ensures helps { Helps (config_of shared.now) (view pass.old) (view pass.new) word }
    ensures clock { FindsClock (config_of shared.now) (view pass.old) (view pass.new) result }
    ensures hears { HearsJust (view pass.old) (view pass.new) result }
    ensures none { clock_slot_of word ≡ 8191 → (view pass.new ≡ view pass.old) × (steps.new ≡ steps.old) }
    ensures cost { steps.new ≤ steps.old + 3 }
{
    let Some(started) = help_start(shared, pass, word, steps) else {
        return None;
    };
    let checked = help_check(shared, pass, started, steps);
    help_end(shared, pass, checked, steps);
    Some(checked.clock)
}

/// A help that has begun: the commit that the word names was found unstamped, by one load.
#[derive(Clone, Copy)]
pub struct StartedHelp {
    word: u64,
    unset: u64,
}

/// A help that has loaded CLOCK, which decides whether the stamp may be exchanged.
#[derive(Clone, Copy)]
pub struct CheckedHelp {
    word: u64,
    unset: u64,
    clock: u64,
}

/// Begins a help of a clock word, which the pass has loaded: the first step of `help`, the load of the
/// stamp of the commit that it names.
///
/// - `Some` exactly where the word names a commit and that stamp is unset; `help_check` goes on from
///   there, now or after steps of others.
/// - `None` where nothing is left to do, and the word is helped: it names no commit, and no step is
///   made; or the stamp found isn't unset.
pub fn help_start<P: Protocol, L: Ledger>(
    shared: &Shared<P>,
    pass: &mut Pass<P>,
    word: u64,
    steps: &mut Steps<L>,
) -> Option<StartedHelp>
    requires of { IsOf shared.now pass.old }
    requires may { MayLoadCheck (view pass.old).phase }
    requires loaded { HasLoaded (view pass.old) word }
    ensures same { IsSame pass.old pass.new }
    ensures starts { HelpStarts (config_of shared.now) (view pass.old) (view pass.new) word steps.old steps.new result }
{
    if clock_slot(word) == NO_SLOT {
        return None;
    }
    let found = shared.load_named(pass, word, steps);
    if !is_unset(found) {
        return None;
    }
    Some(StartedHelp { word, unset: found })
}

/// Goes on with a help that was begun, with nothing done for its seat since: the second step of
/// `help`, the load of CLOCK. The pass has then seen the whole history. Where CLOCK has another word
/// than the one helped, the word counts as helped.
pub fn help_check<P: Protocol, L: Ledger>(
    shared: &Shared<P>,
    pass: &mut Pass<P>,
    started: StartedHelp,
    steps: &mut Steps<L>,
) -> CheckedHelp
    requires of { IsOf shared.now pass.old }
    requires may { MayLoadCheck (view pass.old).phase }
    requires started { IsStarted (view pass.old) started }
    ensures same { IsSame pass.old pass.new }
    ensures help { result ≡ record { word = started.word; unset = started.unset; clock = result.clock } }
    ensures view { (h : List Entry) × IsWhole (config_of shared.now) (view pass.old) result.clock h
        × (view pass.new ≡ check_loaded (config_of shared.now) (view pass.old) result.clock h) }
    ensures checked { IsChecked (view pass.new) result }
    ensures step { steps.new ≡ steps.old + 1 }
{
    let StartedHelp { word, unset } = started;
    let clock = shared.load_check(pass, steps);
    CheckedHelp { word, unset, clock }
}

/// Ends a help that has loaded CLOCK, with nothing done for its seat since: the third step of `help`,
/// the exchange of the unset stamp for the word's time, exactly where CLOCK had the word helped; else no
/// step is made. Won or lost, the word is helped afterwards.
pub fn help_end<P: Protocol, L: Ledger>(
    shared: &Shared<P>,
    pass: &mut Pass<P>,
    checked: CheckedHelp,
    steps: &mut Steps<L>,
)
    requires of { IsOf shared.now pass.old }
    requires checked { IsChecked (view pass.old) checked }
    ensures same { IsSame pass.old pass.new }
    ensures ends { EndsHelp (config_of shared.now) (view pass.old) (view pass.new) checked steps.old steps.new }
{
    let CheckedHelp { word, unset, clock } = checked;
    if clock == word {
        let _ = shared.stamp(pass, word, unset, steps);
    }
}
