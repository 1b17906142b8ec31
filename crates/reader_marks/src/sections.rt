// Entering and leaving a section.
ghost use Rattle.std.specs.Prelude.{◌≡◌, ℕ, ◌+◌, ◌≤◌, List, length};
ghost use Rattle.mv_history.specs.declared.Entry.{Entry};
ghost use Rattle.mv_layout.specs.Words.{clock_time_of};
ghost use Rattle.commit_clock.specs.mv_core.SectionFacts.{IsWord};
ghost use Rattle.commit_clock.specs.mv_core.EnterSteps.{IsWhole, MayLoadLow, low_loaded, MayStoreMark, mark_stored, MayLoadTime, time_loaded, mark_cleared};
ghost use Rattle.commit_clock.specs.mv_core.Passes.{view, IsOf, IsSame, config_of};
ghost use Rattle.commit_clock.specs.mv_core.Rings.{HoldsNothing};
ghost use Rattle.commit_clock.specs.Hears.{Hears};
ghost use Rattle.commit_clock.specs.Helps.{HasLoaded};
ghost use Rattle.reader_marks.specs.Sections.{Begins, IsOpen};

use commit_clock::help_clock;
use commit_clock::mv_core::{Pass, Shared, Steps};
use mv_history::Protocol;
use mv_layout::clock_time;
use std::sync::ledger::Ledger;

/// Begins a section, and answers its printed time. Its snapshot is the whole history at the step of
/// this call that takes the time, with all that the pass had seen. The pass is outside a section,
/// with no scan of the marks running; afterwards its section is open and past its help, holds
/// nothing, walks nowhere and writes nothing back.
pub fn enter<P: Protocol, L: Ledger>(
    shared: &Shared<P>,
    pass: &mut Pass<P>,
    steps: &mut Steps<L>,
) -> u64
    requires of { IsOf shared.now pass.old }
    requires may { MayLoadLow (view pass.old) }
    ensures same { IsSame pass.old pass.new }
    ensures begins { Begins (config_of shared.now) (view pass.old) (view pass.new) result }
    ensures cost { steps.new ≤ steps.old + 6 }
{
    enter_clock(shared, pass, steps).0
}

/// Enters as `enter` does, and answers besides the greatest printed time that this call found in
/// CLOCK, which is that of all it has seen: none of the loads of CLOCK among its steps by which a
/// seat takes a time for the present one found a later. It is `enter_low`, `enter_mark`,
/// `enter_time` and the help of the word that the last of them found.
pub fn enter_clock<P: Protocol, L: Ledger>(
    shared: &Shared<P>,
    pass: &mut Pass<P>,
    steps: &mut Steps<L>,
) -> (u64, u64)
    requires of { IsOf shared.now pass.old }
    requires may { MayLoadLow (view pass.old) }
    ensures same { IsSame pass.old pass.new }
    ensures begins { Begins (config_of shared.now) (view pass.old) (view pass.new) result.0 }
    ensures last { result.1 ≡ (config_of shared.now).base + length (view pass.new).past.seen }
    ensures hears { Hears (view pass.old) (view pass.new) result.1 }
    ensures cost { steps.new ≤ steps.old + 6 }
{
    let low = enter_low(shared, pass, steps);
    enter_mark(shared, pass, low, steps);
    let word = enter_time(shared, pass, steps);
    let last = help_clock(shared, pass, word, steps);
    (clock_time(word), clock_time(last.unwrap_or(word)))
}

/// The first step of `enter`, with its condition: loads CLOCK, and answers its printed time, which the
/// time of the section to come isn't below. `enter_mark` goes on from there, now or after steps of
/// others.
pub fn enter_low<P: Protocol, L: Ledger>(
    shared: &Shared<P>,
    pass: &mut Pass<P>,
    steps: &mut Steps<L>,
) -> u64
    requires of { IsOf shared.now pass.old }
    requires may { MayLoadLow (view pass.old) }
    ensures same { IsSame pass.old pass.new }
    ensures view { (word : ℕ) × (result ≡ clock_time_of word) × (view pass.new ≡ low_loaded (config_of shared.now) (view pass.old) word) }
    ensures next { MayStoreMark (view pass.new) result }
    ensures step { steps.new ≡ steps.old + 1 }
{
    clock_time(shared.load_low(pass, steps))
}

/// The second step of `enter`: stores the mark for the printed time that `enter_low` answered.
/// `enter_time` goes on from there.
pub fn enter_mark<P: Protocol, L: Ledger>(
    shared: &Shared<P>,
    pass: &mut Pass<P>,
    low: u64,
    steps: &mut Steps<L>,
)
    requires of { IsOf shared.now pass.old }
    requires may { MayStoreMark (view pass.old) low }
    ensures same { IsSame pass.old pass.new }
    ensures view { view pass.new ≡ mark_stored (config_of shared.now) (view pass.old) low }
    ensures next { MayLoadTime (view pass.new) }
    ensures step { steps.new ≡ steps.old + 1 }
{
    shared.store_mark(pass, low, steps);
}

/// The third step of `enter`: loads CLOCK, whose time is that of the section that begins with it, and
/// answers the word. The pass has then seen the whole history. What is left of `enter` is the help of
/// that word.
pub fn enter_time<P: Protocol, L: Ledger>(
    shared: &Shared<P>,
    pass: &mut Pass<P>,
    steps: &mut Steps<L>,
) -> u64
    requires of { IsOf shared.now pass.old }
    requires may { MayLoadTime (view pass.old) }
    ensures same { IsSame pass.old pass.new }
    ensures view { (h : List Entry) × IsWhole (config_of shared.now) (view pass.old) result h
        × (view pass.new ≡ time_loaded (config_of shared.now) (view pass.old) result h) }
    ensures nothing { HoldsNothing (view pass.new).ring }
    ensures loaded { HasLoaded (view pass.new) result }
    ensures word { IsWord (config_of shared.now) result }
    ensures step { steps.new ≡ steps.old + 1 }
{
    shared.load_time(pass, steps)
}

/// Leaves an open section that holds nothing, by one step, and adds no entry. It never refuses. The
/// walk and the write-back of the section end with it.
pub fn leave<P: Protocol, L: Ledger>(shared: &Shared<P>, pass: &mut Pass<P>, steps: &mut Steps<L>)
    requires of { IsOf shared.now pass.old }
    requires open { IsOpen (view pass.old) }
    ensures same { IsSame pass.old pass.new }
    ensures view { view pass.new ≡ mark_cleared (config_of shared.now) (view pass.old) }
    ensures step { steps.new ≡ steps.old + 1 }
{
    shared.clear_mark(pass, steps);
}
