// Naming the next entry of the history.
ghost use Rattle.std.specs.Prelude.{◌≡◌, ◌+◌, ◌<◌};
ghost use Rattle.mv_core.specs.declared.view.OwnSection.{OwnSection};
ghost use Rattle.mv_layout.specs.Words.{clock_time_of};
ghost use Rattle.mv_core.specs.Passes.{view, IsOf, IsSame, config_of};
ghost use Rattle.mv_core.specs.NameSteps.{MayNameCommit, MayNameRest};
ghost use Rattle.commit_clock.specs.Names.{NamesCommit, LogNamed, NamesRest, named_by};

use mv_core::{Pass, Shared, Steps, Swap};
use mv_history::{Protocol, Rival, Tag};
use mv_layout::{LAST, clock_seat, clock_time};
use std::sync::ledger::Ledger;

/// What naming an entry answers.
#[derive(Debug, Clone, Copy, PartialEq, Eq)]
pub enum Named {
    /// The entry was made, and has this printed time.
    Done(u64),
    /// CLOCK had another word by then: the seat and the printed time of that word's entry.
    Lost(Rival),
}

/// Names the commit of what the section holds, at the time after that of a clock word, which the
/// pass has loaded and helped and whose time is below `LAST`. It is one exchange of CLOCK.
///
/// - `Done`: the commit is an entry of the history, with exactly what was held, and is the last
///   of the seat's commits. It isn't stamped yet.
/// - `Lost` exactly where CLOCK had another word, of a later entry. No entry was made, and what is
///   held is held still; the pass has loaded the word found.
///
/// Where it is `Done`, what was held links to nothing or by a packed link, and of the commits that
/// were in the own log none is later than the word.
pub fn name<P: Protocol, L: Ledger>(
    shared: &Shared<P>,
    pass: &mut Pass<P>,
    word: u64,
    tag: Tag,
    steps: &mut Steps<L>,
) -> Named
    ghost inside: { OwnSection }
    requires of { IsOf shared.now pass.old }
    requires may { MayNameCommit P.allowed (config_of shared.now) (view pass.old) word tag inside }
    ensures same { IsSame pass.old pass.new }
    ensures names { NamesCommit (config_of shared.now) (view pass.old) inside tag word result (view pass.new) }
    ensures log { LogNamed (config_of shared.now) (view pass.old) word result }
    ensures step { steps.new ≡ steps.old + 1 }
{
    answer(word, shared.name_commit(pass, word, tag, steps))
}

/// Names a rest of the seat, which is outside a section, at the time after that of a clock word,
/// which the pass has loaded and helped and whose time is below `LAST`. It is one exchange of CLOCK.
///
/// - `Done`: the rest is an entry of the history. It writes nothing.
/// - `Lost` exactly where CLOCK had another word, of a later entry. No entry was made; the pass has
///   loaded the word found.
pub fn rest<P: Protocol, L: Ledger>(
    shared: &Shared<P>,
    pass: &mut Pass<P>,
    word: u64,
    steps: &mut Steps<L>,
) -> Named
    requires of { IsOf shared.now pass.old }
    requires may { MayNameRest (view pass.old) word }
    ensures same { IsSame pass.old pass.new }
    ensures names { NamesRest (config_of shared.now) (view pass.old) word result (view pass.new) }
    ensures step { steps.new ≡ steps.old + 1 }
{
    answer(word, shared.name_rest(pass, word, steps))
}

// What an exchange of CLOCK from a word answers of the entry that it was to name.
fn answer(word: u64, swap: Swap) -> Named
    requires { clock_time_of word < LAST }
    ensures { result ≡ named_by word swap }
{
    match swap {
        Swap::Won => Named::Done(clock_time(word) + 1),
        Swap::Found(found) => Named::Lost(Rival {
            seat: clock_seat(found),
            time: clock_time(found),
        }),
    }
}
