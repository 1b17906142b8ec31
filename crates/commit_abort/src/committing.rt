// Committing what a section holds.
ghost use Rattle.std.specs.Prelude.{◌≡◌, ◌+◌, ◌≤◌, None};
ghost use Rattle.seat_log.specs.mv_core.declared.view.OwnSection.{OwnSection};
ghost use Rattle.seat_log.specs.mv_core.Passes.{view, IsOf, IsSame, config_of};
ghost use Rattle.seat_log.specs.Stands.{Stands};
ghost use Rattle.commit_abort.specs.Commits.{MayCommit, EndsSo, LogEndsSo};

use crate::finishing::finish;
use mv_history::{Protocol, Rival, Tag};
use mv_layout::{LAST, clock_time};
use seat_log::Log;
use seat_log::commit_clock::{Named, help, name, now};
use seat_log::mv_core::{Pass, Shared, Steps};
use std::sync::ledger::Ledger;

/// How a commit ends.
#[derive(Debug, Clone, Copy, PartialEq, Eq)]
pub enum Ended {
    /// The commit is an entry of the history, of this printed time, and the section has ended.
    Done(u64),
    /// The seat and the printed time of the entry that came first. The section is as before.
    Again(Rival),
    /// No time is left. The section is as before.
    End,
}

/// Commits what an open section holds, which is something, as one entry of the history. Nothing is
/// being built in the log, which stands for the pass before and after.
///
/// - `Done`: the commit has exactly what was held, in the order of locking, and is the last of the
///   seat's commits. Its time is the next after that of the word that this call loaded. It is
///   stamped, SUPER of the versions below has its time, and the section has ended.
/// - `Again` only where the one exchange of CLOCK was lost to another seat's entry, made after this
///   call had loaded the clock; the word that the exchange found names it. The section is as before, and may be committed again.
/// - `End` exactly where the word that this call loaded has the last time. The section is as before.
///
/// It makes at most `8 + held` steps, and tries the exchange once.
pub fn commit<P: Protocol, L: Ledger>(
    shared: &Shared<P>,
    pass: &mut Pass<P>,
    log: &mut Log,
    tag: Tag,
    steps: &mut Steps<L>,
) -> Ended
    ghost inside: { OwnSection }
    requires of { IsOf shared.now pass.old }
    requires may { MayCommit P.allowed (config_of shared.now) (view pass.old) tag inside }
    requires stands { Stands (config_of shared.now) (view pass.old) log.old }
    requires unbuilt { log.old.built ≡ None }
    ensures same { IsSame pass.old pass.new }
    ensures ends { EndsSo (config_of shared.now) (view pass.old) (view pass.new) inside tag result }
    ensures log { LogEndsSo log.old log.new result }
    ensures stands { Stands (config_of shared.now) (view pass.new) log.new }
    ensures cost { steps.new ≤ steps.old + log.old.held + 8 }
{
    let word = now(shared, pass, steps);
    let time = clock_time(word);
    let at_end = time == LAST;
    if at_end {
        return Ended::End;
    }
    help(shared, pass, word, steps);
    match name(shared, pass, word, tag, steps) {
        Named::Done(time) => {
            finish(shared, pass, log, time, steps);
            Ended::Done(time)
        }
        Named::Lost(rival) => Ended::Again(rival),
    }
}
