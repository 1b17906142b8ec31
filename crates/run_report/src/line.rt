// The lines of a run, and their order.
ghost use Rattle.std.specs.Prelude.{◌≡◌, ℕ, List};
ghost use Rattle.std.specs.List.Sorted.{IsPermutation};
ghost use Rattle.mv_history.specs.declared.answers.LogTable.{LogTable};
ghost use Rattle.set_model.specs.Catalogue.{Maps};
ghost use Rattle.set_model.specs.declared.commands.Command.{Command};
ghost use Rattle.run_report.specs.Legal.{LegalRun};
ghost use Rattle.run_report.specs.Order.{order_key, is_ahead, IsOrdered};
ghost use Rattle.run_report.specs.Whole.{RunOf};
ghost use Rattle.run_report.specs.Worked.{Past};

use section_work::Place;
use set_model::Reply;

/// What one command of a run replied, and where it took place.
#[derive(Clone, Copy, Debug, Drop, PartialEq, Eq)]
pub struct Line {
    /// The seat that ran the command, which is the number of its script, from 0.
    pub seat: u32,
    /// The command's number in its script, from 1.
    pub number: u32,
    /// Where it took place, with the printed time.
    pub place: Place,
    /// What it replied there.
    pub reply: Reply,
}

/// Puts lines in their order: by time, commits before reads, then by seat, then by number. The lines of a seat that stand
/// together are in order already, so these stretches are merged where there is memory for as many lines again; else the
/// lines are sorted in place. It never refuses.
/// The lines of a legal run stay those of a legal run, and those of a run in one history stay so.
pub fn order(lines: &mut Vec<Line>)
    ensures permutation { IsPermutation lines.old.items lines.new.items }
    ensures ordered { IsOrdered lines.new.items }
    ensures legal { (scripts : List (List Command)) (base capacity : ℕ) (end : Maps) →
        LegalRun scripts lines.old.items base capacity end → LegalRun scripts lines.new.items base capacity end }
    ensures whole { (p : Past) (scripts : List (List Command)) (end : Maps) (tables : List LogTable) →
        RunOf p scripts lines.old.items end tables → RunOf p scripts lines.new.items end tables }
{
    sort(lines);
}

// Puts lines in their order, by merging stretches that are in order where there is memory for it, and else in place.
fn sort(lines: &mut Vec<Line>)
    ensures permutation { IsPermutation lines.old.items lines.new.items }
    ensures in_order { IsOrdered lines.new.items }
{
    if lines.sort_by_key(Line::order_key).is_err() {
        lines.sort_unstable_by_key(Line::order_key);
    }
}

impl Line {
    /// Whether this line is ahead of the other.
    #[inline(always)]
    pub(crate) fn is_ahead(&self, other: &Line) -> bool
        ensures { result ≡ is_ahead self.now other.now }
    {
        self.order_key() < other.order_key()
    }

    /// What lines are ordered by.
    #[inline(always)]
    pub(crate) fn order_key(&self) -> (u64, u8, u32, u32)
        ensures { result ≡ order_key self.now }
    {
        let (time, rank) = match self.place {
            Place::Commit(time) => (time, 0),
            Place::Read(time) => (time, 1),
        };
        (time, rank, self.seat, self.number)
    }
}
