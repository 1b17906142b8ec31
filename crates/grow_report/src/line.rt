// The order of the lines of a run on a growing hash set.
ghost use Rattle.std.specs.Prelude.{ℕ, List};
ghost use Rattle.std.specs.List.Sorted.{IsPermutation};
ghost use Rattle.mv_history.specs.declared.answers.LogTable.{LogTable};
ghost use Rattle.set_model.specs.Catalogue.{Maps};
ghost use Rattle.set_model.specs.declared.commands.Command.{Command};
ghost use Rattle.run_report.specs.Order.{IsOrdered};
ghost use Rattle.run_report.specs.Worked.{Past};
ghost use Rattle.grow_report.specs.Whole.{GrowRunOf};

use run_report::{Line, order};

/// Puts lines in their order, as [`order`] does. Those of a run on a growing hash set stay so. It never refuses.
pub fn order_grown(lines: &mut Vec<Line>)
    ensures permutation { IsPermutation lines.old.items lines.new.items }
    ensures ordered { IsOrdered lines.new.items }
    ensures whole { (p : Past) (scripts : List (List Command)) (end : Maps) (splits : ℕ) (tables : List LogTable) →
        GrowRunOf p scripts lines.old.items end splits tables → GrowRunOf p scripts lines.new.items end splits tables }
{
    order(lines);
}
