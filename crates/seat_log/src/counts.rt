// What a log has come to.
ghost use Rattle.std.specs.Prelude.{◌≡◌};
ghost use Rattle.mv_layout.specs.declared.Config.{Config};
ghost use Rattle.reader_marks.specs.mv_core.declared.view.Knowledge.{Knowledge};
ghost use Rattle.seat_log.specs.Stands.{Stands};
ghost use Rattle.seat_log.specs.Tables.{table_of, Counts};

use crate::log::Log;
use mv_history::LogTable;

/// The table of the log's counts. Where the log stands for a pass they are those of the pass.
pub fn table(log: &Log) -> LogTable
    ensures table { result ≡ table_of log.now }
    ensures counts { (c : Config) (v : Knowledge) → Stands c v log.now → Counts v result }
{
    LogTable {
        live: log.live.len() as u64,
        freed: log.freed,
        back: log.back,
        commits: log.commits,
        aborts: log.aborts,
        rests: log.rests,
    }
}
