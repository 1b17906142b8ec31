// The text of a run on a growing hash set.
ghost use Rattle.std.specs.Prelude.{◌≡◌, ◌≤◌, IfOk, string_bytes};
ghost use Rattle.grow_report.specs.Text.{text_of_buckets, text_of_grown};

use mv_history::LogTable;
use run_report::{Line, render};
use set_model::Catalogue;
use std::alloc::{AllocError, Global};
use std::fmt::Write;

/// The text of a run on a growing hash set: that of [`render`], with the line `buckets B splits K` ahead of the tables of the
/// logs, where K is the number of splits, at most 1,008, and B is 16 more.
///
/// The error is want of memory.
pub fn render_grown(
    alloc: Global,
    lines: &[Line],
    end: &Catalogue,
    splits: u32,
    tables: &[LogTable],
) -> Result<Vec<u8>, AllocError>
    requires few { splits ≤ 1008 }
    ensures { IfOk result (λ text. text.items ≡ text_of_grown lines.now end.now splits tables.now) }
{
    let mut text = render(alloc, lines, end, &[])?;
    let none = Catalogue::new(alloc)?;
    let tables = render(alloc, &[], &none, tables)?;
    let line = buckets_line(alloc, splits)?;
    text.extend_from_slice(line.as_bytes())?;
    text.extend_from_slice(&tables)?;
    Ok(text)
}

// The line on the buckets after so many splits.
fn buckets_line(alloc: Global, splits: u32) -> Result<String, AllocError>
    requires few { splits ≤ 1008 }
    ensures { IfOk result (λ line. string_bytes line ≡ text_of_buckets splits) }
{
    let buckets = 16 + splits;
    let mut line = String::new(alloc);
    write!(line, "buckets {buckets}")?;
    writeln!(line, " splits {splits}")?;
    Ok(line)
}
