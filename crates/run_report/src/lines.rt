// The text of lines as they stand.
ghost use Rattle.std.specs.Prelude.{◌≡◌, ◌++◌, OnOk};
ghost use Rattle.std.specs.List.{flat_map};
ghost use Rattle.run_report.specs.Text.{text_of_line};

use crate::line::Line;
use crate::row::{ROW, put_line};
use std::alloc::AllocError;

/// Appends the text of each line, which is made in a row of bytes on the stack.
pub(crate) fn write_lines(text: &mut Vec<u8>, lines: &[Line]) -> Result<(), AllocError>
    ensures { OnOk result (text.new.items ≡ text.old.items ++ flat_map text_of_line lines.now) }
{
    let mut row = [0; ROW];
    for line in lines {
        let start = put_line(&mut row, line);
        append(text, &row[start..])?;
    }
    Ok(())
}

/// Appends these bytes.
#[inline(always)]
pub(crate) fn append(text: &mut Vec<u8>, bytes: &[u8]) -> Result<(), AllocError>
    ensures { OnOk result (text.new.items ≡ text.old.items ++ bytes.now) }
{
    text.extend_from_slice(bytes)
}
