// The text of a run.
ghost use Rattle.std.specs.Prelude.{◌≡◌, ◌++◌, ◌<◌, IfOk, OnOk, codes, decimal, length, string_bytes};
ghost use Rattle.std.specs.List.{flat_map, zip};
ghost use Rattle.set_model.specs.Catalogue.{map_of, IsCatalogue};
ghost use Rattle.set_model.specs.Names.{name_text};
ghost use Rattle.run_report.specs.Text.{
  text_of_key,
  text_of_set,
  text_of_sets,
  text_of_table,
  text_of_tables,
  text_of_run,
};

use crate::line::Line;
use crate::lines::{append, write_lines};
use itoa::Buffer;
use mv_history::LogTable;
use set_model::Catalogue;
use std::alloc::{AllocError, Global};

// How many sets there are.
pub(crate) const NAMES: u32 = 30;

/// The text of a run: the lines as they stand, each set of the catalogue that isn't empty, and the log tables of the seats, from seat 0 on.
///
/// A line is `S.N cT R` for a commit and `S.N rT R` for a read: the seat, the number, the printed time and the reply,
/// which is `yes`, `no`, `full` or `worn`, two of `yes` and `no`, a number, or `none` where there is no key.
/// A set is its name and its rising keys; a key whose value is not 0 is followed by `=` and the value.
/// A table is `log S live A freed B back C commits D aborts E rests F`. Each line ends with LF.
/// The error is want of memory.
pub fn render(
    alloc: Global,
    lines: &[Line],
    end: &Catalogue,
    tables: &[LogTable],
) -> Result<Vec<u8>, AllocError>
    ensures { IfOk result (λ text. text.items ≡ text_of_run lines.now end.now tables.now) }
{
    let mut text = Vec::new(alloc);
    write_lines(&mut text, lines)?;
    let rest = text_behind(alloc, end, tables)?;
    append(&mut text, rest.as_bytes())?;
    Ok(text)
}

/// The text behind the lines.
pub(crate) fn text_behind(
    alloc: Global,
    end: &Catalogue,
    tables: &[LogTable],
) -> Result<String, AllocError>
    ensures { IfOk result (λ rest. string_bytes rest ≡ text_of_sets 0 end.now ++ text_of_tables 0 tables.now) }
{
    let mut text = String::new(alloc);
    write_sets(&mut text, end)?;
    write_tables(&mut text, tables)?;
    Ok(text)
}

// Writes a number in decimal digits, which are made on the stack.
#[inline(always)]
fn write_number(text: &mut String, number: u64) -> Result<(), AllocError>
    ensures { OnOk result (string_bytes text.new ≡ string_bytes text.old ++ decimal number) }
{
    let mut digits = Buffer::new();
    text.push_str(digits.format(number))
}

// Writes a label and the number behind it.
#[inline(always)]
fn write_labelled(text: &mut String, label: &str, number: u64) -> Result<(), AllocError>
    ensures { OnOk result (string_bytes text.new ≡ string_bytes text.old ++ label.now ++ decimal number) }
{
    text.push_str(label)?;
    write_number(text, number)
}

// Writes a space, a number and the line's end.
pub(crate) fn write_last(text: &mut String, number: u64) -> Result<(), AllocError>
    ensures { OnOk result (string_bytes text.new ≡ string_bytes text.old ++ codes " " ++ decimal number ++ codes "\n") }
{
    write_labelled(text, " ", number)?;
    text.push_str("\n")
}

fn write_sets(text: &mut String, end: &Catalogue) -> Result<(), AllocError>
    ensures { OnOk result (string_bytes text.new ≡ string_bytes text.old ++ text_of_sets 0 end.now) }
{
    for name in 0..NAMES {
        write_set(text, name, end)?;
    }
    Ok(())
}

// Writes a set, and nothing where it is empty.
fn write_set(text: &mut String, name: u32, end: &Catalogue) -> Result<(), AllocError>
    requires { name < 30 }
    ensures text { OnOk result (string_bytes text.new ≡ string_bytes text.old ++ text_of_set name (map_of name end.now)) }
    ensures lawful { IsCatalogue end.now }
{
    let keys = end.keys(name);
    if keys.is_empty() {
        return Ok(());
    }
    write_name(text, name)?;
    write_keys(text, keys, end.values(name))?;
    text.push_str("\n")
}

pub(crate) fn write_name(text: &mut String, name: u32) -> Result<(), AllocError>
    ensures { OnOk result (string_bytes text.new ≡ string_bytes text.old ++ name_text name) }
{
    let kind = match name {
        0..10 => "l",
        10..20 => "h",
        _ => "t",
    };
    write_labelled(text, kind, (name % 10).into())
}

fn write_keys(text: &mut String, keys: &[u32], values: &[u64]) -> Result<(), AllocError>
    requires { length values.now ≡ length keys.now }
    ensures { OnOk result (string_bytes text.new ≡ string_bytes text.old ++ flat_map text_of_key (zip keys.now values.now)) }
{
    for (i, key) in keys.iter().enumerate() {
        write_key(text, *key, values[i])?;
    }
    Ok(())
}

fn write_key(text: &mut String, key: u32, value: u64) -> Result<(), AllocError>
    ensures { OnOk result (string_bytes text.new ≡ string_bytes text.old ++ text_of_key (key, value)) }
{
    write_labelled(text, " ", key.into())?;
    if value == 0 {
        return Ok(());
    }
    write_labelled(text, "=", value)
}

fn write_tables(text: &mut String, tables: &[LogTable]) -> Result<(), AllocError>
    ensures { OnOk result (string_bytes text.new ≡ string_bytes text.old ++ text_of_tables 0 tables.now) }
{
    for (seat, table) in tables.iter().enumerate() {
        write_table(text, seat, table)?;
    }
    Ok(())
}

fn write_table(text: &mut String, seat: usize, table: &LogTable) -> Result<(), AllocError>
    ensures { OnOk result (string_bytes text.new ≡ string_bytes text.old ++ text_of_table seat table.now) }
{
    write_labelled(text, "log ", seat as u64)?;
    write_slots(text, table)?;
    write_sections(text, table)?;
    text.push_str("\n")
}

// Writes how many slots are live and how many were freed, and how many write-backs were finished.
fn write_slots(text: &mut String, table: &LogTable) -> Result<(), AllocError>
    ensures { OnOk result (string_bytes text.new ≡ string_bytes text.old ++ codes " live " ++ decimal table.now.live
        ++ codes " freed " ++ decimal table.now.freed ++ codes " back " ++ decimal table.now.back) }
{
    write_labelled(text, " live ", table.live)?;
    write_labelled(text, " freed ", table.freed)?;
    write_labelled(text, " back ", table.back)
}

// Writes how many commits, aborts and rests there were.
fn write_sections(text: &mut String, table: &LogTable) -> Result<(), AllocError>
    ensures { OnOk result (string_bytes text.new ≡ string_bytes text.old ++ codes " commits " ++ decimal table.now.commits
        ++ codes " aborts " ++ decimal table.now.aborts ++ codes " rests " ++ decimal table.now.rests) }
{
    write_labelled(text, " commits ", table.commits)?;
    write_labelled(text, " aborts ", table.aborts)?;
    write_labelled(text, " rests ", table.rests)
}
