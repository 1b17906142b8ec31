// The summary of a run.
ghost use Rattle.std.specs.Prelude.{◌≡◌, ◌++◌, ◌<◌, IfOk, OnOk, codes, count_by, decimal, length, string_bytes};
ghost use Rattle.set_model.specs.Catalogue.{map_of, IsCatalogue};
ghost use Rattle.set_model.specs.Names.{name_text};
ghost use Rattle.run_report.specs.Summary.{is_yes, is_no, is_worn, is_made, text_of_count, text_of_size, text_of_sizes, summary};

use crate::line::Line;
use crate::text::{NAMES, write_last, write_name};
use section_work::Place;
use set_model::{Catalogue, Reply};
use std::alloc::{AllocError, Global};

/// The summary of a run of the scripts of a number: how many lines reply `yes`, `no` and `worn`, how many are commits, and how many keys
/// each set of the catalogue has that isn't empty.
///
/// Its lines are `work NUMBER`, `yes Y`, `no Z`, `worn W`, `commits C`, and for each set, in the order of the 30 names, its name and its size.
/// Each line ends with LF. The error is want of memory.
pub fn summary(
    alloc: Global,
    number: u64,
    lines: &[Line],
    end: &Catalogue,
) -> Result<Vec<u8>, AllocError>
    ensures { IfOk result (λ text. text.items ≡ summary number lines.now end.now) }
{
    let mut text = String::new(alloc);
    write_count(&mut text, "work", number)?;
    write_replies(&mut text, lines)?;
    write_count(&mut text, "commits", count_commits(lines))?;
    write_sizes(&mut text, end)?;
    Ok(text.into_bytes())
}

// Writes how many lines reply `yes`, `no` and `worn`.
fn write_replies(text: &mut String, lines: &[Line]) -> Result<(), AllocError>
    ensures { OnOk result (string_bytes text.new ≡ string_bytes text.old ++ text_of_count (codes "yes") (count_by is_yes lines.now)
        ++ text_of_count (codes "no") (count_by is_no lines.now) ++ text_of_count (codes "worn") (count_by is_worn lines.now)) }
{
    write_count(text, "yes", count_yes(lines))?;
    write_count(text, "no", count_no(lines))?;
    write_count(text, "worn", count_worn(lines))
}

// Writes a line of a word and a number.
fn write_count(text: &mut String, word: &str, count: u64) -> Result<(), AllocError>
    ensures { OnOk result (string_bytes text.new ≡ string_bytes text.old ++ text_of_count word.now count) }
{
    text.push_str(word)?;
    write_last(text, count)
}

fn count_yes(lines: &[Line]) -> u64
    ensures { result ≡ count_by is_yes lines.now }
{
    let mut count = 0;
    for line in lines {
        if matches!(line.reply, Reply::Yes) {
            count += 1;
        }
    }
    count
}

fn count_no(lines: &[Line]) -> u64
    ensures { result ≡ count_by is_no lines.now }
{
    let mut count = 0;
    for line in lines {
        if matches!(line.reply, Reply::No) {
            count += 1;
        }
    }
    count
}

fn count_worn(lines: &[Line]) -> u64
    ensures { result ≡ count_by is_worn lines.now }
{
    let mut count = 0;
    for line in lines {
        if matches!(line.reply, Reply::Worn) {
            count += 1;
        }
    }
    count
}

fn count_commits(lines: &[Line]) -> u64
    ensures { result ≡ count_by is_made lines.now }
{
    let mut count = 0;
    for line in lines {
        if is_commit(line) {
            count += 1;
        }
    }
    count
}

fn is_commit(line: &Line) -> bool
    ensures { result ≡ is_made line.now }
{
    matches!(line.place, Place::Commit(_))
}

fn write_sizes(text: &mut String, end: &Catalogue) -> Result<(), AllocError>
    ensures { OnOk result (string_bytes text.new ≡ string_bytes text.old ++ text_of_sizes 0 end.now) }
{
    for name in 0..NAMES {
        write_size(text, name, end)?;
    }
    Ok(())
}

// Writes how many keys a set has, and nothing where it is empty.
fn write_size(text: &mut String, name: u32, end: &Catalogue) -> Result<(), AllocError>
    requires { name < 30 }
    ensures text { OnOk result (string_bytes text.new ≡ string_bytes text.old ++ text_of_size name (map_of name end.now)) }
    ensures lawful { IsCatalogue end.now }
{
    let size = end.keys(name).len();
    if size == 0 {
        return Ok(());
    }
    write_name(text, name)?;
    write_last(text, size as u64)
}
