// The line of a command.
ghost use Rattle.std.specs.Prelude.{◌≡◌, ◌++◌, OnOk, codes, decimal, string_bytes};
ghost use Rattle.set_model.specs.Names.{name_text};
ghost use Rattle.script_parser.specs.GrammarLaws.{line_text};

use set_model::{Command, Name};
use std::alloc::AllocError;
use std::fmt::Write;

/// Writes a command's line, ended by LF: its words, with one space between them. The error is want of memory.
pub fn write_line(text: &mut String, command: Command) -> Result<(), AllocError>
    ensures { OnOk result (string_bytes text.new ≡ string_bytes text.old ++ (line_text command ++ codes "\n")) }
{
    write_command(text, command)?;
    text.push_str("\n")
}

fn write_command(text: &mut String, command: Command) -> Result<(), AllocError>
    ensures { OnOk result (string_bytes text.new ≡ string_bytes text.old ++ line_text command) }
{
    match command {
        Command::Add { name, key } => write_set_and_key(text, "add", name, key),
        Command::Put { name, key, value } => {
            write_set_and_key(text, "put", name, key)?;
            write!(text, " {value}")
        }
        Command::Del { name, key } => write_set_and_key(text, "del", name, key),
        Command::Has { name, key } => write_set_and_key(text, "has", name, key),
        Command::Get { name, key } => write_set_and_key(text, "get", name, key),
        Command::Move {
            source,
            target,
            key,
        } => {
            write_set(text, "move", source)?;
            write_name_and_key(text, target, key)
        }
        Command::Pair { first, second, key } => {
            write_set(text, "pair", first)?;
            write_name_and_key(text, second, key)
        }
        Command::Size { name } => write_set(text, "size", name),
        Command::Next { name, key } => write_set_and_key(text, "next", name, key),
    }
}

// Writes a first word, a name and a key.
fn write_set_and_key(text: &mut String, verb: &str, name: Name, key: u32) -> Result<(), AllocError>
    ensures { OnOk result (string_bytes text.new
        ≡ string_bytes text.old ++ (verb.now ++ (codes " " ++ (name_text name ++ (codes " " ++ decimal key))))) }
{
    write_set(text, verb, name)?;
    write!(text, " {key}")
}

// Writes a first word and a name.
fn write_set(text: &mut String, verb: &str, name: Name) -> Result<(), AllocError>
    ensures { OnOk result (string_bytes text.new ≡ string_bytes text.old ++ (verb.now ++ (codes " " ++ name_text name))) }
{
    text.push_str(verb)?;
    text.push_str(" ")?;
    write_name(text, name)
}

// Writes a name and a key behind other words.
fn write_name_and_key(text: &mut String, name: Name, key: u32) -> Result<(), AllocError>
    ensures { OnOk result (string_bytes text.new ≡ string_bytes text.old ++ (codes " " ++ (name_text name ++ (codes " " ++ decimal key)))) }
{
    text.push_str(" ")?;
    write_name(text, name)?;
    write!(text, " {key}")
}

// Writes the letter and the digit of a name, as `run_report` does, on which this crate doesn't stand.
fn write_name(text: &mut String, name: Name) -> Result<(), AllocError>
    ensures { OnOk result (string_bytes text.new ≡ string_bytes text.old ++ name_text name) }
{
    let index = name.index();
    let kind = match index {
        0..10 => "l",
        10..20 => "h",
        _ => "t",
    };
    write!(text, "{kind}{}", index % 10)
}
