// The scripts of a number, as commands and as text.
ghost use Rattle.std.specs.Prelude.{◌≡◌, ◌<◌, ◌≤◌, ◌++◌, All, Ok, IfOk, OnOk, length, string_bytes};
ghost use Rattle.script_parser.specs.Grammar.{parsed};
ghost use Rattle.script_parser.specs.GrammarLaws.{script_text};
ghost use Rattle.script_gen.specs.Script.{IsGenerated, script, text_of_script};

use crate::draw::draw;
use crate::line::write_line;
use rand_pcg::Lcg64Xsh32;
use set_model::Command;
use std::alloc::{AllocError, Global};

/// How many commands a generated script has.
pub const COMMANDS: usize = 2_000;

/// The commands of the script of a number and a seat; the seat is 0 to 3.
///
/// They are drawn from the words of `rand_pcg`'s `Lcg64Xsh32::new(number, seat)`, four for each: what it does (of eight,
/// four are add, two del, one has and one move), its set, the second set of a move, which is never the first, and its key,
/// which is below 256 and is the seat modulo 4. The error is want of memory.
pub fn commands(alloc: Global, number: u64, seat: u32) -> Result<Vec<Command>, AllocError>
    requires { seat < 4 }
    ensures drawn { IfOk result (λ commands. commands.items ≡ script number seat) }
    ensures count { IfOk result (λ commands. length commands.items ≡ COMMANDS) }
    ensures generated { IfOk result (λ commands. All (IsGenerated seat) commands.items) }
{
    let mut commands = Vec::with_capacity(alloc, COMMANDS)?;
    let mut rng = Lcg64Xsh32::new(number, u64::from(seat));
    for _ in 0..COMMANDS {
        commands.push_reserved(draw(&mut rng, seat));
    }
    Ok(commands)
}

/// The text of the script of a number and a seat, 0 to 3: each command on a line of its own, with one space between its
/// words, ended by LF. It is read back as the commands of that script, and has at most 30,000 bytes.
/// The error is want of memory.
pub fn text(alloc: Global, number: u64, seat: u32) -> Result<Vec<u8>, AllocError>
    requires { seat < 4 }
    ensures exact { IfOk result (λ text. text.items ≡ text_of_script number seat) }
    ensures read_back { IfOk result (λ text. parsed text.items ≡ Ok (script number seat)) }
    ensures short { IfOk result (λ text. length text.items ≤ 30000) }
{
    let commands = commands(alloc, number, seat)?;
    let mut text = String::new(alloc);
    write_script(&mut text, &commands)?;
    Ok(text.into_bytes())
}

fn write_script(text: &mut String, commands: &[Command]) -> Result<(), AllocError>
    ensures { OnOk result (string_bytes text.new ≡ string_bytes text.old ++ script_text commands.now) }
{
    for command in commands {
        write_line(text, *command)?;
    }
    Ok(())
}
