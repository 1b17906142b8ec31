// Reading the scripts of files.
ghost use Rattle.std.specs.Prelude.{◌≡◌, ◌≤◌, ◌<◌, ◌-◌, ◌^◌, Ok, length, map, string_bytes, All, IfOk, IfErr, MatchResult};
ghost use Rattle.std.specs.List.{AllZip, HoldsAt};
ghost use Rattle.script_files.specs.Reading.{list_of, text_of};
ghost use Rattle.script_parser.specs.Grammar.{Refuses};
ghost use Rattle.set_model.specs.declared.script.TheConstants.{MOST_COMMANDS};
ghost use Rattle.script_files.specs.Scripts.{AllScripts, Answers, AnyStop, AreOf, NoScripts, NoneFails, Parses, commands as by_command, parsed_by};

use crate::parsing::take_values;
use crate::reading::read_texts;
use crate::stop::{MOST_BYTES, Stop};
use grow_script::parse_grow;
use host_io::Files;
use script_parser::{ScriptFault, parse};
use set_model::Command;
use std::alloc::Global;
use std::thread;
use std::thread::Threads;

/// What the scripts of commands are.
#[derive(Clone, Copy)]
pub enum Grammar {
    /// Those of the sets.
    Sets,
    /// Those of a growing set.
    Growing,
}

/// The scripts of the files of these names in this grammar, in order. An error is the first reason why one has none: it can't be opened
/// or read, has too many bytes, has a faulty line or one command too many, or there is no memory.
pub fn read_scripts<R: Threads + Sync, F: Files>(
    rt: &R,
    alloc: Global,
    files: &mut F,
    names: &[String],
    grammar: Grammar,
) -> Result<Vec<Vec<Command>>, Stop>
    requires few { length names.now ≤ 64 }
    ensures stop { MatchResult result (λ scripts. AllScripts (parsed_by grammar) (F.texts files.old) (map string_bytes names.now) (map list_of scripts.items))
        (λ stop. AnyStop stop (by_command grammar) (F.texts files.old) (map string_bytes names.now) (F.faults files.old) (F.faults files.new)) }
    ensures steady { IfErr result (λ stop. NoneFails stop (F.steady files.old) (F.texts files.old) (map string_bytes names.now)) }
    ensures len { IfOk result (λ scripts. length scripts.items ≡ length names.now) }
    ensures short { IfOk result (λ scripts. All (λ script. length script.items ≤ 65536) scripts.items) }
    ensures fit { IfOk result (λ scripts. All (λ script. AreOf grammar script.items) scripts.items) }
{
    let mut texts = Vec::new(alloc);
    let read = read_texts(alloc, files, names, &mut texts);
    let scripts = parse_texts(rt, alloc, &texts, grammar)?;
    read?;
    Ok(scripts)
}

// The scripts of these texts, each parsed in a thread of its own where one can be made. An error is the first fault.
fn parse_texts<R: Threads + Sync>(
    rt: &R,
    alloc: Global,
    texts: &[Vec<u8>],
    grammar: Grammar,
) -> Result<Vec<Vec<Command>>, Stop>
    requires few { length texts.now ≤ 64 }
    requires short { All (λ text. length text.items ≤ MOST_BYTES) texts.now }
    ensures parsed { MatchResult result (λ scripts. AllZip (Parses (parsed_by grammar)) (map text_of texts.now) (map list_of scripts.items))
        (λ stop. NoScripts stop (by_command grammar) (map text_of texts.now)) }
    ensures short { IfOk result (λ scripts. All (λ script. length script.items ≤ 65536) scripts.items) }
    ensures fit { IfOk result (λ scripts. All (λ script. AreOf grammar script.items) scripts.items) }
{
    let parse_at = move |place: usize| -> Result<Vec<Command>, ScriptFault>
        requires within { place < length texts.now }
        requires short { All (λ text. length text.items ≤ MOST_BYTES) texts.now }
        ensures exact { HoldsAt (λ text. Answers (parsed_by grammar) list_of Refuses text.items result) texts.entry.now place }
        ensures few { IfOk result (λ commands. length commands.items ≤ MOST_COMMANDS) }
        ensures fit { IfOk result (λ commands. AreOf grammar commands.items) }
    { parse_by(grammar, alloc, &texts[place]) };
    let parsed = thread::map_indices(rt, alloc, texts.len(), &parse_at)?;
    let mut scripts = Vec::with_capacity(alloc, parsed.len())?;
    match take_values(parsed, &mut scripts) {
        Ok(()) => Ok(scripts),
        Err(ScriptFault::At { line, kind }) => Err(Stop::Script {
            script: scripts.len() as u32,
            line,
            kind,
        }),
        Err(ScriptFault::Memory) => Err(Stop::Memory),
    }
}

// The commands of a script in this grammar, or its first fault.
fn parse_by(grammar: Grammar, alloc: Global, bytes: &[u8]) -> Result<Vec<Command>, ScriptFault>
    requires { length bytes.now < 2 ^ 32 - 1 }
    ensures exact { MatchResult result (λ commands. parsed_by grammar bytes.now ≡ Ok commands.items) (Refuses (parsed_by grammar bytes.now)) }
    ensures few { IfOk result (λ commands. length commands.items ≤ MOST_COMMANDS) }
    ensures fit { IfOk result (λ commands. AreOf grammar commands.items) }
{
    match grammar {
        Grammar::Sets => parse(alloc, bytes),
        Grammar::Growing => parse_grow(alloc, bytes),
    }
}
