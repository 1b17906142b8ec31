// Reading the scripts of blocks of files.
ghost use Rattle.std.specs.Prelude.{◌≡◌, ◌≤◌, ◌<◌, ◌-◌, ◌^◌, Ok, length, map, string_bytes, sum_by, All, IfOk, IfErr, MatchResult};
ghost use Rattle.std.specs.List.{AllZip, HoldsAt};
ghost use Rattle.block_parser.specs.BlockGrammar.{Refuses, parsed_blocks};
ghost use Rattle.script_files.specs.Reading.{list_of, text_of};
ghost use Rattle.script_files.specs.Scripts.{AllScripts, Answers, AnyStop, NoScripts, NoneFails, Parses, blocks as by_block};

use crate::parsing::take_values;
use crate::reading::read_texts;
use crate::stop::{MOST_BYTES, Stop};
use block_parser::set_blocks::Block;
use block_parser::{BlockFault, parse_blocks};
use host_io::Files;
use std::alloc::Global;
use std::thread;
use std::thread::Threads;

/// The scripts of blocks of the files of these names, in order. An error is the first reason why one has none: it can't be
/// opened or read, has too many bytes, has a faulty line or one command too many, or there is no memory.
pub fn read_block_scripts<R: Threads + Sync, F: Files>(
    rt: &R,
    alloc: Global,
    files: &mut F,
    names: &[String],
) -> Result<Vec<Vec<Block>>, Stop>
    requires few { length names.now ≤ 64 }
    ensures stop { MatchResult result (λ scripts. AllScripts parsed_blocks (F.texts files.old) (map string_bytes names.now) (map list_of scripts.items))
        (λ stop. AnyStop stop by_block (F.texts files.old) (map string_bytes names.now) (F.faults files.old) (F.faults files.new)) }
    ensures steady { IfErr result (λ stop. NoneFails stop (F.steady files.old) (F.texts files.old) (map string_bytes names.now)) }
    ensures len { IfOk result (λ scripts. length scripts.items ≡ length names.now) }
    ensures short { IfOk result (λ scripts. All (λ script. sum_by length script.items ≤ 65536) scripts.items) }
{
    let mut texts = Vec::new(alloc);
    let read = read_texts(alloc, files, names, &mut texts);
    let scripts = parse_texts(rt, alloc, &texts)?;
    read?;
    Ok(scripts)
}

// The scripts of blocks of these texts, each parsed in a thread of its own where one can be made. An error is the first
// fault.
fn parse_texts<R: Threads + Sync>(
    rt: &R,
    alloc: Global,
    texts: &[Vec<u8>],
) -> Result<Vec<Vec<Block>>, Stop>
    requires few { length texts.now ≤ 64 }
    requires short { All (λ text. length text.items ≤ MOST_BYTES) texts.now }
    ensures parsed { MatchResult result (λ scripts. AllZip (Parses parsed_blocks) (map text_of texts.now) (map list_of scripts.items))
        (λ stop. NoScripts stop by_block (map text_of texts.now)) }
    ensures short { IfOk result (λ scripts. All (λ script. sum_by length script.items ≤ 65536) scripts.items) }
{
    let parse_at = move |place: usize| -> Result<Vec<Block>, BlockFault>
        requires within { place < length texts.now }
        requires short { All (λ text. length text.items ≤ MOST_BYTES) texts.now }
        ensures exact { HoldsAt (λ text. Answers parsed_blocks list_of Refuses text.items result) texts.entry.now place }
        ensures few { IfOk result (λ blocks. sum_by length blocks.items ≤ 65536) }
    { parse(alloc, &texts[place]) };
    let parsed = thread::map_indices(rt, alloc, texts.len(), &parse_at)?;
    let mut scripts = Vec::with_capacity(alloc, parsed.len())?;
    match take_values(parsed, &mut scripts) {
        Ok(()) => Ok(scripts),
        Err(BlockFault::At { line, kind }) => Err(Stop::BlockScript {
            script: scripts.len() as u32,
            line,
            kind,
        }),
        Err(BlockFault::Memory) => Err(Stop::Memory),
    }
}

// The blocks of a script, or its first fault.
fn parse(alloc: Global, bytes: &[u8]) -> Result<Vec<Block>, BlockFault>
    requires { length bytes.now < 2 ^ 32 - 1 }
    ensures exact { MatchResult result (λ blocks. parsed_blocks bytes.now ≡ Ok blocks.items) (Refuses (parsed_blocks bytes.now)) }
    ensures few { IfOk result (λ blocks. sum_by length blocks.items ≤ 65536) }
{
    parse_blocks(alloc, bytes)
}
