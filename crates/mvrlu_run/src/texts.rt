// The text that is asked for.
ghost use Rattle.std.specs.Prelude.{IfErr, MatchResult};
ghost use Rattle.run_words.specs.Words.{IsFit, asks_of};
ghost use Rattle.run_ends.specs.script_files.Scripts.{AnyStop, NoneFails};
ghost use Rattle.mvrlu_run.specs.Told.{IsTextFor, files_of, reading_of};

use block_run::make_blocks;
use grow_run::make_grown;
use host_io::{Files, Gate};
use pool_run::make_pool;
use replay_run::make_replay;
use run_ends::LeftDomain;
use run_ends::script_files::Stop;
use run_words::Request;
use script_gen::text;
use script_run::{make_run, work_text};
use std::alloc::Global;
use std::sync::Wait;
use std::thread::Threads;

/// A text, and what is left of the domain that was run for it.
#[derive(Drop)]
pub struct Made {
    pub text: Vec<u8>,
    pub closed: LeftDomain,
}

/// Makes the text that is asked for, whole. An error is why there is none: a file has no script, or there is no memory.
pub fn make_text<R: Threads + Wait + Sync, F: Files, G: Gate>(
    rt: &R,
    alloc: Global,
    request: Request<'_>,
    files: &mut F,
    gate: &G,
) -> Result<Made, Stop>
    requires { IsFit request }
    ensures made { MatchResult result (λ made. IsTextFor (asks_of request.entry) (F.texts files.old) made.closed made.text.items)
        (λ stop. AnyStop stop (reading_of (asks_of request.entry)) (F.texts files.old) (files_of (asks_of request.entry))
        (F.faults files.old) (F.faults files.new)) }
    ensures steady { IfErr result (λ stop. NoneFails stop (F.steady files.old) (F.texts files.old) (files_of (asks_of request.entry))) }
{
    match request {
        Request::Run {
            options,
            files: names,
        } => {
            let (text, closing) = make_run(rt, alloc, options, names, files, gate)?;
            let closed = LeftDomain::Sets(closing);
            Ok(Made { text, closed })
        }
        Request::Gen { number, seat } => Ok(Made {
            text: text(alloc, number, seat)?,
            closed: LeftDomain::No,
        }),
        Request::Block { files: names } => {
            let (text, closing) = make_blocks(rt, alloc, names, files, gate)?;
            let closed = LeftDomain::Blocks(closing);
            Ok(Made { text, closed })
        }
        Request::Pool {
            seats,
            files: names,
        } => {
            let (text, closing) = make_pool(rt, alloc, seats, names, files, gate)?;
            let closed = LeftDomain::Sets(closing);
            Ok(Made { text, closed })
        }
        Request::Grow { files: names } => {
            let (text, closing) = make_grown(rt, alloc, names, files, gate)?;
            let closed = LeftDomain::Grown(closing);
            Ok(Made { text, closed })
        }
        Request::Replay { files: names } => Ok(Made {
            text: make_replay(alloc, names, files)?,
            closed: LeftDomain::No,
        }),
        Request::Work { number } => {
            let (text, closing) = work_text(rt, alloc, number, gate)?;
            let closed = LeftDomain::Sets(closing);
            Ok(Made { text, closed })
        }
    }
}
