//! Two threads count up one counter, and the count is printed.
//!
//! `run_counters` of `counter` is proved to end with the opening count and one for each that a thread tells.
#![tactic(auto)]

use counter::{Counter, run_counters};
use mv_history::View;
use std::io;
use std::process::ExitCode;

fn main(rt: HostRuntime) -> io::Result<ExitCode> {
    let counters = vec![in rt.alloc();
        Counter {
            asked: 1000,
            done: 0
        },
        Counter {
            asked: 1000,
            done: 0
        },
    ];
    let Ok(counters) = counters else {
        eprintln!(rt; "no memory for the counters")?;
        return Ok(ExitCode::FAILURE);
    };
    let Ok((mut closing, counters)) = run_counters(&rt, rt.alloc(), 7, counters) else {
        eprintln!(rt; "no memory for the domain")?;
        return Ok(ExitCode::FAILURE);
    };
    for counter in &counters {
        println!(rt; "told done {}", counter.done)?;
    }
    println!(rt; "last count {}", closing.read(0)[0])?;
    Ok(ExitCode::SUCCESS)
}
