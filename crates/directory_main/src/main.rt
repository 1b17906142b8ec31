//! Three threads move users of one directory to and fro, two of them the same user, and look them up.
//!
//! It prints what every interleaving gives: how many moves were made, that each user was seen with its id, and on which shelf the
//! users are that nobody moves. `run_in_domain` of `directory_run` is proved to give these.
#![tactic(auto)]

use directory::shelf_of;
use directory_run::{ClerkOrder, idle_clerk, run_in_domain};
use std::io;
use std::process::ExitCode;

fn main(rt: HostRuntime) -> io::Result<ExitCode> {
    let clerks = vec![in rt.alloc();
        idle_clerk(ClerkOrder {
            user: 2,
            moves: 300
        }),
        idle_clerk(ClerkOrder {
            user: 2,
            moves: 300
        }),
        idle_clerk(ClerkOrder {
            user: 7,
            moves: 300
        }),
    ];
    let Ok(clerks) = clerks else {
        eprintln!(rt; "no memory for the clerks")?;
        return Ok(ExitCode::FAILURE);
    };
    let Ok((mut closing, clerks)) = run_in_domain(&rt, rt.alloc(), clerks) else {
        eprintln!(rt; "no memory for the domain")?;
        return Ok(ExitCode::FAILURE);
    };
    for clerk in &clerks {
        println!(rt;
            "user {} moved {} id {}",
            clerk.asked.user, clerk.moved, clerk.seen.id
        )?;
    }
    println!(rt; "user 3 on shelf {}", shelf_of(&mut closing, 3))?;
    Ok(ExitCode::SUCCESS)
}
