//! Eight accounts over a domain of four seats, on four threads: two threads move amounts between the
//! accounts, and two read the sum of all of them, all at once.
//!
//! It prints what every interleaving gives: how many transfers were made, how many sums were read, the
//! least and the greatest of them, and the last sum, after all seats have met. `run_in_domain` of
//! `accounts_run` is proved to give these; how to use a domain is explained there. With the word
//! `--refused` it prints besides how many attempts were refused, which differs from run to run.
#![tactic(auto)]

use accounts::total;
use accounts_run::{Teller, TellerOrder, run_in_domain, tellers};
use std::process::ExitCode;
use std::{env, io};

// What each thread is asked for. Each account opens with 100.
const MOVER: TellerOrder = TellerOrder {
    transfers: 300,
    sums: 0,
};

const READER: TellerOrder = TellerOrder {
    transfers: 0,
    sums: 300,
};

const BALANCE: u32 = 100;

// What the tellers did together.
#[derive(Clone, Copy)]
struct Totals {
    transfers: u64,
    refused: u64,
    sums: u64,
    least: u64,
    greatest: u64,
}

fn totals_of(tellers: &[Teller]) -> Totals {
    let mut totals = Totals {
        transfers: 0,
        refused: 0,
        sums: 0,
        least: u64::MAX,
        greatest: 0,
    };
    for teller in tellers {
        totals.transfers = totals
            .transfers
            .saturating_add(teller.moved.transfers as u64);
        totals.refused = totals.refused.saturating_add(teller.moved.refused);
        for sum in &teller.read {
            totals.sums = totals.sums.saturating_add(1);
            totals.least = totals.least.min(sum.total);
            totals.greatest = totals.greatest.max(sum.total);
        }
    }
    totals
}

fn main(rt: HostRuntime) -> io::Result<ExitCode> {
    let Ok(tellers) = tellers(rt.alloc(), &[MOVER, MOVER, READER, READER]) else {
        eprintln!(rt; "no memory for the domain")?;
        return Ok(ExitCode::FAILURE);
    };
    let Ok((mut closing, tellers)) = run_in_domain(&rt, rt.alloc(), BALANCE, tellers) else {
        eprintln!(rt; "no memory for the domain")?;
        return Ok(ExitCode::FAILURE);
    };
    let totals = totals_of(&tellers);
    println!(rt; "transfers {}", totals.transfers)?;
    println!(rt;
        "sums {} least {} greatest {}",
        totals.sums, totals.least, totals.greatest
    )?;
    println!(rt; "last sum {}", total(&mut closing))?;
    if env::args(&rt)?
        .skip(1)
        .any(|word| word.as_str() == "--refused")
    {
        println!(rt; "refused {}", totals.refused)?;
    }
    Ok(ExitCode::SUCCESS)
}
