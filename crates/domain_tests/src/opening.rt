// Opening a domain, and the meeting of seats that did nothing.
ghost use Rattle.std.specs.Prelude.{◌≡◌, ◌<◌, length};

use crate::comparing::assert_same;
use mv_history::{AnyRules, View, Words};
use mv_layout::{Config, ConfigFault};
use mvrlu::{OpenFault, open, open_zeros};
use std::alloc::Global;
use std::test::Fail;

const GOOD: Config = Config {
    seats: 3,
    objects: 2,
    slots: 64,
    write_max: 16,
    low: 32,
    high: 48,
    base: 7,
};

// The fault of opening a domain of these numbers. Where there is none its seats meet at once.
fn fault_of(alloc: Global, config: Config, start: &[Words]) -> Option<OpenFault>
    requires sized { length start.now ≡ config.objects }
{
    match open::<AnyRules>(alloc, config, start) {
        Ok((domain, seats)) => {
            let closing = domain.meet(seats);
            let _ = closing.time();
            None
        }
        Err(fault) => Some(fault),
    }
}

// The same, of a domain whose words are all 0.
fn fault_of_zeros(alloc: Global, config: Config) -> Option<OpenFault> {
    match open_zeros::<AnyRules>(alloc, config) {
        Ok((domain, seats)) => {
            let closing = domain.meet(seats);
            let _ = closing.time();
            None
        }
        Err(fault) => Some(fault),
    }
}

// The time, the number of objects and the first object of a domain whose seats meet at once.
fn meet_at_once(
    alloc: Global,
    config: Config,
    start: &[Words],
) -> Result<(u64, u32, Words), OpenFault>
    requires sized { length start.now ≡ config.objects }
    requires some { 0 < config.objects }
{
    match open::<AnyRules>(alloc, config, start) {
        Ok((domain, seats)) => {
            let mut closing = domain.meet(seats);
            Ok((closing.time(), closing.objects(), closing.read(0)))
        }
        Err(fault) => Err(fault),
    }
}

#[test]
fn new_seats_meet(rt: HostRuntime) -> Result<(), Fail> {
    let start = [[1, 2, 3, 4, 5, 6], [0; 6]];
    let met = meet_at_once(rt.alloc(), GOOD, &start)?;
    assert_same(
        &rt,
        &met,
        &(7, 2, [1, 2, 3, 4, 5, 6]),
        "seats that meet at once",
    );
    Ok(())
}

// The same, of a domain whose words are all 0.
fn meet_zeros_at_once(alloc: Global, config: Config) -> Result<(u64, u32, Words), OpenFault>
    requires some { 0 < config.objects }
{
    match open_zeros::<AnyRules>(alloc, config) {
        Ok((domain, seats)) => {
            let mut closing = domain.meet(seats);
            Ok((closing.time(), closing.objects(), closing.read(0)))
        }
        Err(fault) => Err(fault),
    }
}

#[test]
fn zeros_are_opened_without_a_list(rt: HostRuntime) -> Result<(), Fail> {
    let met = meet_zeros_at_once(rt.alloc(), GOOD)?;
    assert_same(&rt, &met, &(7, 2, [0; 6]), "a domain of zeros");
    Ok(())
}

// Numbers, and what is wrong with them.
static NUMBERS: [(Config, Option<ConfigFault>); 9] = [
    (GOOD, None),
    (Config { seats: 1, ..GOOD }, None),
    (Config { seats: 0, ..GOOD }, Some(ConfigFault::Seats)),
    (
        Config {
            seats: 65,
            slots: 1,
            ..GOOD
        },
        Some(ConfigFault::Seats),
    ),
    (Config { slots: 63, ..GOOD }, Some(ConfigFault::Slots)),
    (
        Config {
            write_max: 0,
            low: 0,
            ..GOOD
        },
        Some(ConfigFault::WriteMax),
    ),
    (Config { low: 0, ..GOOD }, Some(ConfigFault::Marks)),
    (Config { high: 49, ..GOOD }, Some(ConfigFault::Marks)),
    (
        Config {
            base: mv_layout::LAST + 1,
            ..GOOD
        },
        Some(ConfigFault::Base),
    ),
];

// The fault of opening a domain of these numbers with two objects.
fn fault_with_two(alloc: Global, numbers: &Config) -> Option<OpenFault> {
    let config = Config {
        objects: 2,
        ..*numbers
    };
    fault_of(alloc, config, &[[0; 6]; 2])
}

// The fault of opening a domain with no objects.
fn fault_with_none(alloc: Global) -> Option<OpenFault> {
    fault_of(alloc, Config { objects: 0, ..GOOD }, &[])
}

#[test]
fn first_fault_of_the_numbers(rt: HostRuntime) -> Result<(), Fail> {
    for (numbers, fault) in &NUMBERS {
        let found = fault_with_two(rt.alloc(), numbers);
        assert_same(&rt, &found, &fault.map(OpenFault::Config), "numbers");
        let found = fault_of_zeros(rt.alloc(), *numbers);
        assert_same(
            &rt,
            &found,
            &fault.map(OpenFault::Config),
            "numbers of zeros",
        );
    }
    let wanted = Some(OpenFault::Config(ConfigFault::Objects));
    assert_same(&rt, &fault_with_none(rt.alloc()), &wanted, "no objects");
    let none = Config { objects: 0, ..GOOD };
    assert_same(&rt, &fault_of_zeros(rt.alloc(), none), &wanted, "no zeros");
    Ok(())
}
