// Seats of the sets that own a share of their domain: what each call answers, by the catalogue alone.
use crate::comparing::{assert_same, must};
use mv_layout::ConfigFault;
use section_work::Place;
use section_work::Place::{Commit, Read};
use set_blocks::{Block, BlockAttempt};
use set_catalog::CommandAttempt;
use set_model::{Command, Name, Reply};
use set_seats::{KeyValue, OpenSets, SetSeat, SetsFault, Walked, open_set_seats};
use std::alloc::{AllocError, Global};
use std::process::Abort;
use std::test::Fail;

const TWO: OpenSets = OpenSets {
    seats: 2,
    objects: 256,
    slots: 64,
    opening_time: 0,
};

// The set of this index.
fn name(rt: &impl Abort, index: u32) -> Name {
    Name::new(index).expect(rt, "an index below 30")
}

// The two seats of a new domain.
fn open_two(rt: &impl Abort, alloc: Global) -> Result<(SetSeat, SetSeat), Fail> {
    let Ok(mut seats) = open_set_seats(alloc, TWO) else {
        return Err(AllocError.into());
    };
    let second = seats.pop().expect(rt, "a second seat");
    let first = seats.pop().expect(rt, "a first seat");
    must(rt, seats.is_empty(), "two seats");
    Ok((first, second))
}

// Looks that a command was done at this place, with this reply.
fn expect(
    rt: &impl Abort,
    seat: SetSeat,
    command: &Command,
    reply: Reply,
    place: Place,
) -> SetSeat {
    let (seat, answer) = seat.attempt(command);
    let CommandAttempt::Done {
        reply: said,
        place: at,
    } = answer
    else {
        panic!(rt; "given up");
    };
    assert_same(rt, &(said, at), &(reply, place), "the reply and the place");
    seat
}

// Changes of a key in a set, which are the entries behind this time.
fn change_key(rt: &impl Abort, seat: SetSeat, name: Name, after: u32) -> SetSeat {
    let time = after as u64;
    let key = 7;
    let value = u64::MAX;
    let add = Command::Add { name, key };
    let put = Command::Put { name, key, value };
    let get = Command::Get { name, key };
    let del = Command::Del { name, key };
    let seat = expect(rt, seat, &del, Reply::No, Read(time));
    let seat = expect(rt, seat, &add, Reply::Yes, Commit(time + 1));
    let seat = expect(rt, seat, &add, Reply::No, Read(time + 1));
    let seat = expect(rt, seat, &put, Reply::Yes, Commit(time + 2));
    let seat = expect(rt, seat, &put, Reply::No, Read(time + 2));
    let seat = expect(rt, seat, &get, Reply::Value { value }, Read(time + 2));
    let seat = expect(rt, seat, &del, Reply::Yes, Commit(time + 3));
    expect(rt, seat, &get, Reply::NoKey, Read(time + 3))
}

// Questions of a set that has the key 9 and no other, in the state of this time.
fn ask_of_nine(rt: &impl Abort, seat: SetSeat, name: Name, time: u64) -> SetSeat {
    let has = Command::Has { name, key: 9 };
    let lacks = Command::Has { name, key: 8 };
    let next = Command::Next { name, key: 0 };
    let none = Command::Next { name, key: 10 };
    let size = Command::Size { name };
    let seat = expect(rt, seat, &has, Reply::Yes, Read(time));
    let seat = expect(rt, seat, &lacks, Reply::No, Read(time));
    let seat = expect(rt, seat, &next, Reply::Key { key: 9 }, Read(time));
    let seat = expect(rt, seat, &none, Reply::NoKey, Read(time));
    expect(rt, seat, &size, Reply::Count { count: 1 }, Read(time))
}

#[test]
fn commands_reply_as_the_catalogue(rt: HostRuntime) -> Result<(), Fail> {
    let (first, second) = open_two(&rt, rt.alloc())?;
    let first = change_key(&rt, first, name(&rt, 3), 0);
    let first = change_key(&rt, first, name(&rt, 13), 3);
    let second = change_key(&rt, second, name(&rt, 23), 6);
    let (first, table) = first.count();
    assert_same(&rt, &table.commits, &6, "commits of the first seat");
    let (_first, tidy) = first.tidy();
    assert_same(&rt, &tidy.live, &0, "a log that is emptied");
    let (_second, table) = second.count();
    assert_same(&rt, &table.commits, &3, "commits of the second seat");
    Ok(())
}

#[test]
fn seats_of_a_domain_see_each_others_keys(rt: HostRuntime) -> Result<(), Fail> {
    let (first, second) = open_two(&rt, rt.alloc())?;
    let (source, target, key) = (name(&rt, 3), name(&rt, 23), 9);
    let add = Command::Add { name: source, key };
    let away = Command::Move {
        source,
        target,
        key,
    };
    let pair = Command::Pair {
        first: source,
        second: target,
        key,
    };
    let there = Reply::Both {
        first: false,
        second: true,
    };
    let second = expect(&rt, second, &add, Reply::Yes, Commit(1));
    let first = ask_of_nine(&rt, first, source, 1);
    let first = expect(&rt, first, &away, Reply::Yes, Commit(2));
    let _first = expect(&rt, first, &away, Reply::No, Read(2));
    let second = ask_of_nine(&rt, second, target, 2);
    let _second = expect(&rt, second, &pair, there, Read(2));
    Ok(())
}

// What a block of two commands came to.
fn attempt_two(
    rt: &impl Abort,
    alloc: Global,
    seat: SetSeat,
    commands: [Command; 2],
) -> Result<(SetSeat, Reply, Reply, Place), AllocError> {
    let block = Block::new(Vec::from_array(alloc, commands)?).expect(rt, "a block");
    let (seat, answer) = seat.attempt_block(&block);
    let BlockAttempt::Done { replies, place } = answer else {
        panic!(rt; "given up");
    };
    must(rt, replies.len() == 2, "two replies");
    Ok((seat, replies.get(0), replies.get(1), place))
}

#[test]
fn a_block_is_one_entry_or_one_read(rt: HostRuntime) -> Result<(), Fail> {
    let (first, second) = open_two(&rt, rt.alloc())?;
    let (table, tree) = (name(&rt, 10), name(&rt, 20));
    let add = Command::Add {
        name: table,
        key: 1,
    };
    let (source, target) = (table, tree);
    let away = Command::Move {
        source,
        target,
        key: 1,
    };
    let (_first, added, moved, place) = attempt_two(&rt, rt.alloc(), first, [add, away])?;
    assert_same(
        &rt,
        &(added, moved, place),
        &(Reply::Yes, Reply::Yes, Commit(1)),
        "a change",
    );
    let gone = Command::Has {
        name: table,
        key: 1,
    };
    let there = Command::Has { name: tree, key: 1 };
    let (_second, one, other, place) = attempt_two(&rt, rt.alloc(), second, [gone, there])?;
    assert_same(
        &rt,
        &(one, other, place),
        &(Reply::No, Reply::Yes, Read(1)),
        "a read",
    );
    Ok(())
}

const fn entry(key: u32, value: u64) -> KeyValue {
    KeyValue { key, value }
}

// Looks that a walk with this room finds this, and leaves the room so.
fn expect_walk(
    rt: &impl Abort,
    seat: SetSeat,
    name: Name,
    from: u32,
    room: &mut [KeyValue],
    wanted: (Walked, &[KeyValue]),
) -> SetSeat {
    let (seat, walked) = seat.walk(name, from, room);
    assert_same(rt, &walked, &wanted.0, "a walk");
    must(rt, *room == *wanted.1, "the entries of a walk");
    seat
}

#[test]
fn a_walk_has_the_entries_of_one_state(rt: HostRuntime) -> Result<(), Fail> {
    let (mut first, mut second) = open_two(&rt, rt.alloc())?;
    for index in [0, 10, 20] {
        let name = name(&rt, index);
        for (key, value) in [(u32::MAX, 40), (17, 30), (1, 20), (0, 10)] {
            let (seat, _) = first.attempt(&Command::Put { name, key, value });
            first = seat;
        }
        let time = (index as u64 / 10 + 1) * 4;
        let mut room = [entry(5, 5); 3];
        let (count, more) = (3, Some(u32::MAX));
        let some = [entry(0, 10), entry(1, 20), entry(17, 30)];
        let walked = Walked { time, count, more };
        second = expect_walk(&rt, second, name, 0, &mut room, (walked, &some));
        let (count, more) = (2, None);
        let walked = Walked { time, count, more };
        let rest = [entry(17, 30), entry(u32::MAX, 40), entry(17, 30)];
        second = expect_walk(&rt, second, name, 2, &mut room, (walked, &rest));
    }
    Ok(())
}

// Why no domain of these numbers is opened.
fn fault_of(alloc: Global, sets: OpenSets) -> Option<SetsFault> {
    open_set_seats(alloc, sets).err()
}

#[test]
fn numbers_out_of_range_open_no_seats_of_sets(rt: HostRuntime) -> Result<(), Fail> {
    for objects in [0, 180, 16_777_217] {
        let fault = fault_of(rt.alloc(), OpenSets { objects, ..TWO });
        must(
            &rt,
            matches!(fault, Some(SetsFault::Objects)),
            "objects out of range",
        );
    }
    let none = fault_of(rt.alloc(), OpenSets { seats: 0, ..TWO });
    let seats = matches!(none, Some(SetsFault::Config(ConfigFault::Seats)));
    must(&rt, seats, "seats out of range");
    let few = fault_of(rt.alloc(), OpenSets { slots: 63, ..TWO });
    let slots = matches!(few, Some(SetsFault::Config(ConfigFault::Slots)));
    must(&rt, slots, "slots out of range");
    Ok(())
}
