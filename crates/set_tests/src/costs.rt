// How many reads of objects it takes to count the keys of a set, to read the whole catalogue, and to
// answer that a store is full.
use crate::asked::Ask::{Add, Del, Has, Move, Next, Put, Size};
use crate::asked::{Ask, attempt_hinting, command, expect_attempt};
use crate::comparing::{assert_row, assert_same, must};
use crate::counted::Counted;
use crate::opening::open_sets;
use mv_history::{Section, Store};
use section_work::Place;
use section_work::Place::{Commit, Read};
use set_catalog::{CommandAttempt, HintedStore, Hints, Memo, read_all};
use set_model::{Catalogue, Command, Reply, SetRules};
use std::alloc::{AllocError, Global};
use std::process::Abort;
use std::test::Fail;

// Adds a key to the set of this index.
pub(crate) fn add<S: Store<Rules = SetRules>>(
    rt: &impl Abort,
    store: S,
    hints: &mut Hints,
    index: u32,
    key: u32,
) -> S {
    attempt_hinting(rt, store, hints, &command(rt, Add(index, key))).0
}

// What a command is answered, and how many reads it took.
fn count_reads<S: Store<Rules = SetRules>>(
    rt: &impl Abort,
    store: S,
    hints: &mut Hints,
    ask: Ask,
) -> (S, CommandAttempt, u32) {
    let counted = Counted {
        view: store,
        reads: 0,
    };
    let (Counted { view, reads }, answer) = attempt_hinting(rt, counted, hints, &command(rt, ask));
    (view, answer, reads)
}

// Looks that `size` of each set, with as many reads, counts so many keys at this time.
fn expect_sizes<S: Store<Rules = SetRules>>(
    rt: &impl Abort,
    mut store: S,
    hints: &mut Hints,
    sizes: &[(u32, u32)],
    count: u64,
    time: u64,
) -> S {
    for (row, (index, most)) in sizes.iter().enumerate() {
        let (after, answer, reads) = count_reads(rt, store, hints, Size(*index));
        expect_attempt(rt, answer, Reply::Count { count }, Read(time), "sizes", row);
        assert_row(rt, &reads, most, "reads of a size", row);
        store = after;
    }
    store
}

// The head and 200 nodes; 16 heads and 200 nodes.
static LIST_AND_TABLE: [(u32, u32); 2] = [(3, 201), (13, 216)];

// Adds 200 keys to a list and to a table.
fn fill_two<S: Store<Rules = SetRules>>(rt: &impl Abort, mut store: S, hints: &mut Hints) -> S {
    for i in 0..200 {
        store = add(rt, store, hints, 3, 200 - i);
        store = add(rt, store, hints, 13, i);
    }
    store
}

// The root and 259 nodes, and one node twice where more than 64 links are pending.
static TREES: [(u32, u32); 3] = [(20, 260), (21, 261), (22, 260)];

// Adds a key to the list `l0`, and moves it to the tree of this index: a move turns nothing.
fn move_in<S: Store<Rules = SetRules>>(
    rt: &impl Abort,
    store: S,
    hints: &mut Hints,
    index: u32,
    key: u32,
) -> S {
    let store = add(rt, store, hints, 0, key);
    attempt_hinting(rt, store, hints, &command(rt, Move(0, index, key))).0
}

// Moves 130 keys into each of three trees: a chain to the right, a chain to the left, and a tree without long branches.
fn fill_trees<S: Store<Rules = SetRules>>(rt: &impl Abort, mut store: S, hints: &mut Hints) -> S {
    for i in 0..130 {
        store = move_in(rt, store, hints, 20, i);
        store = move_in(rt, store, hints, 21, 130 - i);
        store = move_in(rt, store, hints, 22, i * 81 % 131);
    }
    store
}

// Fills sets, and looks at the sizes of a list and a table, or of three trees.
fn look_at_sizes<S: Store<Rules = SetRules>>(
    rt: &impl Abort,
    store: S,
    hints: &mut Hints,
    are_trees: bool,
) -> S {
    if are_trees {
        let store = fill_trees(rt, store, hints);
        return expect_sizes(rt, store, hints, &TREES, 130, 780);
    }
    let store = fill_two(rt, store, hints);
    expect_sizes(rt, store, hints, &LIST_AND_TABLE, 200, 400)
}

#[test]
fn a_set_is_read_once_whatever_its_form(rt: HostRuntime) -> Result<(), Fail> {
    for are_trees in [false, true] {
        let mut hints = Hints::new(rt.alloc(), 1)?;
        let store = open_sets(&rt, rt.alloc(), 1000, 1000)?;
        let _store = look_at_sizes(&rt, store, &mut hints, are_trees);
    }
    Ok(())
}

// The whole catalogue, and how many reads it took.
fn counted_catalogue<S: Store<Rules = SetRules>>(
    alloc: Global,
    store: S,
) -> (S, Result<Catalogue, AllocError>, u32) {
    let mut view = Counted {
        view: store.enter(),
        reads: 0,
    };
    let all = read_all(alloc, &mut view);
    let Counted { view, reads } = view;
    (view.leave(), all, reads)
}

// Adds 130 keys to the tree 20, and reads the whole catalogue.
fn look_at_tree<S: Store<Rules = SetRules> + Drop>(
    rt: &impl Abort,
    alloc: Global,
    mut store: S,
    hints: &mut Hints,
) -> Result<(), AllocError> {
    for i in 0..130 {
        store = add(rt, store, hints, 20, i);
    }
    let (_store, all, reads) = counted_catalogue(alloc, store);
    assert_same(rt, &all?.keys(20).len(), &130, "keys of the tree");
    // The heads and the 259 nodes of the tree.
    assert_same(rt, &reads, &(180 + 259), "reads of the catalogue");
    Ok(())
}

#[test]
fn a_catalogue_is_read_once(rt: HostRuntime) -> Result<(), Fail> {
    let mut hints = Hints::new(rt.alloc(), 1)?;
    let store = open_sets(&rt, rt.alloc(), 1000, 1000)?;
    Ok(look_at_tree(&rt, rt.alloc(), store, &mut hints)?)
}

// A command, its reply, its place, and how many reads it takes.
type Row = (Ask, Reply, Place, u32);

// A set, and how many keys are added to it, from 1 on.
type Keys = (u32, u32);

// What a new store is asked, whose reads are counted.
struct Case {
    // What it shows.
    name: &'static str,
    objects: u32,
    // How many hints its memo has room for.
    memo: u32,
    // The keys that are added first, in falling order, without hints and fingers.
    before: Keys,
    // Those that are added then, in rising order, with them.
    then: Keys,
    rows: &'static [Row],
}

// What a store of ten nodes is asked that has the keys 1 to 10 in `l3`.
const FULL: [Row; 16] = [
    // A list's search reads the key and the link of each object up to where it ends, and for a change all words of
    // the two between which the key is: the head, the first node, both again, and a look through ten nodes;
    // then no look.
    (Add(3, 0), Reply::Full, Read(10), 14),
    (Add(3, 0), Reply::Full, Read(10), 4),
    // A put of another value and a move of a list's key free nothing.
    (Put(3, 10, 7), Reply::Yes, Commit(11), 13),
    (Add(3, 0), Reply::Full, Read(11), 4),
    (Move(3, 4, 1), Reply::Yes, Commit(12), 6),
    (Add(3, 0), Reply::Full, Read(12), 4),
    // A del does: a look finds the second node.
    (Del(3, 2), Reply::Yes, Commit(13), 4),
    (Add(3, 0), Reply::Yes, Commit(14), 6),
    (Add(3, 1), Reply::Full, Read(14), 15),
    (Add(3, 1), Reply::Full, Read(14), 5),
    // A tree's second key takes two nodes: that there is but one is known, and another look finds it.
    (Del(3, 3), Reply::Yes, Commit(15), 5),
    (Add(20, 5), Reply::Yes, Commit(16), 2),
    (Del(3, 4), Reply::Yes, Commit(17), 5),
    (Add(20, 6), Reply::Full, Read(17), 12),
    (Add(20, 6), Reply::Full, Read(17), 2),
    (Add(3, 4), Reply::Yes, Commit(18), 15),
];

// A store with hints, whose reads are counted.
fn counted<S: Store<Rules = SetRules>>(view: S, memo: Box<Memo>) -> HintedStore<Counted<S>> {
    HintedStore::new(Counted { view, reads: 0 }, memo)
}

// Attempts one command, which locks five objects at most, on a store with hints.
fn attempt_hinted<S: Store<Rules = SetRules>>(
    rt: &impl Abort,
    store: HintedStore<S>,
    command: &Command,
) -> (HintedStore<S>, CommandAttempt) {
    let most = store.store().write_max();
    must(rt, most >= 5, "a write set of five objects");
    store.attempt(command)
}

// Attempts the commands, one after another, and gives the store back.
fn play<S: Store<Rules = SetRules>>(
    rt: &impl Abort,
    mut store: HintedStore<Counted<S>>,
    case: &Case,
) -> S {
    for (row, (ask, reply, place, reads)) in case.rows.iter().enumerate() {
        let before = store.store().reads;
        let (after, answer) = attempt_hinted(rt, store, &command(rt, *ask));
        expect_attempt(rt, answer, *reply, *place, case.name, row);
        let more = after.store().reads.saturating_sub(before);
        assert_row(rt, &more, reads, case.name, row);
        store = after;
    }
    let Counted { view, reads: _ } = store.into_store();
    view
}

// Adds keys without hints and fingers. Falling ones are added at the head, where no walk is long.
fn fill<S: Store<Rules = SetRules>>(rt: &impl Abort, mut store: S, keys: Keys) -> S {
    let (index, count) = keys;
    let mut hints = Hints::none();
    for i in 0..count {
        store = add(rt, store, &mut hints, index, count - i);
    }
    store
}

// Adds keys with them.
fn fill_hinted<S: Store<Rules = SetRules>>(
    rt: &impl Abort,
    mut store: HintedStore<S>,
    keys: Keys,
) -> HintedStore<S> {
    let (index, count) = keys;
    for i in 0..count {
        store = attempt_hinted(rt, store, &command(rt, Add(index, i + 1))).0;
    }
    store
}

// Plays a case in a new store. A plain store has one seat, so no commit of another one comes between.
fn play_case(rt: &impl Abort, alloc: Global, case: &Case) -> Result<(), AllocError> {
    let store = fill(rt, open_sets(rt, alloc, case.objects, 1000)?, case.before);
    let memo = Memo::new(alloc, case.memo)?;
    let store = fill_hinted(rt, counted(store, memo), case.then);
    let _store = play(rt, store, case);
    Ok(())
}

// What a store is asked that has the keys 1 to 100 in `l3`, and no finger yet.
//
// A search reads a finger's owner and its key, and where these are right then the key and the link of each node behind it
// up to where it ends, else of the head and each node from there; a change then reads all words of the two between which
// the key is.
const FINGERS: [Row; 11] = [
    // From the head, past 89 nodes; a finger stays at 89.
    (Has(3, 90), Reply::Yes, Read(100), 91),
    (Has(3, 90), Reply::Yes, Read(100), 3),
    (Next(3, 95), Reply::Key { key: 95 }, Read(100), 8),
    // No finger is before 80; the walk leaves one at 79.
    (Has(3, 80), Reply::Yes, Read(100), 81),
    (Del(3, 89), Reply::Yes, Commit(101), 14),
    // The node of key 89 is vacant, so the search begins at the head, and its finger goes to 88.
    (Has(3, 90), Reply::Yes, Read(101), 92),
    (Has(3, 90), Reply::Yes, Read(101), 3),
    // The node of key 88 comes into another list.
    (Del(3, 88), Reply::Yes, Commit(102), 13),
    (Add(4, 88), Reply::Yes, Commit(103), 3),
    (Has(3, 90), Reply::Yes, Read(103), 91),
    // From 87 on to the end.
    (Has(3, 101), Reply::No, Read(103), 13),
];

// What a store is asked that has the keys 1 to 32 in `h0`.
//
// A table is asked bucket by bucket from the key's own on, until no bucket can have a lesser key than was found.
const TABLE: [Row; 7] = [
    // The bucket of 5 alone: no other one has a key from 5 on that is below 5.
    (Next(10, 5), Reply::Key { key: 5 }, Read(32), 2),
    (Del(10, 6), Reply::Yes, Commit(33), 4),
    // The bucket of 6 has 22, and that of 7 has 7.
    (Next(10, 6), Reply::Key { key: 7 }, Read(33), 4),
    // The key 32 is the second one of its bucket.
    (Next(10, 32), Reply::Key { key: 32 }, Read(33), 3),
    // All sixteen heads and 31 nodes.
    (Next(10, 33), Reply::NoKey, Read(33), 47),
    (Has(10, 22), Reply::Yes, Read(33), 2),
    (Has(10, 38), Reply::No, Read(33), 2),
];

static CASES: [Case; 3] = [
    Case {
        name: "a full store is looked through once",
        objects: 190,
        memo: 0,
        before: (3, 0),
        then: (3, 10),
        rows: &FULL,
    },
    Case {
        name: "a search begins at a finger",
        objects: 1000,
        memo: 1,
        before: (3, 100),
        then: (3, 0),
        rows: &FINGERS,
    },
    Case {
        name: "a table is asked from the bucket of the key on",
        objects: 1000,
        memo: 1,
        before: (10, 32),
        then: (10, 0),
        rows: &TABLE,
    },
];

#[test]
fn each_command_takes_so_many_reads(rt: HostRuntime) -> Result<(), Fail> {
    for case in &CASES {
        play_case(&rt, rt.alloc(), case)?;
    }
    Ok(())
}
