// What the calls do when they run.
ghost use Rattle.std.specs.Prelude.{◌≡◌, ◌<◌, ◌≤◌, length, true};
ghost use Rattle.set_model.specs.Lawful.{IsLawful};
ghost use Rattle.tree_set.specs.Filling.{IsFilled};

use crate::asked::Asked::{Get, Has, Next, Size};
use crate::asked::{Asked, Object, expect_words};
use crate::opening::open_trees;
use list_set::{Removed, SetStep};
use mv_history::{Section, View};
use std::process::Abort;
use std::test::*;
use tree_set::{add_in, del_in, empty_in, get_in, has_in, next_in, put_in, size_in};

// Adds these keys, with ten times themselves as values, in leaves 180, 182 and so on, under inner
// nodes 183, 185 and so on.
fn add_all<S: Section>(section: &mut S, root: u32, keys: &[u32]) -> bool
    requires root_from { 170 ≤ root }
    requires root_in { root < 180 }
    requires few { length keys.now < 6 }
    requires filled { IsFilled (S.section section.old) root 0 }
    ensures { result ≡ true → IsFilled (S.section section.new) root (length keys.now) }
{
    for (i, key) in keys.iter().enumerate() {
        let leaf = 180 + 2 * i as u32;
        let SetStep::Yes = add_in(section, root, *key, *key as u64 * 10, leaf, leaf + 1) else {
            return false;
        };
    }
    true
}

// Gives the key another value than the one that it has. Whether each call answers as it should.
fn put_value<S: Section>(section: &mut S, root: u32, key: u32, old: u64, new: u64) -> bool
    requires root_from { 170 ≤ root }
    requires root_in { root < 180 }
    requires filled { IsFilled (S.section section.old) root 4 }
    ensures { result ≡ true → IsFilled (S.section section.new) root 4 }
{
    if !has_in(section, root, key) {
        return false;
    }
    let SetStep::No = put_in(section, root, key, old) else {
        return false;
    };
    let SetStep::Yes = put_in(section, root, key, new) else {
        return false;
    };
    true
}

// Tries to add a key that is there. Whether it answers as it should.
fn add_again<S: Section>(section: &mut S, root: u32, key: u32) -> bool
    requires root_from { 170 ≤ root }
    requires root_in { root < 180 }
    requires filled { IsFilled (S.section section.old) root 4 }
    ensures { result ≡ true → IsFilled (S.section section.new) root 4 }
{
    let SetStep::No = add_in(section, root, key, 0, 190, 191) else {
        return false;
    };
    true
}

// Takes out the key, and tries it once more. Whether this leaf and this inner node are vacant then.
fn take_out<S: Section>(section: &mut S, root: u32, key: u32, leaf: u32, above: u32) -> bool
    requires root_from { 170 ≤ root }
    requires root_in { root < 180 }
    requires filled { IsFilled (S.section section.old) root 4 }
    ensures { result ≡ true → IsFilled (S.section section.new) root 4 }
{
    let Removed::Took { node, inner } = del_in(section, root, key) else {
        return false;
    };
    let Removed::Absent = del_in(section, root, key) else {
        return false;
    };
    node == leaf && inner == above
}

// Adds four keys and gives one of them another value. Whether each call answers as it should.
fn fill<S: Section>(section: &mut S, root: u32) -> bool
    requires root_from { 170 ≤ root }
    requires root_in { root < 180 }
    requires filled { IsFilled (S.section section.old) root 0 }
    ensures { result ≡ true → IsLawful (S.state section.new) }
{
    if !add_all(section, root, &[20, 40, 10, 30]) {
        return false;
    }
    if !put_value(section, root, 30, 300, 7) {
        return false;
    }
    add_again(section, root, 30)
}

// Adds four keys and takes two of them out. Whether each call answers as it should.
fn thin<S: Section>(section: &mut S, root: u32) -> bool
    requires root_from { 170 ≤ root }
    requires root_in { root < 180 }
    requires filled { IsFilled (S.section section.old) root 0 }
    ensures { result ≡ true → IsFilled (S.section section.new) root 4 }
{
    if !add_all(section, root, &[20, 40, 10, 30]) {
        return false;
    }
    if !take_out(section, root, 30, 186, 187) {
        return false;
    }
    take_out(section, root, 40, 182, 183)
}

// Adds four keys and takes all of them out. Whether each call answers as it should.
fn clear<S: Section>(section: &mut S, root: u32) -> bool
    requires root_from { 170 ≤ root }
    requires root_in { root < 180 }
    requires filled { IsFilled (S.section section.old) root 0 }
    ensures { result ≡ true → IsLawful (S.state section.new) }
{
    if !thin(section, root) {
        return false;
    }
    if !take_out(section, root, 10, 184, 185) {
        return false;
    }
    take_out(section, root, 20, 180, 0)
}

// Asks one question. Whether its answer is the one that is wanted.
fn ask<V: View>(view: &mut V, root: u32, asked: Asked) -> bool
    requires root_from { 170 ≤ root }
    requires root_in { root < 180 }
    requires lawful { IsLawful (V.state view.old) }
    ensures { V.as_before view.old view.new }
{
    match asked {
        Has(key, found) => has_in(view, root, key) == found,
        Get(key, value) => get_in(view, root, key) == value,
        Next(key, next) => next_in(view, root, key) == next,
        Size(count) => size_in(view, root) == count,
    }
}

// Asks the questions, one after another.
fn ask_all<V: View>(rt: &impl Abort, view: &mut V, root: u32, rows: &[Asked])
    requires root_from { 170 ≤ root }
    requires root_in { root < 180 }
    requires lawful { IsLawful (V.state view.old) }
{
    for (row, asked) in rows.iter().enumerate() {
        assert!(rt; ask(view, root, *asked), "row {row}");
    }
}

static ASKED: [Asked; 5] = [
    Get(30, Some(7)),
    Next(11, Some(20)),
    Next(31, Some(40)),
    Next(41, None),
    Size(4),
];

// The root, the inner nodes, and the leaf of 30.
static FILLED: [Object; 5] = [
    (171, [0, 0, 0, 183, 0, 0]),
    (183, [172, 2, 40, 185, 182, 0]),
    (185, [172, 2, 20, 184, 187, 0]),
    (187, [172, 2, 30, 180, 186, 0]),
    (186, [172, 1, 30, 0, 0, 7]),
];

// Fills the tree of the root 171, and looks at what it has.
fn look_at_filled<S: Section>(rt: &impl Abort, mut section: S) -> S::Back
    requires filled { IsFilled (S.section section) 171 0 }
{
    if !fill(&mut section, 171) {
        panic!(rt; "another answer");
    }
    ask_all(rt, &mut section, 171, &ASKED);
    expect_words(rt, &mut section, &FILLED);
    section.abort()
}

#[test]
fn a_tree_of_four_keys(rt: HostRuntime) -> Result<(), Fail> {
    let _store = look_at_filled(&rt, open_trees(rt.alloc(), 200)?);
    Ok(())
}

// The root, the inner node that is left, and the nodes of 30.
static THIN: [Object; 4] = [
    (171, [0, 0, 0, 185, 0, 0]),
    (185, [172, 2, 20, 184, 180, 0]),
    (187, [0; 6]),
    (186, [0; 6]),
];

// Fills the tree and takes two of its keys out, and looks at what is left.
fn look_at_thin<S: Section>(rt: &impl Abort, mut section: S) -> S::Back
    requires filled { IsFilled (S.section section) 171 0 }
{
    if !thin(&mut section, 171) {
        panic!(rt; "another answer");
    }
    expect_words(rt, &mut section, &THIN);
    section.abort()
}

#[test]
fn a_sibling_moves_up(rt: HostRuntime) -> Result<(), Fail> {
    let _store = look_at_thin(&rt, open_trees(rt.alloc(), 200)?);
    Ok(())
}

// The root, and the leaf of the last key.
static EMPTIED: [Object; 2] = [(171, [0; 6]), (180, [0; 6])];

// Fills the tree and empties it, and looks at what is left.
fn look_at_emptied<S: Section>(rt: &impl Abort, mut section: S) -> S::Back
    requires filled { IsFilled (S.section section) 171 0 }
{
    if !clear(&mut section, 171) {
        panic!(rt; "another answer");
    }
    assert!(rt; empty_in(&mut section, 171));
    expect_words(rt, &mut section, &EMPTIED);
    section.abort()
}

#[test]
fn a_tree_is_emptied(rt: HostRuntime) -> Result<(), Fail> {
    let _store = look_at_emptied(&rt, open_trees(rt.alloc(), 200)?);
    Ok(())
}
