// Scripts, and the text that they give.
use crate::row::{PLAIN, Row, ZERO, run_rows};
use std::test::Fail;

// Lists, and the form of a script.
static LISTS: [Row<'static>; 9] = [
    PLAIN,
    Row {
        name: "one byte a call",
        most: 1,
        ..PLAIN
    },
    Row {
        name: "empty file",
        script: b"",
        out: ZERO,
        ..PLAIN
    },
    Row {
        name: "add twice",
        script: b"add l0 5\nadd l0 5\n",
        out: b"0.1 c1 yes\n0.2 r1 no\nl0 5\nlog 0 live 2 freed 0 back 0 commits 1 aborts 0 rests 0\n",
        ..PLAIN
    },
    Row {
        name: "del of an absent key",
        script: b"del l0 9\n",
        out: b"0.1 r0 no\nlog 0 live 0 freed 0 back 0 commits 0 aborts 0 rests 0\n",
        ..PLAIN
    },
    Row {
        name: "list order and del",
        script: b"add l1 1\nadd l1 3\nadd l1 2\ndel l1 3\n",
        out: b"0.1 c1 yes\n0.2 c2 yes\n0.3 c3 yes\n0.4 c4 yes\nl1 1 2\nlog 0 live 8 freed 0 back 0 commits 4 aborts 0 rests 0\n",
        ..PLAIN
    },
    Row {
        name: "blanks, comments, no end",
        script: b"# sets\r\n\r\n\tadd  l0\t007 # seven\r\nhas l0 7",
        out: b"0.1 c1 yes\n0.2 r1 yes\nl0 7\nlog 0 live 2 freed 0 back 0 commits 1 aborts 0 rests 0\n",
        ..PLAIN
    },
    Row {
        name: "a key comes back after its del",
        script: b"add l9 4294967295\ndel l9 4294967295\nhas l9 4294967295\nadd l9 4294967295\n",
        out: b"0.1 c1 yes\n0.2 c2 yes\n0.3 r2 no\n0.4 c3 yes\nl9 4294967295\nlog 0 live 6 freed 0 back 0 commits 3 aborts 0 rests 0\n",
        ..PLAIN
    },
    Row {
        name: "two lists in the order of their names",
        script: b"add l2 1\nadd l0 0\nhas l0 1\n",
        out: b"0.1 c1 yes\n0.2 c2 yes\n0.3 r2 no\nl0 0\nl2 1\nlog 0 live 4 freed 0 back 0 commits 2 aborts 0 rests 0\n",
        ..PLAIN
    },
];

#[test]
fn each_script_gives_its_text(rt: HostRuntime) -> Result<(), Fail> {
    run_rows(&rt, rt.alloc(), &LISTS)
}

// All kinds of sets, and all commands.
static SETS: [Row<'static>; 9] = [
    Row {
        name: "the greatest key of a hash set",
        script: b"add h9 4294967295\nnext h9 4294967295\n",
        out: b"0.1 c1 yes\n0.2 r1 4294967295\nh9 4294967295\nlog 0 live 2 freed 0 back 0 commits 1 aborts 0 rests 0\n",
        ..PLAIN
    },
    Row {
        name: "adds to a tree, a del, and the next key",
        script: b"add t1 5\nadd t1 3\nadd t1 9\ndel t1 5\nnext t1 4\n",
        out: b"0.1 c1 yes\n0.2 c2 yes\n0.3 c3 yes\n0.4 c4 yes\n0.5 r4 9\nt1 3 9\nlog 0 live 13 freed 0 back 0 commits 4 aborts 0 rests 0\n",
        ..PLAIN
    },
    Row {
        name: "the next key and the size over two buckets",
        script: b"add h0 17\nadd h0 2\nnext h0 3\nnext h0 18\nsize h0\n",
        out: b"0.1 c1 yes\n0.2 c2 yes\n0.3 r2 17\n0.4 r2 none\n0.5 r2 2\nh0 2 17\nlog 0 live 4 freed 0 back 0 commits 2 aborts 0 rests 0\n",
        ..PLAIN
    },
    Row {
        name: "a move from a tree to a bucket",
        script: b"add t0 7\nmove t0 h3 7\npair t0 h3 7\n",
        out: b"0.1 c1 yes\n0.2 c2 yes\n0.3 r2 no yes\nh3 7\nlog 0 live 5 freed 0 back 0 commits 2 aborts 0 rests 0\n",
        ..PLAIN
    },
    Row {
        name: "a move onto a key that is there",
        script: b"add l0 4\nadd l1 4\nmove l0 l1 4\n",
        out: b"0.1 c1 yes\n0.2 c2 yes\n0.3 r2 no\nl0 4\nl1 4\nlog 0 live 4 freed 0 back 0 commits 2 aborts 0 rests 0\n",
        ..PLAIN
    },
    Row {
        name: "values through put, get and move",
        script: b"format 2\nput l0 5 7\nput l0 5 7\nget l0 5\nadd l0 6\nmove l0 t0 5\nget t0 5\nget l0 5\n",
        out: b"0.1 c1 yes\n0.2 r1 no\n0.3 r1 7\n0.4 c2 yes\n0.5 c3 yes\n0.6 r3 7\n0.7 r3 none\nl0 6\nt0 5=7\n\
            log 0 live 7 freed 0 back 0 commits 3 aborts 0 rests 0\n",
        ..PLAIN
    },
    Row {
        name: "ten digits of a key",
        script: b"next t9 0000000001\n",
        out: b"0.1 r0 none\nlog 0 live 0 freed 0 back 0 commits 0 aborts 0 rests 0\n",
        ..PLAIN
    },
    Row {
        name: "CR as the last byte",
        script: b"has l0 1\r",
        out: b"0.1 r0 no\nlog 0 live 0 freed 0 back 0 commits 0 aborts 0 rests 0\n",
        ..PLAIN
    },
    Row {
        name: "a comment that is no text",
        script: b"# \xff\n",
        out: ZERO,
        ..PLAIN
    },
];

#[test]
fn all_kinds_of_sets_answer_all_commands(rt: HostRuntime) -> Result<(), Fail> {
    run_rows(&rt, rt.alloc(), &SETS)
}

// Runs with options.
static OPTIONS: [Row<'static>; 3] = [
    Row {
        name: "room for two keys",
        words: &["run", "--objects", "182", "a"],
        script: b"add l0 1\nadd l0 2\nadd l0 3\ndel l0 1\nadd t0 8\nadd t0 9\n",
        out: b"0.1 c1 yes\n0.2 c2 yes\n0.3 r2 full\n0.4 c3 yes\n0.5 c4 yes\n0.6 r4 full\nl0 2\nt0 8\n\
            log 0 live 8 freed 0 back 0 commits 4 aborts 0 rests 0\n",
        ..PLAIN
    },
    Row {
        name: "the last time",
        words: &["run", "--base", "35184372088830", "a"],
        script: b"add l0 1\nadd l0 2\nadd l0 1\nhas l0 1\n",
        out: b"0.1 c35184372088831 yes\n0.2 r35184372088831 worn\n0.3 r35184372088831 no\n0.4 r35184372088831 yes\nl0 1\n\
            log 0 live 2 freed 0 back 0 commits 1 aborts 0 rests 0\n",
        ..PLAIN
    },
    Row {
        name: "all three, the last first",
        words: &[
            "run",
            "--base",
            "007",
            "--slots",
            "64",
            "--objects",
            "65535",
            "a",
        ],
        out: b"0.1 c8 yes\n0.2 r8 yes\nl0 5\nlog 0 live 2 freed 0 back 0 commits 1 aborts 0 rests 0\n",
        ..PLAIN
    },
];

#[test]
fn the_options_take_effect(rt: HostRuntime) -> Result<(), Fail> {
    run_rows(&rt, rt.alloc(), &OPTIONS)
}
