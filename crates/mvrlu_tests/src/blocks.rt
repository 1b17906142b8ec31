// Scripts of blocks: the text that they give, and what is no script of blocks.
use crate::comparing::must;
use crate::row::{PLAIN, REFUSED, Row, expect_print, run_refused, run_row, run_rows};
use mvrlu_run::LeftDomain;
use std::test::Fail;

// A run of a script of blocks.
const BLOCK: Row<'static> = Row {
    words: &["block", "a"],
    ..PLAIN
};

// Blocks that are run.
static BLOCKS: [Row<'static>; 6] = [
    Row {
        name: "a block as one entry",
        script: b"begin\nadd l0 5\nmove l0 t0 5\npair l0 t0 5\nend\nhas t0 5\n",
        out: b"0.1 c1 yes\n0.2 c1 yes\n0.3 c1 no yes\n0.4 r1 yes\nt0 5\nlog 0 live 3 freed 0 back 0 commits 1 aborts 0 rests 0\n",
        ..BLOCK
    },
    Row {
        name: "commands outside blocks",
        out: b"0.1 c1 yes\n0.2 r1 yes\nl0 5\nlog 0 live 2 freed 0 back 0 commits 1 aborts 0 rests 0\n",
        ..BLOCK
    },
    Row {
        name: "a block that changes nothing",
        script: b"begin # two questions\n\nhas l0 1\r\n\tdel l0 1\nend\n",
        out: b"0.1 r0 no\n0.2 r0 no\nlog 0 live 0 freed 0 back 0 commits 0 aborts 0 rests 0\n",
        ..BLOCK
    },
    Row {
        name: "a change that is undone",
        script: b"begin\nadd l0 1\ndel l0 1\nend\n",
        out: b"0.1 c1 yes\n0.2 c1 yes\nlog 0 live 2 freed 0 back 0 commits 1 aborts 0 rests 0\n",
        ..BLOCK
    },
    Row {
        name: "a question that holds the head beside an add",
        script: b"begin\nhas l0 5\nadd l1 1\nend\n",
        out: b"0.1 c1 no\n0.2 c1 yes\nl1 1\nlog 0 live 3 freed 0 back 0 commits 1 aborts 0 rests 0\n",
        ..BLOCK
    },
    Row {
        name: "values in a block",
        script: b"format 2\nbegin\nput l0 5 7\nget l0 5\nend\nsize l0\n",
        out: b"0.1 c1 yes\n0.2 c1 7\n0.3 r1 1\nl0 5=7\nlog 0 live 2 freed 0 back 0 commits 1 aborts 0 rests 0\n",
        ..BLOCK
    },
];

#[test]
fn a_block_is_one_entry_or_one_read(rt: HostRuntime) -> Result<(), Fail> {
    run_rows(&rt, rt.alloc(), &BLOCKS)
}

// A script that is refused, and the line on standard error.
type Refused = (&'static [u8], &'static [u8]);

static BROKEN: [Refused; 15] = [
    (
        b"begin\nsize l0\nend\n",
        b"script 0 line 2: not in a block\n",
    ),
    (
        b"begin\nhas l0 1\nnext l0 1\nend\n",
        b"script 0 line 3: not in a block\n",
    ),
    (b"begin\nbegin\n", b"script 0 line 2: nested block\n"),
    (
        b"begin # a\n\nadd l0 1\nend\nend\n",
        b"script 0 line 5: end without begin\n",
    ),
    (b"end\n", b"script 0 line 1: end without begin\n"),
    (b"begin\n# nothing\nend", b"script 0 line 3: empty block\n"),
    (
        b"begin\nadd l0 1\n",
        b"script 0 line 2: block without end\n",
    ),
    (
        b"begin\nadd l0 1\n\n# end",
        b"script 0 line 4: block without end\n",
    ),
    (
        b"begin 1\nend\n",
        b"script 0 line 1: wrong number of words\n",
    ),
    (
        b"begin\nadd l0 1\nend end\n",
        b"script 0 line 3: wrong number of words\n",
    ),
    (
        b"begin\nadd l0\nend\n",
        b"script 0 line 2: wrong number of words\n",
    ),
    (
        b"begin\nput l0 1 2\nend\n",
        b"script 0 line 2: unknown command\n",
    ),
    (
        b"begin\nmove l0 l0 1\nend\n",
        b"script 0 line 2: same name twice\n",
    ),
    (
        b"begin\nhas l0 1\nhas l0 2\nhas l0 3\nhas l0 4\nhas l0 5\nhas l0 6\nhas l0 7\nhas l0 8\nhas l0 9\nend\n",
        b"script 0 line 10: block too long\n",
    ),
    (
        b"begin\nhas l0 1\nhas l0 2\nhas l0 3\nhas l0 4\nhas l0 5\nhas l0 6\nhas l0 7\nhas l0 8\nsize l0\nend\n",
        b"script 0 line 10: block too long\n",
    ),
];

// A block where none may be.
static OUTSIDE: Row<'static> = Row {
    name: "a block outside of blocks",
    script: b"begin\nadd l0 1\nend\n",
    err: b"script 0 line 1: unknown command\n",
    ..REFUSED
};

#[test]
fn what_is_no_script_of_blocks_is_refused(rt: HostRuntime) -> Result<(), Fail> {
    for (script, err) in &BROKEN {
        run_refused(
            &rt,
            rt.alloc(),
            "a broken block",
            &["block", "a"],
            script,
            3,
            err,
        )?;
    }
    run_row(&rt, rt.alloc(), &OUTSIDE)
}

#[test]
fn the_second_file_of_blocks_is_read_too(rt: HostRuntime) -> Result<(), Fail> {
    let _closed = expect_print(
        &rt,
        rt.alloc(),
        &["block", "a", "b"],
        &[("a", b"begin\nadd h0 1\nadd t0 1\nend\n")],
        5,
        b"",
        b"read fault: script 1\n",
    )?;
    Ok(())
}

// What two seats print, of which one has no blocks.
const TWO_SEATS: &[u8] =
    b"0.1 c1 yes\n0.2 c1 yes\nh0 1\nt0 1\nlog 0 live 4 freed 0 back 0 commits 1 aborts 0 rests 0\n\
    log 1 live 0 freed 0 back 0 commits 0 aborts 0 rests 0\n";

#[test]
fn two_seats_leave_the_domain_of_their_blocks(rt: HostRuntime) -> Result<(), Fail> {
    let closed = expect_print(
        &rt,
        rt.alloc(),
        &["block", "a", "b"],
        &[("a", b"begin\nadd h0 1\nadd t0 1\nend\n"), ("b", b"")],
        0,
        TWO_SEATS,
        b"",
    )?;
    must(
        &rt,
        matches!(&closed, LeftDomain::Blocks(_)),
        "a domain of blocks",
    );
    Ok(())
}
