// What is wrong with a script of blocks.
use script_parser::FaultKind;

/// What is wrong with a line of a script of blocks.
#[derive(Clone, Copy, Debug, Drop, PartialEq, Eq)]
pub enum BlockKind {
    /// It is what is wrong with a line of a script. `Count` is also that of a `begin` or an `end` with further words.
    Line(FaultKind),
    /// A `begin` inside a block.
    Nested,
    /// An `end` outside a block.
    Stray,
    /// An `end` with no command between it and its `begin`.
    Empty,
    /// The ninth command of a block.
    Long,
    /// A `size` or a `next` between a `begin` and its `end`.
    Apart,
    /// The script ends inside a block.
    Unended,
}

/// Why a script has no blocks.
#[derive(Clone, Copy, Debug, Drop, PartialEq, Eq)]
pub enum BlockFault {
    /// The first faulty line, counted from 1, and what is wrong with it.
    At { line: u32, kind: BlockKind },
    /// Want of memory.
    Memory,
}
