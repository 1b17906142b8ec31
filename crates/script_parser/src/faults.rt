// What is wrong with a script.

/// What is wrong with a line of a script.
#[derive(Clone, Copy, Debug, Drop, PartialEq, Eq)]
pub enum FaultKind {
    /// The first word is no command of the script's format.
    Word,
    /// The number of words is not the command's.
    Count,
    /// The first line with words names a format, and it is neither `1` nor `2`.
    Format,
    /// A name is not one of the 30.
    Name,
    /// A key is not 1 to 10 decimal digits of a number up to 4294967295.
    Key,
    /// A value is not 1 to 20 decimal digits of a number up to 18446744073709551615.
    Value,
    /// A move names one set twice.
    Same,
    /// The line's command is one too many.
    Many,
}

/// Why a script has no commands.
#[derive(Clone, Copy, Debug, Drop, PartialEq, Eq)]
pub enum ScriptFault {
    /// The first faulty line, counted from 1, and what is wrong with it.
    At { line: u32, kind: FaultKind },
    /// Want of memory.
    Memory,
}
