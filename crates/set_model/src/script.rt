// How long a script may be.

/// How many commands a script may have.
pub const MOST_COMMANDS: usize = 65_536;
