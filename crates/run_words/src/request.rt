// What the words ask for.

/// The numbers of a run.
#[derive(Clone, Copy, Drop)]
pub struct Options {
    /// How many objects the domain has, 181 to 65535; 180 of them are heads.
    pub objects: u32,
    /// How many slots each seat's log has, 64 to 4096.
    pub slots: u32,
    /// The printed time of the opening state, 0 to 35184372088831.
    pub base: u64,
}

/// What words in form ask for.
#[derive(Clone, Copy)]
pub enum Request<'w> {
    /// To run the scripts of these files, file number i as seat i, with these numbers.
    Run {
        options: Options,
        files: &'w [String],
    },
    /// For the generated script of a number and a seat, which is 0 to 3.
    Gen {
        number: u64,
        seat: u32,
    },
    /// To run the four generated scripts of a number.
    Work {
        number: u64,
    },
    /// To run the scripts of blocks of these files, file number i as seat i.
    Block {
        files: &'w [String],
    },
    /// To do the commands of this one file on so many seats, 1 to 8.
    Pool {
        seats: u32,
        files: &'w [String],
    },
    /// To run the scripts of a growing set of these files, file number i as seat i.
    Grow {
        files: &'w [String],
    },
    /// To replay the schedule of steps of this one file.
    Replay {
        files: &'w [String],
    },
}

/// A number that has a range.
#[derive(Clone, Copy, Drop)]
pub enum Limit {
    Objects,
    Slots,
    Base,
    Files,
    Number,
    Seat,
    Seats,
}

/// Why words ask for nothing.
#[derive(Clone, Copy, Drop)]
pub enum BadWords {
    /// They are out of form.
    Form,
    /// They are in form, and this is the first number that is out of its range.
    Beyond(Limit),
}
