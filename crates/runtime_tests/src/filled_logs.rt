// The turns by which a seat fills its log, a commit of object 0 at a time.
use crate::Turn;
use crate::moves::Answer::{Done, Entered, Held};
use crate::moves::Move::{Commit, Enter, Lock};

// A section of the seat at each of these times, which commits object 0 at the next one.
macro_rules! commits {
    ($seat:literal; $($time:literal)*) => {
        [$(
            ($seat, Enter, Entered($time)),
            ($seat, Lock(0), Held),
            ($seat, Commit, Done($time + 1)),
        )*]
    };
}

// Seat 0 fills its log from time 0 on.
pub(crate) const FILLED_BY_SEAT_0: [Turn; 192] = commits!(
    0; 0 1 2 3 4 5 6 7 8 9 10 11 12 13 14 15 16 17 18 19 20 21 22 23 24 25 26 27 28 29 30 31
       32 33 34 35 36 37 38 39 40 41 42 43 44 45 46 47 48 49 50 51 52 53 54 55 56 57 58 59 60 61 62 63
);

// Seat 1 fills the rest of its log from time 1 on.
pub(crate) const FILLED_BY_SEAT_1: [Turn; 189] = commits!(
    1; 1 2 3 4 5 6 7 8 9 10 11 12 13 14 15 16 17 18 19 20 21 22 23 24 25 26 27 28 29 30 31
       32 33 34 35 36 37 38 39 40 41 42 43 44 45 46 47 48 49 50 51 52 53 54 55 56 57 58 59 60 61 62 63
);
