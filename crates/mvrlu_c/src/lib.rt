//! A domain for C: a static library of plain functions, which `mvrlu.h` declares, over objects, over the sets or over a growing set.
//!
//! **The model.** A `MvrluSeat` is a seat of objects in memory that C owns, a `MvrluSets` a seat of the sets, and a `MvrluTable` one of
//! a growing set. Zeroed memory is a closed one; an open one owns the block with its `ObjectSeat`, its `SetSeat` or its `GrowSeat`,
//! which shares the domain with the other seats.
//!
//! **The contract.** Each call tells by its status which answer the call of `object_seats`, of `set_seats` or of `grow_seats` gave, and
//! all that its clauses say of that answer holds of the seat: `Tells`, `TellsCommand`, `TellsBlock`, `TellsWalk` and `TellsSplit` in specs/
//! tie the two. The last handle of a domain to be closed lets all seats meet, and tells the last time (`TellsClose`). A closed seat
//! answers `CLOSED` and stays as it was. By which number and which reply an answer is told, and which command numbers say, stands in
//! `c_answers`. Memory is safe whatever the order of the calls and the numbers given; what no call can see is C's to keep, and `mvrlu.h`
//! says it.
//!
//! **Choices.** A seat is 128 bytes, two lines, and what it points to is padded, so that threads write different ones.
//! Open seats aren't copied: a caller couldn't tell them apart. Seats of objects, of sets and of a growing set are different structs, since
//! no generic one crosses to C: each implements `Handle` by two functions, and all else is written once, over that trait. A
//! `std::optional<bool>` is true for a no, so C++ doesn't answer one.
//!
//! It stands on `object_seats`, `set_seats` and `grow_seats`, and on `c_answers`, which has the edits of wrong answers. A pointer becomes a
//! block again in `loose` alone; `object_handle`, `sets_handle` and `table_handle` make one of a handle's field, and their proofs are by
//! hand, as those of `loose` are.
#![tactic(auto)]

mod calls;
mod closing;
mod counting;
mod handle;
mod loose;
mod object_handle;
mod object_opening;
mod opening;
mod sets_block;
mod sets_calls;
mod sets_handle;
mod sets_opening;
mod sets_walk;
mod table_calls;
mod table_handle;
mod table_opening;

pub use object_handle::MvrluSeat;
