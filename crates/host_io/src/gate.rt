// What a worker calls around each command.

/// What a worker calls around each command of a script. It tells nothing and changes nothing that the program sees, so
/// a test can hold one worker for another. A gate that waits keeps the runtime that it needs in a field of its own.
pub trait Gate: Sync {
    /// Comes ahead of the first attempt of a command. Seats count from 0, and a seat's commands from 1.
    fn before(&self, seat: u32, number: u32);

    /// Comes once the command is done.
    fn after(&self, seat: u32, number: u32);
}

/// The gate that does nothing.
#[derive(Clone, Copy)]
pub struct OpenGate;

impl Gate for OpenGate {
    fn before(&self, _seat: u32, _number: u32) {}

    fn after(&self, _seat: u32, _number: u32) {}
}
