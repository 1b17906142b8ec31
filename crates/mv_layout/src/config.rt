// The numbers of a domain, and the limits of each.
ghost use Rattle.mv_layout.specs.Limits.{Answers};

/// The number of 64-bit words of an object.
pub const WIDTH: u32 = 6;

/// The greatest time that a clock word holds, `2^45 - 1`.
pub const LAST: u64 = 35184372088831;

/// The numbers that a domain is opened with.
#[derive(Clone, Copy, Debug, PartialEq, Eq)]
pub struct Config {
    /// How many seats, 1 to 64.
    pub seats: u32,
    /// How many objects, 1 to 16,777,216. Cells of 32 bits would allow 536,346,491; the smaller bound keeps a
    /// table below 1.2 GB.
    pub objects: u32,
    /// How many slots each seat's log has, 64 to 4,096.
    pub slots: u32,
    /// How many objects a section may hold, 1 to 64.
    pub write_max: u32,
    /// From how many live slots on a seat reclaims, 1 to `high`.
    pub low: u32,
    /// From how many live slots on it does all it can, `low` to `slots - write_max`.
    pub high: u32,
    /// The printed time of the opening state, 0 to `LAST`.
    pub base: u64,
}

/// Which field is out of its range.
#[derive(Clone, Copy, Debug, PartialEq, Eq)]
pub enum ConfigFault {
    /// `seats` isn't 1 to 64.
    Seats,
    /// `objects` isn't 1 to 16,777,216.
    Objects,
    /// `slots` isn't 64 to 4,096.
    Slots,
    /// `write_max` isn't 1 to 64.
    WriteMax,
    /// `1 <= low <= high <= slots - write_max` doesn't hold.
    Marks,
    /// `base` is above `LAST`.
    Base,
}

impl Config {
    /// Whether each field is in its range. A fault names the first field that isn't, in the order
    /// of the variants. The config is left as it is.
    pub fn check(&self) -> Result<(), ConfigFault>
        ensures { Answers self.now result }
    {
        if !(1..=64).contains(&self.seats) {
            return Err(ConfigFault::Seats);
        }
        if !(1..=16_777_216).contains(&self.objects) {
            return Err(ConfigFault::Objects);
        }
        if !(64..=4_096).contains(&self.slots) {
            return Err(ConfigFault::Slots);
        }
        if !(1..=64).contains(&self.write_max) {
            return Err(ConfigFault::WriteMax);
        }
        if self.low < 1 || self.low > self.high || self.high > self.slots - self.write_max {
            return Err(ConfigFault::Marks);
        }
        if self.base > LAST {
            return Err(ConfigFault::Base);
        }
        Ok(())
    }
}
