// How many objects the sets may have.

/// How many objects a domain of the sets may have, its 180 heads among them: as many as a domain of the runtime.
pub const MOST_OBJECTS: u32 = 16_777_216;
