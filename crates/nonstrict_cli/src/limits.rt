/// The most modules of a folder.
pub const MAX_FILES: usize = 10_000;

/// How much is read of a file: one byte more than a checked file may have.
pub const MAX_READ: u64 = 1_048_577;

/// The most bytes that are read of all modules of a folder together.
pub const MAX_TOTAL: u64 = 67_108_864;
