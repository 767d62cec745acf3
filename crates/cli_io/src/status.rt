//! The exit statuses of both programs if they are stopped.

/// An allocation failed.
pub const OUT_OF_MEMORY: u8 = 3;

/// A read or a write failed.
pub const FAILED: u8 = 4;

/// Nobody reads the output: 128 and the number of the signal that ends a program so.
pub const NOBODY_READS: u8 = 141;
