//! The form of a row, in numbers.

/// A row has at most so many words.
pub const MOST_WORDS: usize = 64;

/// The bytes of the longest row: 64 words of ten digits, 63 commas and byte 10.
pub const MOST_BYTES: usize = 704;
