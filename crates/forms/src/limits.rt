//! The limits of a book's numbers.

/// The most agents of a book.
pub const MOST_AGENTS: u32 = 64;

/// The most contracts of a book.
pub const MOST_CONTRACTS: u32 = 64;
