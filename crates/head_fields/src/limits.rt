//! How much of a head is read, by a server and by who asks one.

/// The most bytes of a head that are read.
pub const MOST_HEAD: usize = 8_192;

/// The most fields of a head that are read.
pub const MOST_FIELDS: usize = 32;
