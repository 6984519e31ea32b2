/// The length of the longest head that is read, in bytes.
pub const LONGEST_HEAD: usize = 8_192;

/// The most fields of a head.
pub const MOST_FIELDS: usize = 64;

/// The length of the longest body that is read, in bytes.
pub const LONGEST_BODY: usize = 262_144;

/// The most bytes that are read of a request: a head and a body.
pub const LONGEST_REQUEST: usize = LONGEST_HEAD + LONGEST_BODY;
