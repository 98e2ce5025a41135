/// The largest whole number that every reader of JSON holds exactly: 2^53 - 1 (RFC 8259, section 6).
pub const LARGEST_WHOLE: u64 = 9007199254740991;
