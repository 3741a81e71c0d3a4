// Files of records, 8 bytes each with no header: what the bytes mean is known to the crates above.
#![tactic(auto)]

pub mod inner;

// The bytes of a record.
pub const RECORD: usize = 8;
