// The lengths of legs, from a table: a root is dear, and the same squares come again and again. Its entries are in `entries`.
#![tactic(auto)]

pub mod inner;

// The sides up to which a board has all its lengths in the small and in the middle table.
pub const SMALL_SIDE: usize = 16;

pub const MIDDLE_SIDE: usize = 32;

// A leg whose dx² + dy² is below this has a place in the small, middle or large table; they do not grow with the board.
pub const SMALL: usize = 2 * SMALL_SIDE * SMALL_SIDE + 1;

pub const MIDDLE: usize = 2 * MIDDLE_SIDE * MIDDLE_SIDE + 1;

pub const LARGE: usize = 7939;
