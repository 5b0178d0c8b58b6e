// A Reject's reasons: the numbers of 373 that the paper has.

// "First malformed field: Reject 0; without a value: Reject 4".
pub const MALFORMED: u32 = 0;

pub const VALUELESS: u32 = 4;

// "missing 1, twice 5, bad form 6, out of range 5"; what the rules and the book reject is 5 too.
pub const MISSING: u32 = 1;

pub const WRONG_VALUE: u32 = 5;

pub const WRONG_FORM: u32 = 6;

// "Reject 9 naming that tag".
pub const WRONG_ID: u32 = 9;

// "Type not listed, or A in phase 2 or 4: Reject 11".
pub const WRONG_TYPE: u32 = 11;
