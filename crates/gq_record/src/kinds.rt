//! The tags of values.

pub const NULL: u8 = 0;

pub const INT: u8 = 1;

pub const TEXT: u8 = 2;

pub const NO_CASE: u8 = 3;
