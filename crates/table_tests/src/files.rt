// A file to test with: a type of each shape, a binding and a leaf.

pub const INT: u16 = 1;

pub const STRING: u16 = 2;

pub const SHARED: u16 = 3;

pub const MUTABLE: u16 = 4;

pub const RAW: u16 = 5;

pub const BOXED: u16 = 6;

pub const UNION: u16 = 7;

pub const TUPLE: u16 = 8;

pub const STRUCT: u16 = 9;

pub const CLOSURE: u16 = 10;

pub const UNIT: u16 = 11;

// a number past the last type, which the struct names
pub const ABSENT: u16 = 200;

pub const RECORDS: usize = 13;

// where the last record begins
pub const LAST: usize = 87;

// A record a line: i32, String, &String, &mut i32, *const i32, Box of String, union of i32 and *const i32, (String, i32),
// struct of that and of a type that is no row, closure 259, (), a binding of i32, a leaf.
pub const FILE: &[u8] = b"\
    \x01\x00\x02\x01\x01\
    \x01\x00\x02\x01\x00\
    \x01\x00\x04\x02\x01\x00\x02\
    \x01\x00\x04\x03\x00\x00\x01\
    \x01\x00\x04\x04\x01\x00\x01\
    \x01\x00\x04\x05\x00\x00\x02\
    \x01\x00\x06\x06\x01\x00\x01\x00\x05\
    \x01\x00\x06\x07\x00\x00\x02\x00\x01\
    \x01\x00\x06\x08\x00\x00\x08\x00\xc8\
    \x01\x00\x04\x09\x00\x01\x03\
    \x01\x00\x02\x07\x01\
    \x02\x00\x07\x00\x01\x00\x6e\x61\x6d\x65\
    \x03\x00\x05\x00\x00\x00\x01\x00";
