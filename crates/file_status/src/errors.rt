// Errors by their numbers on Linux, which C's errno has.
use std::io::{Error, ErrorKind};

pub const ENOENT: i32 = 2;

pub const EIO: i32 = 5;

pub const EBADF: i32 = 9;

pub const ENOMEM: i32 = 12;

pub const EEXIST: i32 = 17;

pub const EINVAL: i32 = 22;

pub const EFBIG: i32 = 27;

pub const ENOSPC: i32 = 28;

pub const ENAMETOOLONG: i32 = 36;

// More links than the system follows.
pub const ELOOP: i32 = 40;

// A name that is not UTF-8.
pub const EILSEQ: i32 = 84;

// The number of an error. One that std made itself has none, and gets that of the system's nearest.
pub fn number_of(error: Error) -> i32 {
    match error.raw_os_error() {
        Some(number) => number,
        None => nearest(error.kind()),
    }
}

fn nearest(kind: ErrorKind) -> i32 {
    match kind {
        ErrorKind::OutOfMemory => ENOMEM,
        // A path with a 0 in it.
        ErrorKind::InvalidInput => EINVAL,
        // A link that names what is not UTF-8.
        ErrorKind::InvalidFilename => EILSEQ,
        // A write that took nothing.
        ErrorKind::WriteZero => ENOSPC,
        _ => EIO,
    }
}
