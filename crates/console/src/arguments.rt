// Arguments: numbers, systems, file names. What is wrong with one is said by its name, and the caller does nothing more.
use file_status::PATH_MAX;
use file_status::errors::EINVAL;
use files::Failed;
use std::env::FillError;
use std::io;
use std::rt::Env;
use text::Line;

// An argument, as long as a path can be.
pub type Argument = Line<PATH_MAX>;

// From here on one more digit could wrap.
const LARGE: u64 = 100000000000000000;

// A number and one more digit.
fn with_digit(n: u64, digit: u8) -> Option<u64> {
    if LARGE <= n || !digit.is_ascii_digit() {
        return None;
    }
    Some(10 * n + u64::from(digit - b'0'))
}

// A number in decimal digits, below 10^18; none for any other text.
fn number_of(digits: &[u8]) -> Option<u64> {
    if digits.is_empty() {
        return None;
    }
    digits.iter().try_fold(0, |n, &digit| with_digit(n, digit))
}

// A system by its number or by its name.
fn system_of(word: &[u8]) -> Option<u64> {
    match word {
        b"1080/60i" => Some(1),
        b"1080/50i" => Some(2),
        b"720/60p" => Some(3),
        _ => number_of(word),
    }
}

// How much of a word is quoted that is longer than a buffer.
const QUOTED: usize = 64;

// Argument i; empty where there is none. One that is too long is its start and two dots, which no command, number or system is.
pub fn word(rt: &impl Env, i: usize) -> Argument {
    let mut buf = [0u8; PATH_MAX];
    match rt.arg(i, &mut buf) {
        Ok(n) => Argument::of(&buf[..n]),
        Err(FillError::TooLong) => {
            let mut start = Argument::of(&buf);
            start.truncate(QUOTED);
            start.push_bytes(b"..");
            start
        }
        Err(FillError::NotPresent) => Argument::new(),
    }
}

// How many arguments there are, the program's own name among them.
pub fn count(rt: &impl Env) -> usize {
    let mut none = [0u8; 0];
    for i in 0..usize::MAX {
        if matches!(rt.arg(i, &mut none), Err(FillError::NotPresent)) {
            return i;
        }
    }
    usize::MAX
}

// The number that is argument i. Where it is none, that is said by the name, which has a colon behind it.
pub fn number(rt: &HostRuntime, i: usize, name: &str) -> Result<u64, Failed> {
    let said = word(rt, i);
    match number_of(said.as_bytes()) {
        Some(n) => Ok(n),
        None => Err(files::fail_quoted(rt, name, said.as_bytes(), " is no number")),
    }
}

// The system that is argument i. Where it is none, that is said.
pub fn system(rt: &HostRuntime, i: usize) -> Result<u64, Failed> {
    let said = word(rt, i);
    match system_of(said.as_bytes()) {
        Some(n) => Ok(n),
        None => Err(files::fail_quoted(
            rt,
            "SYSTEM: ",
            said.as_bytes(),
            " is neither a number nor 1080/60i, 1080/50i or 720/60p",
        )),
    }
}

// The FI, 0 or 1, that is argument i. Where it is neither, that is said.
pub fn fi(rt: &HostRuntime, i: usize) -> Result<bool, Failed> {
    let said = word(rt, i);
    match number_of(said.as_bytes()) {
        Some(0) => Ok(false),
        Some(1) => Ok(true),
        _ => Err(files::fail_quoted(rt, "FI: ", said.as_bytes(), " is neither 0 nor 1")),
    }
}

// The file name that is argument i. Where there is none, that is said.
pub fn path(rt: &HostRuntime, i: usize, name: &str) -> Result<Argument, Failed> {
    let name = name.as_bytes();
    let mut buf = [0u8; PATH_MAX];
    match rt.arg(i, &mut buf) {
        Ok(0) => Err(files::fail(rt, name, ": an empty name")),
        Ok(n) if n < PATH_MAX => Ok(Argument::of(&buf[..n])),
        Ok(_) | Err(FillError::TooLong) => Err(files::fail(rt, name, ": File name too long")),
        Err(FillError::NotPresent) => {
            let error = io::Error::from_raw_os_error(EINVAL);
            Err(files::fail_by(rt, name, "", error))
        }
    }
}
