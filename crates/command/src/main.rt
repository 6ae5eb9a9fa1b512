// The command `vanc`: its first argument names what it does. It ends with status 0, done; 1, refused by the rules; 2, called wrongly, or a file or a
// stream that could not be read or written. A pipe that nobody reads is an error of the write, since the start of every program ignores SIGPIPE.
#![tactic(auto)]

ghost use Rattle.std.specs.Prelude.{◌≤◌};

use console::ending::{Ended, Status};
use console::{arguments, ending};
use element_commands::samples::Samples;
use element_commands::{read as mxf_read, write as mxf_write};
use files::Failed;
use frame_commands::{lay, list, read};
use manual::names::Command;
use manual::{help, names};
use std::process::ExitCode;

// Whether argument i is this word.
fn is(rt: &HostRuntime, i: usize, word: &[u8]) -> bool {
    arguments::word(rt, i).as_bytes() == word
}

// `--ten` stands behind all other arguments, of which i is the last. In place of that it is refused, so that no file gets that name where one was
// forgotten. None where the command is called otherwise.
fn samples(rt: &HostRuntime, i: usize, count: usize) -> Option<Samples>
    requires { i ≤ 5 }
{
    if is(rt, i, b"--ten") {
        return None;
    }
    if count == i + 1 {
        return Some(Samples::EightBits);
    }
    is(rt, i + 1, b"--ten").then_some(Samples::TenBits)
}

fn write_element(rt: &HostRuntime, count: usize) -> Ended {
    match samples(rt, 4, count) {
        Some(samples) => mxf_write::run(rt, samples),
        None => Err(Command::MxfWrite.fail_usage(rt)),
    }
}

fn read_element(rt: &HostRuntime, count: usize) -> Ended {
    match samples(rt, 5, count) {
        Some(samples) => mxf_read::run(rt, samples),
        None => Err(Command::MxfRead.fail_usage(rt)),
    }
}

fn run(rt: &HostRuntime, command: Command, count: usize) -> Ended {
    if !command.takes(count) {
        return Err(command.fail_usage(rt));
    }
    match command {
        Command::List => list::run(rt, count),
        Command::Lay => lay::run(rt),
        Command::Read => read::run(rt),
        Command::MxfWrite => write_element(rt, count),
        Command::MxfRead => read_element(rt, count),
        Command::Help => help::run(rt, count),
        Command::HelpOption => help::overview(rt),
        Command::Version => help::version(rt),
    }
}

// `vanc NAME --help`: the one argument behind a command's name.
fn start(rt: &HostRuntime, name: &[u8], count: usize) -> Ended {
    let asks_for_help = count == 3 && is(rt, 2, b"--help");
    match Command::named(name) {
        Some(command) if asks_for_help => help::of(rt, command),
        Some(command) => run(rt, command, count),
        None => Err(names::fail_unknown(rt, name)),
    }
}

pub fn vanc_command(rt: &HostRuntime) -> Ended {
    if files::hold_streams(rt).is_err() {
        ending::say_unchanged(rt);
        return Err(Failed);
    }
    let count = arguments::count(rt);
    if count < 2 {
        return Err(help::fail_overview(rt));
    }
    let name = arguments::word(rt, 1);
    start(rt, name.as_bytes(), count)
}

fn main(rt: HostRuntime) -> ExitCode {
    match vanc_command(&rt) {
        Ok(Status::Done) => ExitCode::from(0),
        Ok(Status::Refused) => ExitCode::from(1),
        Err(Failed) => ExitCode::from(2),
    }
}
