// The commands by name, and how many arguments each takes. A command that is added stands here, in `help`, and in the crate `command`.
use files::Failed;

#[derive(Clone, Copy, PartialEq, Eq)]
pub enum Command {
    List,
    Lay,
    Read,
    MxfWrite,
    MxfRead,
    Help,
    HelpOption,
    Version,
}

impl Command {
    pub fn named(name: &[u8]) -> Option<Command> {
        match name {
            b"list" => Some(Command::List),
            b"lay" => Some(Command::Lay),
            b"read" => Some(Command::Read),
            b"mxf-write" => Some(Command::MxfWrite),
            b"mxf-read" => Some(Command::MxfRead),
            b"help" => Some(Command::Help),
            b"--help" => Some(Command::HelpOption),
            b"--version" => Some(Command::Version),
            _ => None,
        }
    }

    // Whether it takes so many words, `vanc` and its own name among them.
    pub fn takes(self, count: usize) -> bool {
        match self {
            Command::List | Command::Help => matches!(count, 2 | 3),
            Command::Lay | Command::Read => count == 5,
            Command::MxfWrite => matches!(count, 5 | 6),
            Command::MxfRead => matches!(count, 6 | 7),
            Command::HelpOption | Command::Version => count == 2,
        }
    }

    fn usage(self) -> &'static str {
        match self {
            Command::List => "list [SHEET]",
            Command::Lay => "lay PACKING SHEET AREA",
            Command::Read => "read SYSTEM AREA SHEET",
            Command::MxfWrite => "mxf-write FI SHEET ELEMENT [--ten]",
            Command::MxfRead => "mxf-read SYSTEM FI ELEMENT SHEET [--ten]",
            Command::Help => "help [NAME]",
            Command::HelpOption => "--help",
            Command::Version => "--version",
        }
    }

    // How it is called, for one who called it otherwise.
    pub fn fail_usage(self, rt: &HostRuntime) -> Failed {
        files::fail(rt, b"usage: vanc ", self.usage())
    }
}

pub fn fail_unknown(rt: &HostRuntime, name: &[u8]) -> Failed {
    files::fail_quoted(rt, "", name, " is no command; vanc --help lists them")
}
