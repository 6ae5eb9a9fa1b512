// The numbers of refusals in words: the one table of them (document 01, "Refusals"; document 02, A1, A3). include/vanc.h has the same words for C.
#![tactic(auto)]

ghost use Rattle.std.specs.Prelude.{◌≡◌, IfSome};
ghost use Rattle.rules.specs.Refusals.{number as number_of};

use frame::LIMIT;
use rules::Refusal;
use std::fmt;

mod named_word;

// The last number that the command gives.
pub const LAST: u64 = 20;

// The refusal that has a number; none has 0, which says that nothing is refused.
pub fn numbered(number: u64) -> Option<Refusal>
    ensures { IfSome result (λ refusal. number_of refusal ≡ number) }
{
    match number {
        1 => Some(Refusal::Packing),
        2 => Some(Refusal::Shape),
        3 => Some(Refusal::System),
        4 => Some(Refusal::AreaLength),
        5 => Some(Refusal::PacketLimit),
        6 => Some(Refusal::Location),
        7 => Some(Refusal::Flag),
        8 => Some(Refusal::Word),
        9 => Some(Refusal::CutOff),
        10 => Some(Refusal::Checksum),
        11 => Some(Refusal::PacketCount),
        12 => Some(Refusal::Room),
        13 => Some(Refusal::Packs),
        14 => Some(Refusal::Length),
        15 => Some(Refusal::StoredChecksum),
        16 => Some(Refusal::Line),
        17 => Some(Refusal::Buffer),
        18 => Some(Refusal::NoLine),
        19 => Some(Refusal::Element),
        20 => Some(Refusal::PictureLine),
        29 => Some(Refusal::EightBits),
        _ => None,
    }
}

// What is wrong, for a mastering operator.
#[derive(Clone, Copy)]
pub struct Words(pub Refusal);

impl fmt::Display for Words {
    fn fmt<W: fmt::Write>(&self, f: &mut fmt::Formatter<W>) -> fmt::Result {
        f.write_str(match self.0 {
            Refusal::Packing => "the packing is neither 1 (packs of five) nor 2 (long packs)",
            Refusal::Shape => "the sheet's counts do not agree with its length",
            Refusal::System => "the system is not 1 (1080/60i), 2 (1080/50i) or 3 (720/60p)",
            Refusal::AreaLength => {
                "the area is not as long as the system's: 9600 bytes, or 11520 in 1080/50i"
            }
            Refusal::PacketLimit => return write!(f, "more packets than the limit of {LIMIT}"),
            Refusal::Location => "the line is past the system's last, or the flags are over 3",
            Refusal::Flag => "it does not begin with 000h 3FFh 3FFh, or has fewer than 7 words",
            Refusal::Word => "a word from DID to the last user word is not its byte with parity",
            Refusal::CutOff => "it is cut off: its DC asks for more words than are left",
            Refusal::Checksum => "its checksum word is wrong",
            Refusal::PacketCount => "packets and locations differ in number",
            Refusal::Room => "the frame has no room for all packets in this packing",
            Refusal::Packs => "the packs are not laid by the rules of SMPTE 375M",
            Refusal::Length => "its length or its fill is wrong",
            Refusal::StoredChecksum => "its stored checksum is wrong",
            Refusal::Line => "its line is 0 or past the system's last",
            Refusal::Buffer => "the result is longer than the room for it",
            Refusal::NoLine => "it has no line, which an element asks for",
            Refusal::Element => "the element is not of the form of SMPTE ST 436-1 from here on",
            Refusal::PictureLine => {
                "its line is a picture line, or kept free for switching (7, 8, 569, 570)"
            }
            Refusal::EightBits => {
                "it is outside the eight-bit profile: DID 04h, 08h or 0Ch, SDID a multiple of four and not 00h"
            }
        })
    }
}

// A location of a sheet: its line, and its flags.
#[derive(Clone, Copy)]
struct Location {
    line: u16,
    flags: u16,
}

impl Location {
    // None where the sheet has no location k.
    fn of(sheet: &[u16], k: u64) -> Option<Location> {
        if u64::from(*sheet.get(2)?) <= k {
            return None;
        }
        let at = 3 + 2 * (k as usize);
        Some(Location {
            line: *sheet.get(at)?,
            flags: *sheet.get(at + 1)?,
        })
    }
}

// Why no packet may stand on a line of the frame (document 02, A3): what is not kept free for switching is a picture line.
#[derive(Clone, Copy)]
struct LineWords {
    system: u64,
    line: u64,
}

impl LineWords {
    // Whether the line is kept free for switching ("Vertical lines excluded from use", 003, table 3a; what for, its 5.3): in 1080 in both fields.
    fn is_for_switching(&self) -> bool {
        matches!(self.line, 7 | 8) || self.system != 3 && matches!(self.line, 569 | 570)
    }
}

impl fmt::Display for LineWords {
    fn fmt<W: fmt::Write>(&self, f: &mut fmt::Formatter<W>) -> fmt::Result {
        let line = self.line;
        if self.is_for_switching() {
            return write!(f, "line {line} is kept free for switching");
        }
        write!(f, "line {line} is a picture line")
    }
}

// 20 of a packet that was read, whose line the caller has found: where it is wrong, and what.
#[derive(Clone, Copy)]
pub struct LineFault {
    pub place: u64,
    pub system: u64,
    pub line: u64,
}

impl fmt::Display for LineFault {
    fn fmt<W: fmt::Write>(&self, f: &mut fmt::Formatter<W>) -> fmt::Result {
        let place = self.place;
        let words = LineWords {
            system: self.system,
            line: self.line,
        };
        write!(f, "packet {place}: {words}")
    }
}

// A refusal as a call gives it back. `sheet` is the one that was refused, and without numbers where none was; `word` is 0 where the call gives none.
// It prints where it is wrong, and what: what the place counts, and for 7 to 10 the word of the packet (document 02, A2).
#[derive(Clone, Copy)]
pub struct Fault<'a> {
    pub number: u64,
    pub place: u64,
    pub word: u64,
    pub sheet: &'a [u16],
}

impl Fault<'_> {
    fn put_location<W: fmt::Write>(&self, f: &mut fmt::Formatter<W>) -> fmt::Result {
        let place = self.place;
        match Location::of(self.sheet, place) {
            Some(Location { line, flags }) => {
                write!(f, "location {place} (line {line}, flags {flags}): ")
            }
            None => write!(f, "location {place}: "),
        }
    }

    // The line of a location on which no packet may stand.
    fn put_line<W: fmt::Write>(&self, f: &mut fmt::Formatter<W>) -> fmt::Result {
        match (self.sheet.get(1), Location::of(self.sheet, self.place)) {
            (Some(system), Some(location)) => {
                let words = LineWords {
                    system: u64::from(*system),
                    line: u64::from(location.line),
                };
                write!(f, "{words}")
            }
            _ => write!(f, "{}", Words(Refusal::PictureLine)),
        }
    }

    // The packet, with the line that the sheet has for it, where it has one.
    fn put_packet<W: fmt::Write>(&self, f: &mut fmt::Formatter<W>) -> fmt::Result {
        let place = self.place;
        match Location::of(self.sheet, place) {
            None => write!(f, "packet {place}"),
            Some(Location { line: 0, .. }) => write!(f, "packet {place} (no line)"),
            Some(Location { line, .. }) => write!(f, "packet {place} (line {line})"),
        }
    }

    fn put_word<W: fmt::Write>(&self, f: &mut fmt::Formatter<W>) -> fmt::Result {
        self.put_packet(f)?;
        named_word::put(f, self.sheet, self.place, self.word)
    }
}

impl fmt::Display for Fault<'_> {
    fn fmt<W: fmt::Write>(&self, f: &mut fmt::Formatter<W>) -> fmt::Result {
        let Some(refusal) = numbered(self.number) else {
            return f.write_str("no number of a refusal");
        };
        let words = Words(refusal);
        match refusal {
            Refusal::Location => {
                self.put_location(f)?;
                write!(f, "{words}")
            }
            Refusal::PictureLine => {
                self.put_location(f)?;
                self.put_line(f)
            }
            Refusal::Flag | Refusal::Word | Refusal::CutOff | Refusal::Checksum => {
                self.put_word(f)?;
                write!(f, ": {words}")
            }
            Refusal::Length | Refusal::StoredChecksum | Refusal::Line | Refusal::NoLine => {
                self.put_packet(f)?;
                write!(f, ": {words}")
            }
            Refusal::Element => write!(f, "byte {}: {words}", self.place),
            _ => write!(f, "{words}"),
        }
    }
}

// 8 of a sheet that is taken as found (document 02, A13): it says of a word only that it has more than ten bits.
#[derive(Clone, Copy)]
pub struct FoundFault<'a>(pub Fault<'a>);

impl fmt::Display for FoundFault<'_> {
    fn fmt<W: fmt::Write>(&self, f: &mut fmt::Formatter<W>) -> fmt::Result {
        self.0.put_word(f)?;
        f.write_str(": a word over 3FFh has more than ten bits")
    }
}
