// The rules of the build. What a reader must believe is in specs/, what follows from it in proofs/.
// Here are only the refusals and the shapes of what the calls give back ("Numbers given back"), so that code and rules speak of one type.
#![tactic(auto)]

ghost use Rattle.std.specs.Prelude.{◌≡◌};
ghost use Rattle.rules.specs.Refusals.{number};

// Why a sheet, an area, a string or an element is refused (document 01, "Numbers given back"; document 02, A1, A3, A14): each by its number.
#[derive(Clone, Copy, PartialEq, Eq)]
pub enum Refusal {
    Packing = 1,
    Shape = 2,
    System = 3,
    AreaLength = 4,
    PacketLimit = 5,
    Location = 6,
    Flag = 7,
    Word = 8,
    CutOff = 9,
    Checksum = 10,
    PacketCount = 11,
    Room = 12,
    Packs = 13,
    Length = 14,
    StoredChecksum = 15,
    Line = 16,
    Buffer = 17,
    NoLine = 18,
    Element = 19,
    PictureLine = 20,
    EightBits = 29,
}

impl Refusal {
    // As the calls give it back, and as the command prints it.
    pub fn number(self) -> u64
        ensures { result ≡ number self }
    {
        self as u64
    }
}

// What is refused: the refusal and its place; of 7 to 10 the word too (document 02, A2), else 0.
#[derive(Clone, Copy, PartialEq, Eq)]
pub struct Refused {
    pub refusal: Refusal,
    pub place: usize,
    pub word: usize,
}

// What the test of a packet gives back: the first word at fault (document 02, A2), or the packet's type, 1 or 2. On refusal kind is 0.
#[repr(C)]
#[derive(Clone, Copy)]
pub struct Judged {
    pub number: u64,
    pub word: u64,
    pub kind: u64,
}

// What laying gives back. Number 0 is success; on refusal packs and bytes are 0. 7 to 10 name a word of the packet; else word is 0.
#[repr(C)]
#[derive(Clone, Copy)]
pub struct Laid {
    pub number: u64,
    pub place: u64,
    pub word: u64,
    pub packs: u64,
    pub bytes: u64,
}

// What reading gives back. Packing 0 is an empty list; on refusal the last three are 0.
#[repr(C)]
#[derive(Clone, Copy)]
pub struct ReadBack {
    pub number: u64,
    pub place: u64,
    pub packing: u64,
    pub packets: u64,
    pub numbers: u64,
}

// What a step of the walker gives back. A packet: 0, its place, its length. The end: 0, the place, 0. A refusal: its number, its place, 0.
#[repr(C)]
#[derive(Clone, Copy)]
pub struct Step {
    pub number: u64,
    pub place: u64,
    pub length: u64,
}

// What the lister's tests give back: a refusal, with its word, or the figures of its first line.
#[repr(C)]
#[derive(Clone, Copy)]
pub struct Tested {
    pub number: u64,
    pub place: u64,
    pub word: u64,
    pub system: u64,
    pub packets: u64,
    pub bytes: u64,
    pub packs: u64,
}
