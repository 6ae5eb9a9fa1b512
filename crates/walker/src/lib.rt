// The walker over a DANC string. Document 01, "The walker". Quotations are from document 01.
// The struct's functions are thin: the work is `walked_on`, on a slice and numbers.
#![tactic(auto)]

ghost use Rattle.std.specs.Prelude.{◌≡◌};
ghost use Rattle.rules.specs.Walker.{answer};
ghost use Rattle.walker.specs.Moved.{started, answered, moved, walked_on};

use danc::walk;
use frame::StringByte;
use rules::Step;

// "The walker keeps the lent string and its place in it." The fields stand in the order in which `walked_on` takes them.
#[derive(Clone, Copy)]
pub struct Walker<'a> {
    pub system: u64,
    pub string: &'a [u8],
    pub at: StringByte,
}

// An answer, and where the walker then stands.
#[derive(Clone, Copy)]
pub struct Walked {
    pub answer: Step,
    pub at: StringByte,
}

// What stands at a place, and where a walker then stands. The sum fits: only a packet has a length, and a packet lies within the string.
fn walked_on(system: u64, string: &[u8], place: StringByte) -> Walked
    ensures { result ≡ walked_on system string.now place.0 }
{
    let answer = walk(system, string, place);
    Walked {
        answer,
        at: StringByte(place.0 + answer.length),
    }
}

impl<'a> Walker<'a> {
    // "It takes the string without fill and the system". "It starts at place 0"
    pub fn new(system: u64, string: &'a [u8]) -> Walker<'a>
        ensures { result ≡ started system string.entry }
    {
        Walker {
            system,
            string,
            at: StringByte(0),
        }
    }

    // "Each step gives the next packet's place and length, the string's end, or 14, 15 or 16": the answer, and the place moves by its
    // length. "After the end or a refusal the place stays"
    pub fn step<'s>(&'s mut self) -> Step
        ensures { (result ≡ answered self.old) × (self.new ≡ moved self.old) }
    {
        let on = walked_on(self.system, self.string, self.at);
        self.at = on.at;
        on.answer
    }
}

// One step of a walker at any place: "a place past the string's end answers the end".
pub fn next(system: u64, string: &[u8], place: StringByte) -> Walked
    ensures { result ≡ walked_on system string.now place.0 }
{
    let mut walker = Walker {
        system,
        string,
        at: place,
    };
    let answer = walker.step();
    Walked {
        answer,
        at: walker.at,
    }
}

// The k-th answer, from 0, of a walker that starts at place 0. No step is made after an answer without a length: "each further step
// answers the same".
pub fn kth(system: u64, string: &[u8], k: u64) -> Step
    ensures { result ≡ answer system string.now k }
{
    let mut walked = next(system, string, StringByte(0));
    for _ in 0..k {
        if walked.answer.length == 0 {
            return walked.answer;
        }
        walked = next(system, string, walked.at);
    }
    walked.answer
}
