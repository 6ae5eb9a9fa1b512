// An outcome as one number, for who keeps many of them: the codec's own calls answer with a `Result`.
ghost use Rattle.std.specs.Prelude.{◌≡◌, ◌%◌};
ghost use Rattle.rules.specs.Numbers.{refused};
ghost use Rattle.danc.specs.Code.{base, code_of};

// A count of packets is below this, and this times a place of the string stands above it. It is over the packet limit, so that both can be taken out
// again.
pub const BASE: usize = 2048;

// From here on such a number is a refusal: its packet, and `BASE` times its number.
pub const REFUSED: usize = 1073741824;

// A refusal's number and its packet as one number. Both are cut to their room, so that any fit.
pub fn refusal(number: u64, packet: usize) -> usize
    ensures { result ≡ code_of 0 0 (refused (number % base) (packet % base)) }
{
    REFUSED + BASE * (number as usize % BASE) + packet % BASE
}
