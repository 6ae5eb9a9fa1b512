// The calls over a whole frame (document 01): `lay` lays a sheet's packets into an area, `read` reads an area to a sheet, `walk` walks a string.
#![tactic(auto)]

ghost use Rattle.std.specs.Prelude.{◌≡◌};
ghost use Rattle.vanc.specs.Whole.{whole};

mod laying;
mod reading;

pub use danc::walk;
pub use frame::StringByte;
pub use laying::lay;
pub use reading::read;
use rules::{Refusal, Refused};

// Most refusals name no place: their place is 0.
fn refused(refusal: Refusal) -> Refused
    ensures { result ≡ whole refusal }
{
    Refused {
        refusal,
        place: 0,
        word: 0,
    }
}
