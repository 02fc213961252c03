// Why a text of rules is refused, and where.
ghost use Rattle.std.specs.Prelude.{◌≡◌};

use refusals::Refusal;
use std::error::Error;
use std::fmt;

// A refusal, and its place in the text. `LentTooFew` has none, and 0 stands for it.
#[derive(Clone, Copy, Debug, PartialEq, Eq)]
pub struct Refused {
    pub refusal: Refusal,
    pub place: u16,
}

impl fmt::Display for Refused {
    fn fmt<W: fmt::Write>(&self, f: &mut fmt::Formatter<W>) -> fmt::Result {
        if self.refusal == Refusal::LentTooFew {
            return write!(f, "{}", self.refusal);
        }
        write!(f, "{} at {}", self.refusal, self.place)
    }
}

impl Error for Refused {}

// The error of a refusal at a place, whatever the answer would be.
pub fn refuse<T>(refusal: Refusal, place: u16) -> Result<T, Refused>
    ensures { result ≡ Err (record { refusal = refusal; place = place }) }
{
    Err(Refused { refusal, place })
}
