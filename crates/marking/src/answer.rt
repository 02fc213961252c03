// Why a prediction table is not accepted.
ghost use Rattle.marking.specs.declared.answer.MarkError.TheVariants.{Refused};
ghost use Rattle.marking.specs.Call.{refusal_of};
ghost use Rattle.std.specs.Prelude.{◌≡◌};

use k_tuple::Terminals;
use refusals::Refusal;

#[derive(Clone, Copy, Debug, PartialEq, Eq)]
pub enum MarkError {
    // the call refuses the table, what was lent, or its numbers
    Refused(Refusal),
    // the first bad row, by its number
    BadRow(u64),
    // no row is bad: the first nonterminal with a string that has no row, and the first such string
    Missing { nonterminal: u64, string: Terminals },
}

impl From<Refusal> for MarkError {
    ghost from_gives = { λ r e. e ≡ Refused r };

    fn from(r: Refusal) -> MarkError {
        MarkError::Refused(r)
    }
}

impl From<MarkError> for Refusal {
    ghost from_gives = { λ e r. r ≡ refusal_of e };

    fn from(e: MarkError) -> Refusal {
        match e {
            MarkError::Refused(r) => r,
            MarkError::BadRow(_) => Refusal::BadRow,
            MarkError::Missing { .. } => Refusal::StringMissing,
        }
    }
}
