// Why a call is refused.
#![tactic(auto)]

ghost use Rattle.std.specs.Prelude.{◌≡◌};
ghost use Rattle.refusal.specs.Numbers.{number_of};

// The refusals by their numbers, from 1 on. Both calls have theirs here: 1 to 12 are those of a listing, 13 is that of a declared type.
#[derive(Clone, Copy, Debug, PartialEq, Eq)]
pub enum Refusal {
    IllFormedListing = 1,
    IllFormedCatalogue,
    TooManyLines,
    AreaSize,
    AnswerTooLong,
    Negative,
    IndexTooLarge,
    TooManyCells,
    TooDeep,
    NotUtf8,
    NoSpace,
    TooWide,
    NotDeclared,
}

impl Refusal {
    // The number that a caller is told.
    pub fn number(self) -> u64
        ensures { result ≡ number_of self }
    {
        self as u64
    }
}
