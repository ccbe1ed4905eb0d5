//! Rounds of the DAG.
ghost use Rattle.std.specs.Prelude.{◌≡◌, ◌<◌, ◌+◌, ◌^◌};
ghost use Rattle.std.specs.Option.{MatchOption, SomeIff};

use std::marker::Model;

/// A round: a number from 0 to 2^48 - 1, which messages carry in six bytes.
#[derive(Clone, Copy, Debug, PartialEq, Eq, PartialOrd, Ord)]
pub struct Round {
    number: u64,
}

impl Model for Round {
    ghost use Rattle.std.specs.Prelude.{ℕ, ◌<◌, ◌^◌};

    ghost Value = { ℕ };

    ghost view = { λ r. r.number };

    ghost invariant = { λ r. r.number < 2 ^ 48 };

    ghost inverse = { λ n. record { number = n } };
}

impl Round {
    /// The first round.
    pub const ZERO: Round = Round { number: 0 };

    /// The round with this number, or `None` if the number is above 2^48 - 1.
    pub fn new(number: u64) -> Option<Round>
        ensures { SomeIff result (number < 2 ^ 48) number }
    {
        if number < 1 << 48 {
            Some(Round { number })
        } else {
            None
        }
    }

    /// The number of the round, below 2^48.
    pub fn get(self) -> u64
        ensures number { result ≡ self }
        ensures in_range { result < 2 ^ 48 }
    {
        self.number
    }

    /// The round before this one, or `None` if this is the first.
    pub fn before(self) -> Option<Round>
        ensures { MatchOption result (self ≡ 0) (λ before. before + 1 ≡ self) }
    {
        let number = self.number.checked_sub(1)?;
        Some(Round { number })
    }
}
