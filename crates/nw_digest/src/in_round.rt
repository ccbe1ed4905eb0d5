//! Values that belong to a round.
ghost use Rattle.std.specs.Prelude.{◌≡◌, ℕ};

use crate::Round;

/// A value that belongs to a round.
pub trait InRound {
    /// The number of the value's round.
    ghost round_of: { Self → ℕ };

    /// The value's round.
    fn round(&self) -> Round
        ensures { result ≡ round_of self.now };
}
