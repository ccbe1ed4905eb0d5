//! Destinations of encoded bytes: a `Vec`, a hash, and a borrowed buffer.
ghost use Rattle.std.specs.Prelude.{◌≡◌, ◌++◌, ◌≤◌, ◌+◌, ℕ, List, length, take, drop, OnOk};
ghost use Rattle.nw_codec.specs.Typed.{AreBytes};

use sha2::Sha256;
use std::alloc::AllocError;
use std::convert::Infallible;

/// A destination of encoded bytes, which takes them piece by piece.
pub(super) trait Sink {
    /// Why it did not take a piece.
    type Refusal: Drop;

    // The pieces taken so far make this text. A buffer was the list before, and is it still behind them.
    ghost holds: { Self → List ℕ → List ℕ → Type 0 };

    // A piece must not be longer. Only a buffer runs out of room.
    ghost room: { Self → ℕ };

    // The ghost name of its buffer. The lender of the buffer sees what is written while the name stays the same.
    ghost place: { Self → ℕ };

    fn put(&mut self, piece: &[u8]) -> Result<(), Self::Refusal>
        requires { length piece.now ≤ room self.old }
        ensures text { OnOk result ((before text : List ℕ) → holds self.old before text
            → holds self.new before (text ++ piece.now)) }
        ensures room { room self.old ≤ room self.new + length piece.now }
        ensures place { place self.new ≡ place self.old }
        ensures bytes { AreBytes piece.now };
}

impl Sink for Vec<u8> {
    type Refusal = AllocError;

    ghost use Rattle.std.specs.Prelude.{◌^◌};

    ghost holds = { λ v _ text. v.items ≡ text };

    ghost room = { λ _. 2 ^ 63 };

    ghost place = { λ _. 0 };

    fn put(&mut self, piece: &[u8]) -> Result<(), AllocError> {
        self.extend_from_slice(piece)
    }
}

impl Sink for Sha256 {
    type Refusal = Infallible;

    ghost use Rattle.std.specs.Prelude.{◌^◌};
    ghost use Rattle.sha2.specs.Hashers.{Holds256};

    ghost holds = { λ s _ text. Holds256 s text };

    ghost room = { λ _. 2 ^ 63 };

    ghost place = { λ _. 0 };

    fn put(&mut self, piece: &[u8]) -> Result<(), Infallible> {
        sha2::Digest::update(self, piece);
        Ok(())
    }
}

/// A borrowed buffer, filled from the front.
#[derive(Drop)]
pub(super) struct Filled<'a> {
    pub(super) buffer: &'a mut [u8],
    pub(super) filled: usize,
    ghost within: { filled ≤ length buffer.now },
}

impl Sink for Filled<'_> {
    type Refusal = Infallible;

    ghost use Rattle.std.specs.Prelude.{◌-◌};

    ghost holds = { λ s before text. (take s.filled s.buffer.now ≡ text)
        × (drop s.filled s.buffer.now ≡ drop s.filled before) };

    ghost room = { λ s. length s.buffer.now - s.filled };

    ghost place = { λ s. s.buffer.ghost_name };

    fn put(&mut self, piece: &[u8]) -> Result<(), Infallible> {
        let end = self.filled + piece.len();
        self.buffer[self.filled..end].copy_from_slice(piece);
        self.filled = end;
        Ok(())
    }
}
