//! Laws of the grammar. Each is the contract of a function that does nothing.
ghost use Rattle.std.specs.Prelude.{◌≡◌, ◌⊎◌, ◌↔◌, ℕ, List, ◌++◌};
ghost use Rattle.nw_codec.specs.declared.message.Message.{Message};
ghost use Rattle.nw_codec.specs.Spelled.{Spells, IsSpelled, HasTrailingBytes};
ghost use Rattle.nw_codec.specs.Typed.{AreBytes};
ghost use Rattle.nw_decode.specs.declared.error.DecodeError.{DecodeError};
ghost use Rattle.nw_decode.specs.declared.error.DecodeError.TheVariants.{Trailing};
ghost use Rattle.nw_decode.specs.Faults.{IsFirstFault};

/// A text encodes at most one message, and no message's text is a proper prefix of another's. If the texts of two messages begin
/// one text, then the messages are the same, and the same bytes follow them.
pub fn one_message()
    ensures { (a b x y : List ℕ) (m n : Message) → Spells a m → Spells b n → a ++ x ≡ b ++ y
        → (m ≡ n) × (x ≡ y) }
{}

/// A text of bytes either encodes a message or has a first fault, and never both. It has at most one first fault.
pub fn grammar_or_fault()
    ensures either { (text : List ℕ) → AreBytes text
        → IsSpelled text ⊎ ((e : DecodeError) × IsFirstFault text e) }
    ensures not_both { (text : List ℕ) (e : DecodeError) → IsSpelled text → IsFirstFault text e
        → ⊥ }
    ensures one_fault { (text : List ℕ) (d e : DecodeError) → IsFirstFault text d
        → IsFirstFault text e → d ≡ e }
{}

/// `Trailing` is the first fault exactly when bytes follow the text of a message.
pub fn trailing_follows_a_message()
    ensures { (text : List ℕ) → AreBytes text → (IsFirstFault text Trailing ↔ HasTrailingBytes text) }
{}
