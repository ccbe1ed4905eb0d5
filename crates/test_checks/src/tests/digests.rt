//! Digests, and the rounds of shared values.
use nw_digest::{Digest, InRound, Round, Shared, digest_of};
use samples::round;
use std::test::Fail;

/// SHA-256 of the text `abc`.
pub(super) const OF_ABC: [u8; 32] = [
    0xba, 0x78, 0x16, 0xbf, 0x8f, 0x01, 0xcf, 0xea, 0x41, 0x41, 0x40, 0xde, 0x5d, 0xae, 0x22, 0x23, //
    0xb0, 0x03, 0x61, 0xa3, 0x96, 0x17, 0x7a, 0x9c, 0xb4, 0x10, 0xff, 0x61, 0xf2, 0x00, 0x15, 0xad,
];

/// SHA-256 of the empty text.
pub(super) const OF_NOTHING: [u8; 32] = [
    0xe3, 0xb0, 0xc4, 0x42, 0x98, 0xfc, 0x1c, 0x14, 0x9a, 0xfb, 0xf4, 0xc8, 0x99, 0x6f, 0xb9, 0x24, //
    0x27, 0xae, 0x41, 0xe4, 0x64, 0x9b, 0x93, 0x4c, 0xa4, 0x95, 0x99, 0x1b, 0x78, 0x52, 0xb8, 0x55,
];

#[test]
fn digests_of_known_texts(rt: HostRuntime) {
    assert!(rt; digest_of(b"abc") == Digest(OF_ABC) && digest_of(b"") == Digest(OF_NOTHING));
}

#[test]
fn a_round_has_48_bits(rt: HostRuntime) {
    let rounds = [281_474_976_710_655, 281_474_976_710_656].map(Round::new);
    assert!(rt; rounds.map(|round| round.map(Round::get)) == [Some(281_474_976_710_655), None]);
}

/// A value that consists of its round.
#[derive(Drop)]
struct Numbered(Round);

impl InRound for Numbered {
    ghost round_of = { λ it. it.0 };

    fn round(&self) -> Round {
        self.0
    }
}

fn round_of<T: InRound>(item: &T) -> u64 {
    item.round().get()
}

#[test]
fn a_shared_value_has_the_round_of_its_value(rt: HostRuntime) -> Result<(), Fail> {
    let first = Shared::new(rt.alloc(), Numbered(round(7)))?;
    let second = first.try_clone()?;
    drop(first);
    assert_eq!(rt; round_of(&second), 7);
    Ok(())
}
