//! Signed texts, and the demonstration scheme.
use nw_codec::Subject;
use nw_committee::Key;
use nw_digest::{Digest, Round};
use nw_sig::{DemoSigner, Scheme, Signer, text_of_block, text_of_vote};
use std::test::Fail;

#[test]
fn signed_texts_begin_with_four_letters(rt: HostRuntime) -> Result<(), Fail> {
    let round = Round::new(0x0102_0304_0506).ok_or("a round has 48 bits")?;
    let of_block = text_of_block(&Digest([7; 32]));
    let of_vote = text_of_vote(&Subject {
        digest: Digest([7; 32]),
        round,
        author: 0x0809,
    });
    assert!(rt; &of_block[..4] == b"NWBK".as_slice() && &of_block[4..] == [7; 32].as_slice());
    assert!(rt;
        &of_vote[..4] == b"NWVT".as_slice()
            && &of_vote[4..36] == [7; 32].as_slice()
            && &of_vote[36..] == [1, 2, 3, 4, 5, 6, 8, 9].as_slice()
    );
    Ok(())
}

/// Whether the signer's scheme accepts its signature of a text, and rejects it for another text.
fn accepts_its_own<S: Signer>(signer: &S) -> bool {
    let signature = signer.sign(b"abc");
    S::Scheme::verify(&signer.key(), b"abc", &signature)
        && !S::Scheme::verify(&signer.key(), b"abd", &signature)
}

/// SHA-256 of a key of 31 bytes 0 and a byte 3, and the text `abc`.
const SIGNED: [u8; 32] = [
    0x73, 0x06, 0x23, 0xf3, 0xc0, 0xff, 0x8e, 0xf0, 0x93, 0xd3, 0x01, 0xbd, 0x86, 0xd7, 0x8a, 0x45, //
    0xfb, 0x88, 0x57, 0x51, 0x72, 0x5e, 0xab, 0x4a, 0xcf, 0x8b, 0x8a, 0x9b, 0x29, 0x38, 0x14, 0x20,
];

#[test]
fn a_demonstration_signature_is_a_digest_written_twice(rt: HostRuntime) {
    let mut key = [0; 32];
    key[31] = 3;
    let signer = DemoSigner::new(Key(key));
    let signature = signer.sign(b"abc");
    assert!(rt; &signature.0[..32] == SIGNED.as_slice() && &signature.0[32..] == SIGNED.as_slice());
    assert!(rt; accepts_its_own(&signer));
}
