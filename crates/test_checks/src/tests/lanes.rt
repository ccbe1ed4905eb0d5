//! Digests of eight messages at once.
use super::digests::{OF_ABC, OF_NOTHING};
use nw_digest::digest_of;
use nw_lanes::sha256_of_lanes;

/// The next number of a sequence.
fn next(number: u32) -> u32 {
    number.wrapping_mul(1_664_525).wrapping_add(1_013_904_223)
}

#[test]
fn lanes_have_the_digests_of_known_texts(rt: HostRuntime) {
    let (abc, nothing): (&[u8], &[u8]) = (b"abc", b"");
    let digests = sha256_of_lanes(&[abc, nothing, abc, nothing, abc, nothing, abc, nothing]);
    for lane in 0..8 {
        let expected = if lane % 2 == 0 { OF_ABC } else { OF_NOTHING };
        assert!(rt; digests[lane] == expected, "{lane}");
    }
}

#[test]
fn lanes_of_any_lengths_have_the_digests_of_their_messages(rt: HostRuntime) {
    let mut number = 1;
    let mut bytes = [0u8; 512];
    for at in 0..512 {
        number = next(number);
        bytes[at] = (number >> 24) as u8;
    }
    for _ in 0..200 {
        let mut messages: [&[u8]; 8] = [&bytes; 8];
        for lane in 0..8 {
            number = next(number);
            messages[lane] = &bytes[..(number >> 23) as usize];
        }
        let digests = sha256_of_lanes(&messages);
        for lane in 0..8 {
            assert!(rt; digests[lane] == digest_of(messages[lane]).0, "{lane}");
        }
    }
}
