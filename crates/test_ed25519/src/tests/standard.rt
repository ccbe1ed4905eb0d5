//! Test vectors of RFC 8032, section 7.1.
use super::{Case, first_wrong};
use std::test::Fail;

#[test]
fn the_vectors_of_the_standard_are_accepted(rt: HostRuntime) -> Result<(), Fail> {
    assert_eq!(rt; first_wrong(rt.alloc(), &CASES)?, None);
    Ok(())
}

/// Four of the five vectors: those with messages of at most 64 bytes.
const CASES: [Case; 4] = [
    // An empty message.
    Case {
        key: "d75a980182b10ab7d54bfed3c964073a0ee172f3daa62325af021a68f707511a",
        message: "",
        r: "e5564300c360ac729086e2cc806e828a84877f1eb8e5d974d873e06522490155",
        s: "5fb8821590a33bacc61e39701cf9b46bd25bf5f0595bbe24655141438e7a100b",
        accepted: true,
    },
    // A message of one byte.
    Case {
        key: "3d4017c3e843895a92b70aa74d1b7ebc9c982ccf2ec4968cc0cd55f12af4660c",
        message: "72",
        r: "92a009a9f0d4cab8720e820b5f642540a2b27b5416503f8fb3762223ebdb69da",
        s: "085ac1e43e15996e458f3613d0f11d8c387b2eaeb4302aeeb00d291612bb0c00",
        accepted: true,
    },
    // A message of two bytes.
    Case {
        key: "fc51cd8e6218a1a38da47ed00230f0580816ed13ba3303ac5deb911548908025",
        message: "af82",
        r: "6291d657deec24024827e69c3abe01a30ce548a284743a445e3680d7db5ac3ac",
        s: "18ff9b538d16f290ae67f760984dc6594a7c15e9716ed28dc027beceea1ec40a",
        accepted: true,
    },
    // SHA-512 of `abc`.
    Case {
        key: "ec172b93ad5e563bf4932c70e1245034c35467ef2efd4d64ebf819683467e2bf",
        message: "ddaf35a193617abacc417349ae20413112e6fa4e89a97ea20a9eeee64b55d39a\
            2192992a274fc1a836ba3c23a3feebbd454d4423643ce80e2a9ac94fa54ca49f",
        r: "dc2a4459e7369633a52b1bf277839a00201009a3efbf3ecb69bea2186c26b589",
        s: "09351fc9ac90b3ecfdfbc7c66431e0303dca179c138ac17ad9bef1177331a704",
        accepted: true,
    },
];
