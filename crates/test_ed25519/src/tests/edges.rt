//! Edge cases: signatures that are refused, and some that only look wrong. The expected results are those of bench/ed25519.py.
use super::{Case, first_wrong};
use std::test::Fail;

#[test]
fn each_edge_has_the_answer_of_the_reference(rt: HostRuntime) -> Result<(), Fail> {
    assert_eq!(rt; first_wrong(rt.alloc(), &CASES)?, None);
    Ok(())
}

/// A vector of the standard, for cases that change a part of it. The signature is refused after most changes.
const CHANGED: Case = Case {
    key: "fc51cd8e6218a1a38da47ed00230f0580816ed13ba3303ac5deb911548908025",
    message: "af82",
    r: "6291d657deec24024827e69c3abe01a30ce548a284743a445e3680d7db5ac3ac",
    s: "18ff9b538d16f290ae67f760984dc6594a7c15e9716ed28dc027beceea1ec40a",
    accepted: false,
};

/// The key is the neutral element. Then R = [S]B is accepted for every message.
const NEUTRAL: Case = Case {
    key: "0100000000000000000000000000000000000000000000000000000000000000",
    message: "af82",
    r: "0100000000000000000000000000000000000000000000000000000000000000",
    s: "0000000000000000000000000000000000000000000000000000000000000000",
    accepted: true,
};

/// A valid signature with one change; keys and R that are not canonical, or of small order; and S at its bound.
const CASES: [Case; 20] = [
    // S plus the order, which is not below the order.
    Case {
        s: "05d391b0a77904e98404ef037747a56e4a7c15e9716ed28dc027beceea1ec41a",
        ..CHANGED
    },
    // One bit of R is changed.
    Case {
        r: "6391d657deec24024827e69c3abe01a30ce548a284743a445e3680d7db5ac3ac",
        ..CHANGED
    },
    // One bit of S is changed.
    Case {
        s: "19ff9b538d16f290ae67f760984dc6594a7c15e9716ed28dc027beceea1ec40a",
        ..CHANGED
    },
    // The sign bit of R is changed.
    Case {
        r: "6291d657deec24024827e69c3abe01a30ce548a284743a445e3680d7db5ac32c",
        ..CHANGED
    },
    // The sign bit of the key is changed.
    Case {
        key: "fc51cd8e6218a1a38da47ed00230f0580816ed13ba3303ac5deb9115489080a5",
        ..CHANGED
    },
    // One bit of the key is changed.
    Case {
        key: "fd51cd8e6218a1a38da47ed00230f0580816ed13ba3303ac5deb911548908025",
        ..CHANGED
    },
    // One bit of the message is changed.
    Case {
        message: "a782",
        ..CHANGED
    },
    NEUTRAL,
    // R encodes the neutral element, but with y + p for the prime p.
    Case {
        r: "eeffffffffffffffffffffffffffffffffffffffffffffffffffffffffffff7f",
        accepted: false,
        ..NEUTRAL
    },
    // R encodes the neutral element, but with its sign bit set.
    Case {
        r: "0100000000000000000000000000000000000000000000000000000000000080",
        accepted: false,
        ..NEUTRAL
    },
    // The key encodes the neutral element, but with y + p for the prime p.
    Case {
        key: "eeffffffffffffffffffffffffffffffffffffffffffffffffffffffffffff7f",
        accepted: false,
        ..NEUTRAL
    },
    // The key encodes the neutral element, but with its sign bit set.
    Case {
        key: "0100000000000000000000000000000000000000000000000000000000000080",
        accepted: false,
        ..NEUTRAL
    },
    // S is the order.
    Case {
        s: "edd3f55c1a631258d69cf7a2def9de1400000000000000000000000000000010",
        accepted: false,
        ..NEUTRAL
    },
    // S is one less than the order.
    Case {
        r: "58666666666666666666666666666666666666666666666666666666666666e6",
        s: "ecd3f55c1a631258d69cf7a2def9de1400000000000000000000000000000010",
        ..NEUTRAL
    },
    // A key of order 2, and k is even.
    Case {
        key: "ecffffffffffffffffffffffffffffffffffffffffffffffffffffffffffff7f",
        message: "01",
        ..NEUTRAL
    },
    // A key of order 2, and k is odd.
    Case {
        key: "ecffffffffffffffffffffffffffffffffffffffffffffffffffffffffffff7f",
        message: "00",
        accepted: false,
        ..NEUTRAL
    },
    // A key of order 8.
    Case {
        key: "c7176a703d4dd84fba3c0b760d10670f2a2053fa2c39ccc64ec7fd7792ac037a",
        message: "07",
        r: "26e8958fc2b227b045c3f489f2ef98f0d5dfac05d3c63339b13802886d53fc05",
        ..NEUTRAL
    },
    // No point has this y.
    Case {
        key: "0200000000000000000000000000000000000000000000000000000000000000",
        ..CHANGED
    },
    // The two points differ by a point of small order. With the cofactor 8 they are equal.
    Case {
        r: "40a4cf5c611d737a2f1c6fcca84d9cabfed80987f186a5a6c57e629bff1af27f",
        s: "6027b1e4d5bfc5b045ec91c9ba188f77cc122235908dd1d9abe190b26509420a",
        ..CHANGED
    },
    // The signer chose R in another way than the standard's.
    Case {
        r: "ef4f62f8479733ad879cfaced3c89a9c39dd4fc795ef2efa1c3eafe4d729a081",
        s: "21c636a6215cc220928cc8a4f9752c9df8c40b8593bf228b35d3e9a8136b270f",
        accepted: true,
        ..CHANGED
    },
];
