//! The worked examples. A block's name is a letter for its round, followed by its author. K, L, M, N and U are the rounds 0 to 4, and Z is
//! the last round. If the slot has another block, that block's name ends with `X`.
use super::*;

pub(super) mod parents;
pub(super) mod replies;

/// The largest round.
const LAST: u64 = (1 << 48) - 1;

const K0: Name = (0, 0, 0);

const K0X: Name = (0, 0, 1);

const K1: Name = (0, 1, 0);

const K2: Name = (0, 2, 0);

const L0: Name = (1, 0, 0);

const L0X: Name = (1, 0, 1);

const L1: Name = (1, 1, 0);

const M0: Name = (2, 0, 0);

const M1: Name = (2, 1, 0);

const N0: Name = (3, 0, 0);

const N1: Name = (3, 1, 0);

const U0: Name = (4, 0, 0);

const Z0: Name = (LAST, 0, 0);
