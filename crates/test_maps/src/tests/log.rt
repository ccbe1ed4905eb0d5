//! Known prefixes of a log.
use super::*;
use nw_log::KnownPrefix;
use std::marker::Brand;
use std::mem::size_of;

#[test]
fn a_known_prefix_has_no_bytes(rt: HostRuntime) {
    assert_eq!(rt; size_of::<KnownPrefix<u32, Brand>>(), 0);
}
