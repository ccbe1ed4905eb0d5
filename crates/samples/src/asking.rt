//! Repeats a call after an allocation failure, and makes all allocations of a thread fail.
use std::alloc::Global;

/// The result of the call. The pattern is the call's error for an allocation failure. If the call returns this error, it is made once
/// more, and the result is that of the second call.
#[macro_export]
macro_rules! retry {
    ($refused:pat, $ask:expr) => {
        match $ask {
            Err($refused) => $ask,
            answer => answer,
        }
    };
}

/// After an allocation of this size, the library that `.ci/failed-allocations` loads makes all allocations of this thread fail. Without the
/// library, it has no effect.
const FAIL_ALL: usize = 1_000_003;

/// After an allocation of this size, allocations succeed again.
const FAIL_NONE: usize = 1_000_033;

/// Makes all allocations of this thread fail from now on, if the library of `.ci/failed-allocations` is loaded.
pub fn fail_allocations(alloc: Global) {
    drop(Vec::<u8>::with_capacity(alloc, FAIL_ALL));
}

/// Makes allocations of this thread succeed again.
pub fn allow_allocations(alloc: Global) {
    drop(Vec::<u8>::with_capacity(alloc, FAIL_NONE));
}
