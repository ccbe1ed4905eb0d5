//! Tests codecs, committees and checks under allocation failures.
//!
//! `.ci/failed-allocations` runs each test once for every allocation that it makes, and makes this allocation fail. If a call reports the
//! failure, the test repeats it at once: with the input if the error returns it, and otherwise with a copy. The repeated call must
//! succeed with exactly the expected result. Calls that allocate nothing are made while all allocations fail.
//!
//! This crate contains only tests. No other crate uses it.
#![tactic(auto)]

#[cfg(test)]
mod tests;
