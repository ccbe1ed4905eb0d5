//! Tests books and stores under allocation failures.
//!
//! `.ci/failed-allocations` runs each test once for every allocation that it makes, and makes this allocation fail. Each test plays a worked
//! example. If a call reports the failure, the test repeats it at once: with the input if the error returns it, and otherwise with a copy.
//! It then expects exactly the example's replies and settlement. Calls that allocate nothing are made while all allocations fail.
//!
//! This crate contains only tests. No other crate uses it.
#![tactic(auto)]

#[cfg(test)]
mod tests;
