//! This crate tests allocation failure in tables, frozen views and the stores that use them.
//!
//! `.ci/failed-allocations` runs each test once for every allocation that it makes, and lets that allocation fail. Each test is a worked example. If
//! a call runs out of memory, the test repeats it at once, with the input that the call returned or with a copy. All replies must still be
//! those of the example. Calls that allocate nothing are made while all allocations fail. The crate has only tests, and no crate
//! uses it.
#![tactic(auto)]

#[cfg(test)]
mod tests;
