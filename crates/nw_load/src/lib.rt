//! Runs a committee of nodes under load. A *node* is a validator with a store and two threads. It makes, certifies and reads
//! blocks over a few rounds.
//!
//! It is proved that `load` refuses numbers of nodes and rounds out of range before anything else. Tests show what it reports. Its
//! threads wait for one another, and no contract says that they end. The type of a thread shows what it may do: a link writes,
//! certifies and sends (`Link`), and a client opens and walks (`Client`).
//!
//! The stores are from `nw_store`, the checks from `nw_check`, the committee and the messages from `nw_interpreter`, the gates from
//! `nw_intake`.
#![tactic(auto)]

mod client;
mod fault;
mod launch;
mod link;
mod network;
mod node;
mod program;
mod report;
mod size;
mod store;
mod threads;

pub use fault::LoadFault;
pub use launch::load;
pub use program::{print_outcome, run};
pub use report::NodeReport;
