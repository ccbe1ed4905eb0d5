//! Checks many messages in several threads. Gates hold threads at named points.
//!
//! [`check_all`] returns one answer for each text: the same as a separate check of this text. The number of workers and the gate do
//! not change the answers. [`pass_start`] returns `Ok` only after its gate let the thread pass. The crate uses `nw_check`.
#![tactic(auto)]

mod fault;
mod gate;
mod order;
mod point;
mod promise;
mod share;
mod threads;

pub use fault::{GateShut, IntakeFault};
pub use gate::{FreeGate, Gate, pass_start};
pub use point::Point;
pub use threads::check_all;
