//! Loads: the reports of nodes, and refusals.
mod gates;
mod programs;
