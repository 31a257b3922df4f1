//! The outside of a program: where its bytes come from, and where its answers go.
//!
//! `Source` and `Sink` are what the rest of the program sees of it. A device keeps a count of its faults, and a call
//! that answers `Failed` has raised it: so whoever passes a failure on can be held to a failure that came from this
//! very device. Devices in memory fail at the calls that they are told, or never. The devices over std's `Read` and
//! `Write` are the trusted edge: what a file, a socket or a terminal gives or takes is known to no proof, nor when it
//! fails. So that they fail only where the reader or the writer does is tested, and not proved.
#![tactic(auto)]

pub mod device;
pub mod edge;
pub mod memory;
pub mod sure;
