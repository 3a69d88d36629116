//! Octets of other implementations and of the RFCs, and texts, which no contract has.

mod naming;
mod reading;
mod writing;
