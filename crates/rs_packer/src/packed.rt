//! What the packer answers.

/// A message at the front of a slice.
#[derive(Clone, Copy, Debug, PartialEq, Eq)]
pub struct Packed {
    /// How many octets it has.
    pub octets: usize,
    /// How many prefixes it holds.
    pub prefixes: usize,
}
