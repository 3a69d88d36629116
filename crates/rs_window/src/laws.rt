//! What follows from the definitions, as contracts of functions that do nothing.

ghost use Rattle.std.specs.Prelude.{ℕ, List, ◌++◌};
ghost use Rattle.rs_window.specs.Chunks.{AreCarried, Decodes, last_chunk};

/// What was sent of the pieces of a page, and the end behind it, is a body in chunks that carries the
/// page's octets (RFC 9112, section 7.1).
pub fn law_chunks_carry_the_page()
    ensures { (octets sent : List ℕ) → AreCarried octets sent → Decodes (sent ++ last_chunk) octets }
{}
