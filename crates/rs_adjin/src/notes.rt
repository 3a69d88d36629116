//! Who gives the notes of routes. A note is a number that stands beside a route for whoever asked for it;
//! what it says is no business of this crate.

ghost use Rattle.std.specs.Prelude.{◌≡◌, ◌<◌, ℕ, List};
ghost use Rattle.rs_octets.specs.Prefixes.{Prefix};
ghost use Rattle.rs_attrs.specs.Meaning.{Attribute};

use rs_attrs::Attrs;
use rs_octets::Prefix;

/// Gives each route a note, of its client, prefix and attributes.
pub trait Notes {
    /// How many clients it knows.
    ghost known: { Self → ℕ };

    ghost note_by: { Self → ℕ → Prefix → List Attribute → ℕ };

    /// The note of a route.
    fn note(&self, client: usize, prefix: &Prefix, attrs: &Attrs) -> u32
        requires { client < known self.now }
        ensures { result ≡ note_by self.now client prefix.now attrs.now };
}
