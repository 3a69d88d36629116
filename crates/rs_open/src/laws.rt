//! Laws of the definitions.

ghost use Rattle.std.specs.Prelude.{◌≡◌, ◌↔◌, List, ℕ, IsOk};
ghost use Rattle.rs_open.specs.Triples.{Row, IsRow, row_of};
ghost use Rattle.rs_open.specs.declared.writing.ServerOpen.{ServerOpen};
ghost use Rattle.rs_open.specs.Good.{IsGoodOpen};
ghost use Rattle.rs_open.specs.Laws.{NoteFits, ShortIsMessage, OpenHasItsBody, IsOpenToSay, heard_from};
ghost use Rattle.rs_open.specs.Opens.{open_of};
ghost use Rattle.rs_open.specs.Writing.{body_said};

/// Octets are a row of triples and a rest in just one way.
pub fn octets_are_one_row_of_triples()
    ensures there_is { (octets : List ℕ) → IsRow octets (row_of octets) }
    ensures no_other { (octets : List ℕ) (row : Row) → IsRow octets row → row ≡ row_of octets }
{}

/// Nothing is wrong with an OPEN exactly where it is a good one, by its octets alone.
pub fn an_open_is_taken_where_it_is_good()
    ensures { (body : List ℕ) → IsOk (open_of body) ↔ IsGoodOpen body }
{}

/// An OPEN of ours with a good Hold Time and an identifier is a good one to whoever reads it by these
/// definitions, and says what we say.
pub fn an_open_of_ours_is_good()
    ensures { (said : ServerOpen) → IsOpenToSay said → open_of (body_said said) ≡ Ok (heard_from said) }
{}

/// An OPEN of ours, a KEEPALIVE, and a NOTIFICATION that is no longer than its receiver takes are each
/// one whole message of its type (RFC 4271, 4.1); see [`rs_octets::laws::messages_are_heard`].
pub fn short_is_a_message()
    ensures fits { NoteFits }
    ensures message { ShortIsMessage }
    ensures body { OpenHasItsBody }
{}
