//! Laws of what is due and of what waits.

ghost use Rattle.std.specs.Prelude.{ℕ, Bool, Option};
ghost use Rattle.rs_open.specs.declared.short.Short.{Short};
ghost use Rattle.rs_outlet.specs.declared.answers.Last.{Last};
ghost use Rattle.rs_outlet.specs.declared.answers.Speech.{Speech};
ghost use Rattle.rs_outlet.specs.Decided.Alike.{DueIsAlike};
ghost use Rattle.rs_outlet.specs.Views.{View, WaitsAreExact, bare, begun, cleared, finished};

/// What is due to a client doesn't depend on what that client holds, nor on the BGP Identifier of its
/// session.
pub fn due_alike()
    ensures { DueIsAlike }
{}

/// Where nothing is due and nothing was told, what waits is exact.
pub fn first_waits_are_exact()
    ensures bare { (client : ℕ) (extended : Bool) (last : Last) → WaitsAreExact (bare client extended last) }
    ensures begun { (speech : Speech) (v : View) → WaitsAreExact (begun speech v) }
    ensures cleared { (v : View) → WaitsAreExact (cleared v) }
    ensures finished { (note : Option Short) (v : View) → WaitsAreExact (finished note v) }
{}
