//! Laws of the definition that `effect` meets: each is the contract of a function that does nothing.

ghost use Rattle.rs_update.specs.Laws.{BodiesHaveEffects, BodiesHaveOneEffect, BodiesMeanTables, BodiesMeanOneTable, SameChangesOverlayAlike, UpdatesNameTheirFaults};

/// The body of an UPDATE has an effect, and no second one but for the order in which prefixes are
/// listed (RFC 4271, 4.3; RFC 7606, 2 to 5).
pub fn bodies_have_one_effect()
    ensures there_is { BodiesHaveEffects }
    ensures no_other { BodiesHaveOneEffect }
{}

/// UPDATEs without a reset determine exactly one table.
pub fn bodies_mean_one_table()
    ensures there_is { BodiesMeanTables }
    ensures no_other { BodiesMeanOneTable }
{}

/// What an outcome changes and what is computed of its body are the same change to each table.
pub fn same_changes_overlay_alike()
    ensures { SameChangesOverlayAlike }
{}

/// An UPDATE whose NLRI counts as withdrawn names the attribute for which it does, and no other UPDATE
/// names one (RFC 7606, 2 and 3, d).
pub fn updates_name_their_faults()
    ensures { UpdatesNameTheirFaults }
{}
