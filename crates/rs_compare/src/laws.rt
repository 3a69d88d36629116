//! Laws of what is reported.

ghost use Rattle.rs_compare.specs.Differences.{EqualTablesDoNotDiffer};

/// Nothing is reported of tables that are equal at each prefix, and of no others.
pub fn equal_tables_do_not_differ()
    ensures { EqualTablesDoNotDiffer }
{}
