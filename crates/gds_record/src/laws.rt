//! The law of the table of records: the constants of `kind` and `form` are the numbers of the
//! manual.

ghost use Rattle.gds_record.specs.Table.{ConstantsAreManual};

/// Each constant of `kind` and `form` is the number that the manual's table has in its row (Calma
/// GDSII Stream Format Manual, release 6.0).
pub fn constants_are_manual()
    ensures { ConstantsAreManual }
{}
