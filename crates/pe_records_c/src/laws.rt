//! Laws about the definitions: a fault stored in a record is read back unchanged, and each export by name has an ordinal.

ghost use Rattle.std.specs.Prelude.{◌≡◌, length};
ghost use Rattle.pe_layout.specs.Image.{LaidOut};
ghost use Rattle.pe_tables.specs.Exports.{exports_of};
ghost use Rattle.pe_records_c.specs.ExportRows.{named};
ghost use Rattle.pe_records_c.specs.Faults.{fault_record, fault_of};

use pe_view::Fault;

/// The fault read from a record that a call has filled is the one that the call stored.
pub fn told_faults_are_read_back(fault: Fault)
    ensures { fault_of (fault_record fault) ≡ fault }
{}

/// Each export by name has an ordinal, so rows that have both are as many as the names.
pub fn each_name_has_an_ordinal()
    ensures { (i : LaidOut) → length (named (exports_of i)) ≡ length (exports_of i).names }
{}
