//! What the definitions mean, as laws. The contract of each function here is a law.

ghost use Rattle.std.specs.Prelude.{◌≡◌, ℕ, List, None, flat_map};
ghost use Rattle.pe_view.specs.Faults.{first_standing};
ghost use Rattle.coff_read.specs.FormFaults as form_faults;
ghost use Rattle.coff_read.specs.FormReading as form;
ghost use Rattle.coff_read.specs.Forms.{Form};
ghost use Rattle.coff_read.specs.ObjectFaults.{object_tests};
ghost use Rattle.coff_read.specs.Reading.{object_of, symbol_indexes};
ghost use Rattle.coff_lines.specs.ObjectLines as either;
ghost use Rattle.coff_lines.specs.ObjectPlaces as places;
ghost use Rattle.coff_lines.specs.PlainLines.{symbol_lines, record_lines};

/// The dump of an accepted plain object shows each record of the symbol table under its own index: as a symbol if it begins one, and
/// otherwise as an auxiliary record in the format for the symbol before it.
pub fn records_are_shown_under_their_indexes()
    ensures { (file : List ℕ) → first_standing (object_tests file) ≡ None → symbol_lines 0 (object_of file).symbols ≡ flat_map (record_lines file) (symbol_indexes file) }
{}

/// The same holds of an accepted object of either form.
pub fn records_of_either_form_are_shown_under_their_indexes()
    ensures { (big : Form) (file : List ℕ) → first_standing (form_faults.object_tests big file) ≡ None
        → either.symbol_lines big 0 (form.object_of big file).symbols ≡ flat_map (places.record_lines big file) (form.symbol_indexes big file) }
{}
