//! What the definitions mean, as laws: each function has an empty body, and its contract is the law.

ghost use Rattle.std.specs.Prelude.{◌≡◌, false, None};
ghost use Rattle.pe_view.specs.Faults.{first_standing};
ghost use Rattle.coff_read.specs.Records.{Object, Fits};
ghost use Rattle.coff_read.specs.FormFaults as form_faults;
ghost use Rattle.coff_read.specs.Forms.{Form};
ghost use Rattle.coff_read.specs.ObjectFaults.{IsObjectOf};
ghost use Rattle.coff_object.specs.FormWriteFaults as form;
ghost use Rattle.coff_object.specs.FormWritten as written;
ghost use Rattle.coff_object.specs.NeededForm.{needs_big_form};
ghost use Rattle.coff_object.specs.Written.{canon};
ghost use Rattle.coff_object.specs.WriteFaults.{write_tests};

pub use coff_read::laws::{
    plain_objects_are_of_the_plain_form, strings_stand_at_their_offsets, symbols_fill_the_table,
    symbols_stand_behind_auxiliary_records,
};

/// An object that none of faults 81 to 85 refuses is read back from its written form.
pub fn written_is_read_back()
    ensures { (o : Object) → Fits o → first_standing (write_tests o) ≡ None → IsObjectOf (canon o) o }
{}

/// An object that none of faults 81 to 85 refuses is read back from its written form, plain or big.
pub fn written_is_read_back_in_each_form()
    ensures { (big : Form) (o : Object) → Fits o → first_standing (form.write_tests big o) ≡ None → form_faults.IsObjectOf big (written.canon big o) o }
{}

/// An object that is written plain needs no big form.
pub fn plain_objects_need_no_big_form()
    ensures { (o : Object) → first_standing (write_tests o) ≡ None → needs_big_form o.sections o.symbols ≡ false }
{}
