//! Laws: what the tables of an image read, and when the bytes that were read of a file decide them.

ghost use Rattle.std.specs.Prelude.{◌≡◌, ℕ, List, Option};
ghost use Rattle.pe_head.specs.declared.headers.Headers.{Headers};
ghost use Rattle.pe_layout.specs.Image.{LaidOut, image_from};
ghost use Rattle.pe_layout.specs.Plain.{plain};
ghost use Rattle.pe_layout.specs.PieceText.{text};
ghost use Rattle.pe_parts.specs.Filled.{filled, HaveTables, SameTables};
ghost use Rattle.pe_parts.specs.Packed.{IsPacked};

/// The tables of an image do not depend on bytes and strings that they do not read.
pub fn tables_read_what_is_at_hand()
    ensures { (i : LaidOut) (b : ℕ → ℕ) (t : ℕ → Option (List ℕ)) (w : ℕ → ℕ) → HaveTables i b t → SameTables i (filled i b t w) }
{}

/// The tables of the image of packed bytes are those of the file's image, if what they read there is the file's.
pub fn packed_tables_are_the_files()
    ensures { (n : ℕ) (file packed : List ℕ) (h p : Headers) → IsPacked file h packed p
        → HaveTables (image_from n p packed) (plain h file) (text h file) → SameTables (image_from n p packed) (image_from n h file) }
{}
