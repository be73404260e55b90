//! What the definitions mean, as laws: each function has an empty body, and its contract is the law.

ghost use Rattle.std.specs.Prelude.{◌≡◌, ◌≢◌, ◌+◌, ◌<◌, ◌≤◌, ◌^◌, ◌↔◌, ◌+ℤ◌, ◌*ℤ◌, ◌≤ℤ◌, ℕ, ℤ, pos, true, List, None, Some, All, AllPairs, Contains, length, map};
ghost use Rattle.std.specs.List.{flat_map};
ghost use Rattle.pe_head.specs.declared.directory.Directory.{Directory};
ghost use Rattle.pe_view.specs.declared.fault.Fault.{Fault};
ghost use Rattle.pe_view.specs.Faults.{first_standing};
ghost use Rattle.pe_layout.specs.Image.{LaidOut};
ghost use Rattle.pe_tables.specs.Key.{Key, Ordinal, Name, Target, Rva, Forward};
ghost use Rattle.pe_tables.specs.Exports.{table_at, name_entry, exports_at, exports_of, target_at};
ghost use Rattle.pe_tables.specs.ExportFaults.{export_tests};
ghost use Rattle.pe_tables.specs.ExportPlaces.{IsFirstName, IsUnnamed, IsUnnumbered, StandsBefore, exported_at};
ghost use Rattle.pe_tables.specs.Fixups.{width_of, range_of, slot_range, fixups_at, fixups_of};
ghost use Rattle.pe_tables.specs.FixupFaults.{fixup_tests, fixup_tests_at};
ghost use Rattle.pe_ranges.specs.Ranges.{meets_any, AreApart, HasCommon};
ghost use Rattle.pe_tables.specs.Forwarder.{forwarder_of, IsForwarderText};
ghost use Rattle.pe_tables.specs.Relocated.{amount, shift};
ghost use Rattle.pe_tables.specs.declared.fixups.FixupKind.{FixupKind};
ghost use Rattle.pe_tables.specs.declared.fixups.FixupKind.TheVariants.{High};
ghost use Rattle.pe_tables.specs.FixupPlaces.{IsNamed};
ghost use Rattle.pe_tables.specs.Encoded.{Page, IsPage, FieldsAscend, pages_of};
ghost use Rattle.pe_tables.specs.Standing.{StandsWhole, IsFieldFault, view};
ghost use Rattle.pe_tables.specs.declared.fixups.Fixup.{Fixup};
ghost use Rattle.pe_tables.specs.Imports.{Import, imports_at, imports_of};
ghost use Rattle.pe_tables.specs.ImportFaults.{import_tests, import_tests_at};
ghost use Rattle.pe_tables.specs.ImportNames.{import_names_of, AreNamedAt};
ghost use Rattle.pe_tables.specs.ImportPlaces.{IsInList, IsInTable, IsImported, IsApart, HasTexts, HasDescriptors, HasEntries, imports_in_order, table_rva, descriptor_rva};

/// The fixups of a table are exactly the entries of types 1, 2, 3 and 10 of the blocks that are reached from its start.
pub fn fixups_are_named()
    ensures { (i : LaidOut) (d : Directory) (f : Fixup) → Contains (fixups_at i (Some d)) f ↔ IsNamed i d f }
{}

/// The fixups of a table are in the order of their entries.
pub fn entries_ascend()
    ensures { (i : LaidOut) (d : Directory) → AllPairs (λ (f g : Fixup). f.entry < g.entry) (fixups_at i (Some d)) }
{}

/// An encoded table has one block for each page with a field, in ascending order, each with the fixups of that page, and keeps
/// the order of the fixups.
pub fn pages_ascend()
    ensures ascend { (fixups : List Fixup) → FieldsAscend fixups
        → AllPairs (λ (p q : Page). p.page < q.page) (pages_of fixups) }
    ensures own { (fixups : List Fixup) → All IsPage (pages_of fixups) }
    ensures order { (fixups : List Fixup) → flat_map (λ (p : Page). p.fixups) (pages_of fixups) ≡ fixups }
{}

/// An encoded table that is in an image as a whole directory, anywhere, is read back as the same fields and kinds in the same
/// order.
pub fn encoded_is_read_back()
    ensures { (i : LaidOut) (d : Directory) (fixups : List Fixup) → StandsWhole i d fixups
        → map view (fixups_at i (Some d)) ≡ map view fixups }
{}

/// A name exports what the entry of the first name equal to it does, and nothing if there is none.
pub fn first_names_export()
    ensures first { (i : LaidOut) (d : Directory) (text : List ℕ) (k : ℕ) → let t = table_at i d.rva in
        IsFirstName i t text k → target_at (exports_at i (Some d)) (Name text) ≡ exported_at i d t (name_entry i t k) }
    ensures none { (i : LaidOut) (d : Directory) (text : List ℕ) → IsUnnamed i (table_at i d.rva) text
        → target_at (exports_at i (Some d)) (Name text) ≡ None }
{}

/// An ordinal exports what its entry of the address table does, and nothing if there is no such entry.
pub fn entries_export()
    ensures entry { (i : LaidOut) (d : Directory) (k : ℕ) → let t = table_at i d.rva in
        k < t.entry_count → target_at (exports_at i (Some d)) (Ordinal (t.ordinal_base + k)) ≡ exported_at i d t k }
    ensures none { (i : LaidOut) (d : Directory) (ordinal : ℕ) → IsUnnumbered (table_at i d.rva) ordinal
        → target_at (exports_at i (Some d)) (Ordinal ordinal) ≡ None }
{}

/// No ordinal and no name is listed twice: ordinals ascend, and names differ.
pub fn keys_export_once()
    ensures ordinals { (i : LaidOut) (d : Directory)
        → AllPairs (λ (export later : ℕ × Target). export.0 < later.0) (exports_at i (Some d)).ordinals }
    ensures names { (i : LaidOut) (d : Directory)
        → AllPairs (λ (export later : List ℕ × Target). export.0 ≢ later.0) (exports_at i (Some d)).names }
{}

/// The imports of a table are exactly what the lookup entries of its descriptors import: entry k of descriptor j, if no
/// descriptor up to j and no entry up to k is the one that ends its list. The slots of the image have a width, as those of every
/// layout do.
pub fn imports_are_named()
    ensures { (i : LaidOut) (d : Directory) (import : Import) → 0 < i.slot_width → Contains (imports_at i (Some d)) import ↔ IsImported i d import }
{}

/// Each import by name has the string at the RVA that `import_name_rvas` gives for it.
pub fn imports_have_their_names()
    ensures { (i : LaidOut) → AreNamedAt i (import_names_of i) (imports_of i) }
{}

/// The slots of the imports of an image without an import fault lie in the image, share no byte, and are at most 1,048,576.
pub fn slots_are_apart()
    ensures inside { (i : LaidOut) → first_standing (import_tests i) ≡ None
        → All (λ (import : Import). import.slot + i.slot_width ≤ i.size) (imports_of i) }
    ensures apart { (i : LaidOut) → first_standing (import_tests i) ≡ None → AllPairs (IsApart i.slot_width) (imports_of i) }
    ensures few { (i : LaidOut) → first_standing (import_tests i) ≡ None → length (imports_of i) ≤ 1048576 }
{}

/// Each string that an import table without a fault names is there, in an image whose slots have a width.
pub fn names_are_there()
    ensures { (i : LaidOut) (d : Directory) (j k : ℕ) → let descriptor = descriptor_rva d.rva j in
        0 < i.slot_width → first_standing (import_tests_at i (Some d)) ≡ None
        → IsInList i d.rva j → IsInTable i (table_rva i descriptor) k → HasTexts i descriptor k }
{}

/// The fields of the fixups of an image without a base relocation fault, checked with these slots, lie in the image, share no
/// byte with one another or with a slot, and are fewer than 2^31, if the image has at most 2^31 bytes, as every layout does.
pub fn fields_are_apart()
    ensures inside { (i : LaidOut) (slots : List ℕ) → first_standing (fixup_tests i slots) ≡ None
        → All (λ (f : Fixup). f.field + width_of f.kind ≤ i.size) (fixups_of i) }
    ensures apart { (i : LaidOut) (slots : List ℕ) → first_standing (fixup_tests i slots) ≡ None
        → AllPairs (λ (f g : Fixup). AreApart (range_of f) (range_of g)) (fixups_of i) }
    ensures off_slots { (i : LaidOut) (slots : List ℕ) → first_standing (fixup_tests i slots) ≡ None
        → All (λ (f : Fixup). All (λ (slot : ℕ × ℕ). AreApart slot (range_of f)) (map (slot_range i.slot_width) slots)) (fixups_of i) }
    ensures few { (i : LaidOut) (slots : List ℕ) → i.size ≤ 2 ^ 31 → first_standing (fixup_tests i slots) ≡ None
        → length (fixups_of i) < 2 ^ 31 }
{}

/// Each RVA that an image without an export fault exports lies in the image.
pub fn targets_are_inside()
    ensures { (i : LaidOut) (key : Key) (rva : ℕ) → first_standing (export_tests i) ≡ None
        → target_at (exports_of i) key ≡ Some (Rva rva) → rva < i.size }
{}

/// An image without an export fault exports at most 65,536 ordinals and at most 65,536 names.
pub fn exports_are_few()
    ensures ordinals { (i : LaidOut) → first_standing (export_tests i) ≡ None → length (exports_of i).ordinals ≤ 65536 }
    ensures names { (i : LaidOut) → first_standing (export_tests i) ≡ None → length (exports_of i).names ≤ 65536 }
{}

/// Relocating a field by one difference of bases and then by another relocates it by their sum, modulo what it holds: a HIGH
/// field if the second is a multiple of 65,536, as the difference of two chosen bases is, and every other field in any case.
pub fn shifts_compose()
    ensures whole { (kind : FixupKind) (v : ℕ) (d n : ℤ) → shift kind (shift kind v d) (pos 65536 *ℤ n) ≡ shift kind v (d +ℤ pos 65536 *ℤ n) }
    ensures others { (kind : FixupKind) (v : ℕ) (d e : ℤ) → kind ≢ High → shift kind (shift kind v d) e ≡ shift kind v (d +ℤ e) }
{}

/// What is added to a HIGH field is the difference of the bases divided by 65,536, rounded down.
pub fn high_amounts_are_greatest()
    ensures { (d n : ℤ) → ((pos 65536 *ℤ n) ≤ℤ d) ↔ (n ≤ℤ amount High d) }
{}

/// If none of them is empty, a range meets some others exactly if one of them has an RVA in common with it. So fault 30 holds for a
/// slot, and 37 and 38 for a field, exactly if an earlier slot, an earlier field or a slot has a byte of it.
pub fn meeting_ranges_have_an_rva_in_common()
    ensures { (start len : ℕ) (ranges : List (ℕ × ℕ)) → 0 < len → All (λ (range : ℕ × ℕ). 0 < range.1) ranges
        → (meets_any start len ranges ≡ true) ↔ HasCommon (start, len) ranges }
{}

/// A forwarder string is its module, a dot, and its key's string, which has no dot: a name, or `#` and digits.
pub fn forwarders_are_texts()
    ensures { (text module_name : List ℕ) (key : Key) → forwarder_of text ≡ Some (Forward module_name key)
        → IsForwarderText text module_name key }
{}

/// The imports of a table are ordered by descriptor, and those of a descriptor by entry, up to the ones that end the lists. The
/// slots of the image have a width.
pub fn imports_keep_their_order()
    ensures { (i : LaidOut) (d : Directory) (count : ℕ) (counts : ℕ → ℕ) → 0 < i.slot_width → HasDescriptors i d.rva count
        → ((j : ℕ) → j < count → HasEntries i (table_rva i (descriptor_rva d.rva j)) (counts j))
        → imports_at i (Some d) ≡ imports_in_order i d.rva count counts }
{}

/// The exports by name keep the order of the name pointer table: each name is where it first occurs there.
pub fn names_keep_their_order()
    ensures { (i : LaidOut) (d : Directory) → let t = table_at i d.rva in
        AllPairs (λ (export later : List ℕ × Target). StandsBefore i t export.0 later.0) (exports_at i (Some d)).names }
{}

/// If an encoded table is in an image as a whole directory, neither fault 33 nor 35 holds for it. So if none of 34, 36, 37 and 38
/// holds it is read, and read back.
pub fn encoded_has_field_faults_alone()
    ensures { (i : LaidOut) (d : Directory) (slots : List (ℕ × ℕ)) (fixups : List Fixup) (fault : Fault) → StandsWhole i d fixups
        → first_standing (fixup_tests_at i slots (Some d)) ≡ Some fault → IsFieldFault fault.number }
{}
