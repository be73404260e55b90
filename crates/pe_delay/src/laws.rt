//! What the definitions mean, as laws: each function has an empty body, and its contract is the law.

ghost use Rattle.std.specs.Prelude.{◌≡◌, ◌+◌, ◌<◌, ◌≤◌, ◌↔◌, ℕ, true, false, [], All, length};
ghost use Rattle.std.specs.List.{filter_map};
ghost use Rattle.std.specs.Option.{unwrap_or};
ghost use Rattle.pe_view.specs.Standing.{standing};
ghost use Rattle.pe_layout.specs.Image.{LaidOut};
ghost use Rattle.pe_tables.specs.ImportNames.{AreNamedAt};
ghost use Rattle.pe_tables.specs.Imports.{Import, import_of, lookups_from};
ghost use Rattle.pe_delay.specs.Descriptors.{is_null};
ghost use Rattle.pe_delay.specs.Findings.{descriptor_tests};
ghost use Rattle.pe_delay.specs.Imports.{delay_imports_of, imports_in, is_whole};
ghost use Rattle.pe_delay.specs.Names.{delay_names_of};
ghost use Rattle.pe_delay.specs.Tables.{has_rvas};
ghost use Rattle.pe_delay.specs.declared.descriptor.DelayDescriptor.{DelayDescriptor};

/// A descriptor is whole, so that it has its imports in the list of all, exactly if it has none of findings 162 to 167. The slots of
/// the image have a width, as those of every layout do, and no more than 1,048,576 entries were read before.
pub fn whole_descriptors_have_no_finding()
    ensures { (i : LaidOut) (read : ℕ) (d : DelayDescriptor) → 0 < i.slot_width → read ≤ 1048576
        → (is_whole i read d ≡ true) ↔ (standing (descriptor_tests i read d) ≡ []) }
{}

/// A whole descriptor of RVAs imports what a descriptor of the import table does that has the same name, and the same tables as its
/// lookup table and address table.
pub fn delay_imports_are_imports()
    ensures { (i : LaidOut) (read : ℕ) (d : DelayDescriptor) → 0 < i.slot_width → has_rvas d ≡ true → is_null d ≡ false → is_whole i read d ≡ true
        → imports_in i read d ≡ filter_map (import_of i (unwrap_or (i.text d.name) [])) (lookups_from i.size i d.import_name_table d.import_address_table) }
{}

/// Each delay-loaded import by name has the string at the RVA that `read_named_delay_imports` returns for it.
pub fn delay_imports_have_their_names()
    ensures { (i : LaidOut) → AreNamedAt i (delay_names_of i) (delay_imports_of i) }
{}

/// The slots of the delay-loaded imports of an image lie in it, and are at most 1,048,576.
pub fn delay_slots_are_inside()
    ensures inside { (i : LaidOut) → All (λ (import : Import). import.slot + i.slot_width ≤ i.size) (delay_imports_of i) }
    ensures few { (i : LaidOut) → length (delay_imports_of i) ≤ 1048576 }
{}
