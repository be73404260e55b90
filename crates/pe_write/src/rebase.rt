//! `rebase_file`: the file of an image for another base, or the first fault that prevents it.

ghost use Rattle.std.specs.Prelude.{◌≡◌, ◌≤◌, ◌+◌, ⊤, length, pos, ◌-ℤ◌, None, Some, Err, IfOk};
ghost use Rattle.pe_view.specs.declared.fault.Fault as code_fault;
ghost use Rattle.pe_view.specs.Faults.{Answers, first_standing, AnswersOrWants};
ghost use Rattle.pe_layout.specs.SectionFaults.{layout_tests};
ghost use Rattle.pe_layout.specs.Image.{image_of_file};
ghost use Rattle.pe_layout.specs.Layout.{headers_of, image_of, IsLayoutOf};
ghost use Rattle.pe_image.specs.ImageTests.{relocation_tests};
ghost use Rattle.pe_tables.specs.Fixups.{fixups_of};
ghost use Rattle.pe_write.specs.Rebase.{rebased, check_sum_place, put_header, moved_all};
ghost use Rattle.pe_write.specs.Rebased.{IsRebased};
ghost use Rattle.pe_write.specs.RebaseFaults.{own_base_tests, fields_tests, data_tests, rebase_tests};
ghost use Rattle.pe_write.specs.Rewriting.{AreLaid};
ghost use Rattle.pe_view.specs.declared.refusal.Refusal.{Refusal};

use crate::error::WriteError;
use crate::raw_data::{check_raw_data, holder};
use pe_head::{Headers, SectionHeader};
use pe_image::{lay_out, read_relocations};
use pe_layout::Layout;
use pe_set::base_fault;
use pe_tables::{Fixup, shift_field, write_low};
use pe_view::Fault;
use std::alloc::Allocator;

/// The offset of CheckSum in the optional header.
pub(crate) const CHECK_SUM: usize = 64;

/// Tests faults 44 to 46 of an image at a base, alone in its address space.
fn check_base(layout: &Layout, base: u64) -> Result<(), Fault>
    ensures { Answers (own_base_tests (headers_of layout.now).magic (image_of layout.now) base) (λ _. ⊤) result }
{
    match base_fault(&[], &[], 0, layout, base) {
        Some(fault) => Err(fault),
        None => Ok(()),
    }
}

/// Writes the base to ImageBase, and 0 to CheckSum.
fn put_header(bytes: &mut [u8], headers: &Headers, base: u64)
    requires { check_sum_place headers.now + 4 ≤ length bytes.old }
    ensures { bytes.new ≡ put_header headers.now base bytes.old }
{
    let optional = headers.pe_offset as usize + 24;
    let magic = headers.magic;
    let place = optional + magic.image_base_offset() as usize;
    write_low(bytes, place, base, magic.image_base_width() as usize);
    write_low(bytes, optional + CHECK_SUM, 0, 4);
}

/// Relocates every fixup's field to a base, in a copy of the file of these headers, or returns fault 51.
fn move_fields(
    bytes: &mut [u8],
    headers: &Headers,
    fixups: &[Fixup],
    base: u64,
) -> Result<(), Fault>
    requires { AreLaid headers.now (length bytes.old) }
    ensures { Answers (fields_tests headers.now fixups.now)
        (λ _. bytes.new ≡ moved_all headers.now (pos base -ℤ pos headers.now.image_base) fixups.now bytes.old) result }
{
    let mut section = SectionHeader::default();
    for fixup in fixups {
        section = holder(headers, section, *fixup)?;
        let offset = fixup.field - section.virtual_address;
        let place = section.pointer_to_raw_data as usize + offset as usize;
        shift_field(bytes, place, fixup.kind, headers.image_base, base);
    }
    Ok(())
}

/// Writes the base into the headers and relocates every field to it, in a copy of the layout's file, or returns fault 51 or 52.
fn rewrite(bytes: &mut [u8], layout: &Layout, fixups: &[Fixup], base: u64) -> Result<(), Fault>
    requires laid { AreLaid (headers_of layout.now) (length bytes.old) }
    requires inside { check_sum_place (headers_of layout.now) + 4 ≤ length bytes.old }
    ensures { let headers = headers_of layout.now in
        Answers (data_tests headers fixups.now)
        (λ _. bytes.new ≡ moved_all headers (pos base -ℤ pos headers.image_base) fixups.now (put_header headers base bytes.old)) result }
{
    let headers = layout.headers();
    put_header(bytes, &headers, base);
    move_fields(bytes, &headers, fixups, base)?;
    check_raw_data(&headers)
}

/// The file of an image for another base, as [`rebase_file`] makes it, from the layout and the base relocations that were read of it, in
/// which there is no fault. The error is the first of faults 44 to 46, 51 and 52, or [`WriteError::Memory`].
pub fn rebase_image<A: Allocator + Copy>(
    alloc: A,
    file: &[u8],
    layout: &Layout,
    fixups: &[Fixup],
    base: u64,
) -> Result<Vec<u8, A>, WriteError>
    requires laid { first_standing (layout_tests 0 file.now) ≡ None }
    requires shows { IsLayoutOf file.now 0 layout.now }
    requires sound { first_standing (relocation_tests (image_of_file 0 file.now)) ≡ None }
    requires read { fixups.now ≡ fixups_of (image_of_file 0 file.now) }
    ensures { AnswersOrWants (rebase_tests file.now base) (λ bytes. bytes.items ≡ rebased file.now base) result }
{
    pe_layout::laws::sections_are_apart();
    pe_tables::laws::fields_are_apart();
    check_base(layout, base)?;
    let mut bytes = Vec::from_slice(alloc, file)?;
    rewrite(&mut bytes, layout, fixups, base)?;
    Ok(bytes)
}

/// The file of an image for another base. It has the same length; each fixup's field is relocated by the difference of the base
/// and ImageBase, ImageBase is the base, and CheckSum is 0; every other byte is unchanged.
///
/// The error is [`WriteError::Fault`] with the first fault, which names image 0: of headers and sections (1 to 15), of imports (24
/// to 32), of base relocations (33 to 38), of the base (44 to 46), 51 if a field is not completely inside one section's raw data,
/// and 52 if the raw data of a section begins inside the headers or overlaps an earlier one's in the file. It is
/// [`WriteError::Memory`] if an allocation failed, but never for a file with one of faults 1 to 15. Exports are not tested, and it
/// is not claimed that the tables of the new file read as before.
///
/// ("PE Format": Optional Header, The .reloc Section.)
pub fn rebase_file<A: Allocator + Copy>(
    alloc: A,
    file: &[u8],
    base: u64,
) -> Result<Vec<u8, A>, WriteError>
    ensures exact { AnswersOrWants (rebase_tests file.now base) (λ bytes. bytes.items ≡ rebased file.now base) result }
    ensures early { (fault : code_fault.Fault) → first_standing (layout_tests 0 file.now) ≡ Some fault → result ≡ Err (Refusal.Fault fault) }
    ensures bytes { IfOk result (λ bytes. IsRebased file.now base bytes.items) }
{
    pe_layout::laws::sections_are_apart();
    pe_tables::laws::fields_are_apart();
    let layout = lay_out(file, 0)?;
    let fixups = read_relocations(alloc, &layout)?;
    let bytes = rebase_image(alloc, file, &layout, &fixups, base)?;
    Ok(bytes)
}
