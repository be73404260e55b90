//! `write_object` and `write_big_object`: the bytes of an object file, or the least of faults 81 to 85.

ghost use Rattle.std.specs.Prelude.{◌≡◌, ◌+◌, ◌-◌, ◌<◌, ◌≤◌, ◌^◌, ◌++◌, true, false, length, map, min, ⊤, Some, Err, OnOk, IfOk};
ghost use Rattle.std.specs.List.{flat_map, AllByRecursion};
ghost use Rattle.pe_view.specs.Faults.{Answers, first_standing, AnswersOrWants};
ghost use Rattle.coff_read.specs.BigView.{big_object_view};
ghost use Rattle.coff_read.specs.FormFaults as form_faults;
ghost use Rattle.coff_read.specs.FormRecords.{section_number, aux_records, records_of};
ghost use Rattle.coff_read.specs.Forms.{Big, header_len};
ghost use Rattle.coff_read.specs.ObjectView.{section_view, object_view};
ghost use Rattle.coff_read.specs.ObjectFaults.{IsObjectOf};
ghost use Rattle.coff_read.specs.Records as format;
ghost use Rattle.coff_read.specs.Records.{SectionFits, RelocationsFit, SymbolFits, HeaderFits, Fits};
ghost use Rattle.pe_view.specs.declared.fault.Fault as code_fault;
ghost use Rattle.coff_object.specs.StringTableView.{counted};
ghost use Rattle.coff_object.specs.StringTableWords.{texts_in};
ghost use Rattle.coff_read.specs.Strings.{string_bytes};
ghost use Rattle.coff_object.specs.FormWriteFaults as form;
ghost use Rattle.coff_object.specs.FormWriteFaults.{is_bad_header, is_bad_object, form_tests};
ghost use Rattle.coff_object.specs.FormWritten as written;
ghost use Rattle.coff_object.specs.FormWritten.{number_limit, optional_of, bodies_start, symbols_pointer, coff_header, symbol_bytes};
ghost use Rattle.coff_object.specs.Written.{has_strings, string_table, canon, strings_of, section_body, section_table};
ghost use Rattle.coff_object.specs.NamePlaces.{section_places, symbol_places, ArePlacesOf};
ghost use Rattle.coff_object.specs.PartsView.{parts_view};
ghost use Rattle.coff_object.specs.Writable.{IsWritable};
ghost use Rattle.coff_object.specs.WriteFaults.{name_tests, section_tests, write_tests, is_far, has_many_relocations};
ghost use Rattle.pe_view.specs.declared.refusal.Refusal.{Refusal};

use crate::layout::{NamePlaces, bodies_size, body_size, place_names, record_count, symbols_size};
use crate::parts::Parts;
use crate::record_bytes::{push_body, push_section_header, push_symbol};
use crate::refusal::{crowded_section, far_section, zero_in_sections, zero_in_symbols};
use crate::string_table::StringTable;
use coff_read::{
    BigObject, ObjSection, Object, ObjectError, WideSymbol, has_bad_item, is_other_header,
};
use pe_numbers::Number::{U16, U32};
use pe_numbers::push_numbers;
use pe_view::{Fault, Place};
use std::alloc::{AllocError, Allocator};

/// The class of big objects, {D1BAA1C7-BAEE-4BA9-AF20-FAF66AA4DCB8}, as four numbers.
const BIG_CLASS: [u32; 4] = [0xd1ba_a1c7, 0x4ba9_baee, 0xf6fa_20af, 0xb8dc_a46a];

/// A fault of an item, whose index is capped at the greatest that a place can hold.
fn item_fault(number: u16, index: u64) -> Fault
    ensures { result ≡ record { number = number; image = 0; place = Place.Item (min index (2 ^ 32 - 1)) } }
{
    Fault {
        number,
        image: 0,
        place: Place::Item(index.min(u64::from(u32::MAX)) as u32),
    }
}

/// Tests fault 81.
fn check_names<A: Allocator, S: WideSymbol, const BIG: bool>(
    object: &Parts<'_, '_, A, S, BIG>,
) -> Result<(), Fault>
    ensures { Answers (name_tests (parts_view S.view object.now)) (λ _. ⊤) result }
{
    if let Some(index) = zero_in_sections(object.sections) {
        return Err(item_fault(81, index as u64));
    }
    if let Some(index) = zero_in_symbols(object.symbols) {
        let sections = object.sections.len() as u64;
        return Err(item_fault(81, sections.saturating_add(index as u64)));
    }
    Ok(())
}

/// Tests faults 82 and 83.
fn check_sections<A: Allocator + Copy, S: WideSymbol, const BIG: bool>(
    object: &Parts<'_, '_, A, S, BIG>,
    places: &NamePlaces<A>,
) -> Result<(), Fault>
    requires { ArePlacesOf (parts_view S.view object.now) places.now }
    ensures { Answers (section_tests (parts_view S.view object.now)) (λ _. ⊤) result }
{
    if let Some(index) = far_section(places.sections.as_slice()) {
        return Err(item_fault(82, index as u64));
    }
    if let Some(index) = crowded_section(object.sections) {
        return Err(item_fault(83, index as u64));
    }
    Ok(())
}

/// Adds the section table; `start` is the file offset of the first section's body.
fn push_table<A: Allocator + Copy>(
    bytes: &mut Vec<u8, A>,
    places: &NamePlaces<A>,
    start: u32,
    sections: &[ObjSection<A>],
) -> Result<(), AllocError>
    requires places { places.now.sections.items ≡ section_places (texts_in places.now.strings) (map section_view sections.now) }
    requires near { AllByRecursion (λ (s : format.Section). is_far (texts_in places.now.strings) s ≡ false) (map section_view sections.now) }
    requires few { AllByRecursion (λ (s : format.Section). has_many_relocations s ≡ false) (map section_view sections.now) }
    requires fits { start + length (flat_map section_body (map section_view sections.now)) < 2 ^ 32 }
    ensures fits { OnOk result (AllByRecursion SectionFits (map section_view sections.now)) }
    ensures bytes { OnOk result (bytes.new.items ≡ bytes.old.items ++ section_table (texts_in places.now.strings) start (map section_view sections.now)) }
{
    let mut at = start;
    for (section, place) in sections.iter().zip(places.sections.as_slice()) {
        push_section_header(bytes, *place, at, section)?;
        at += body_size(section) as u32;
    }
    Ok(())
}

/// Adds the bodies of sections.
fn push_bodies<A: Allocator>(
    bytes: &mut Vec<u8, A>,
    sections: &[ObjSection<A>],
) -> Result<(), AllocError>
    ensures fits { OnOk result (AllByRecursion RelocationsFit (map section_view sections.now)) }
    ensures bytes { OnOk result (bytes.new.items ≡ bytes.old.items ++ flat_map section_body (map section_view sections.now)) }
{
    for section in sections {
        push_body(bytes, section)?;
    }
    Ok(())
}

/// Adds the records of symbols.
fn push_symbols<A: Allocator + Copy, S: WideSymbol, const BIG: bool>(
    bytes: &mut Vec<u8, A>,
    places: &NamePlaces<A>,
    symbols: &[S],
) -> Result<(), AllocError>
    requires places { places.now.symbols.items ≡ symbol_places (texts_in places.now.strings) (map S.view symbols.now) }
    requires offsets { 4 + length (string_bytes (texts_in places.now.strings)) < 2 ^ 32 }
    requires few { AllByRecursion (λ (s : format.Symbol). aux_records BIG s < 2 ^ 8) (map S.view symbols.now) }
    requires near { AllByRecursion (λ (s : format.Symbol). section_number BIG s.section < number_limit BIG) (map S.view symbols.now) }
    ensures fits { OnOk result (AllByRecursion SymbolFits (map S.view symbols.now)) }
    ensures bytes { OnOk result (bytes.new.items ≡ bytes.old.items ++ flat_map (symbol_bytes BIG (texts_in places.now.strings)) (map S.view symbols.now)) }
{
    for (symbol, place) in symbols.iter().zip(places.symbols.as_slice()) {
        push_symbol::<A, BIG>(bytes, *place, symbol.wide())?;
    }
    Ok(())
}

/// Whether there are symbols or strings.
fn has_strings<A: Allocator + Copy, S: WideSymbol, const BIG: bool>(
    object: &Parts<'_, '_, A, S, BIG>,
    strings: &StringTable<A>,
) -> bool
    requires { texts_in strings.now ≡ strings_of (parts_view S.view object.now) }
    ensures { result ≡ has_strings (parts_view S.view object.now) }
{
    !object.symbols.is_empty() || !strings.is_empty()
}

/// The size of the string table in bytes, with its size field; 0 if there is none.
fn table_size<A: Allocator + Copy, S: WideSymbol, const BIG: bool>(
    object: &Parts<'_, '_, A, S, BIG>,
    strings: &StringTable<A>,
) -> u64
    requires { texts_in strings.now ≡ strings_of (parts_view S.view object.now) }
    ensures { result ≡ counted (length (string_table (parts_view S.view object.now))) }
{
    if has_strings(object, strings) {
        strings.size()
    } else {
        0
    }
}

/// The size of the header and of the optional header in bytes.
fn header_size<A: Allocator + Copy, S: WideSymbol, const BIG: bool>(
    object: &Parts<'_, '_, A, S, BIG>,
) -> u64
    ensures { result ≡ header_len BIG + length (optional_of BIG (parts_view S.view object.now)) }
{
    if BIG {
        return 56;
    }
    20 + object.optional.len() as u64
}

/// The most sections that the form counts.
fn most_sections<const BIG: bool>() -> u64
    ensures { result ≡ form.most_sections BIG }
{
    if BIG { 0xffff_ffff } else { 0xffff }
}

/// The size of the written object in bytes.
fn written_size<A: Allocator + Copy, S: WideSymbol, const BIG: bool>(
    object: &Parts<'_, '_, A, S, BIG>,
    strings: &StringTable<A>,
) -> u64
    requires texts { texts_in strings.now ≡ strings_of (parts_view S.view object.now) }
    requires near { AllByRecursion (λ (s : format.Section). is_far (strings_of (parts_view S.view object.now)) s ≡ false) (parts_view S.view object.now).sections }
    ensures { result ≡ counted (length (written.canon BIG (parts_view S.view object.now))) }
{
    let sections = object.sections;
    let table = (sections.len() as u64).saturating_mul(40);
    header_size(object)
        .saturating_add(table)
        .saturating_add(bodies_size(sections))
        .saturating_add(symbols_size::<S, BIG>(object.symbols))
        .saturating_add(table_size(object, strings))
}

/// Whether the header does not fit the form: the optional header, or what a big object does not store.
fn is_bad_header<A: Allocator + Copy, S: WideSymbol, const BIG: bool>(
    object: &Parts<'_, '_, A, S, BIG>,
) -> bool
    ensures { result ≡ is_bad_header BIG (parts_view S.view object.now) }
{
    if BIG {
        !object.optional.is_empty() || object.characteristics != 0
    } else {
        object.optional.len() > 65_535
    }
}

/// Whether the written object would begin as a file of another kind, if its sections are few enough.
fn is_misread<A: Allocator + Copy, S: WideSymbol, const BIG: bool>(
    object: &Parts<'_, '_, A, S, BIG>,
) -> bool
    requires { length object.now.sections.now ≤ form.most_sections BIG }
    ensures { result ≡ form.is_misread BIG (parts_view S.view object.now) }
{
    if BIG {
        return false;
    }
    let count = object.sections.len() as u16;
    is_other_header(object.machine, count, object.time_stamp)
}

/// Whether the object, whose symbols have so many records, does not fit the form: fault 85.
fn is_bad_object<A: Allocator + Copy, S: WideSymbol, const BIG: bool>(
    object: &Parts<'_, '_, A, S, BIG>,
    records: u64,
) -> bool
    requires small { length (written.canon BIG (parts_view S.view object.now)) < 2 ^ 32 }
    requires records { records ≡ counted (records_of BIG (parts_view S.view object.now).symbols) }
    ensures { result ≡ is_bad_object BIG (parts_view S.view object.now) }
{
    if is_bad_header(object) {
        return true;
    }
    if object.sections.len() as u64 > most_sections::<BIG>() {
        return true;
    }
    if is_misread(object) {
        return true;
    }
    has_bad_item(BIG, object.sections, object.symbols, records)
}

/// Adds the header of a plain object; `symbols_at` is the file offset of the symbol table, or 0 without symbols and strings, and
/// `records` how many records it has.
fn push_plain_header<A: Allocator + Copy, S: WideSymbol, const BIG: bool>(
    bytes: &mut Vec<u8, A>,
    object: &Parts<'_, '_, A, S, BIG>,
    symbols_at: u32,
    records: u32,
) -> Result<(), AllocError>
    requires start { symbols_at ≡ symbols_pointer false (parts_view S.view object.now) }
    requires records { records ≡ records_of false (parts_view S.view object.now).symbols }
    requires form { IsWritable false (parts_view S.view object.now) }
    ensures fits { OnOk result (HeaderFits (parts_view S.view object.now)) }
    ensures bytes { OnOk result (bytes.new.items ≡ bytes.old.items ++ coff_header false (parts_view S.view object.now)) }
{
    push_numbers(
        bytes,
        &[
            U16(object.machine),
            U16(object.sections.len() as u16),
            U32(object.time_stamp),
            U32(symbols_at),
            U32(records),
            U16(object.optional.len() as u16),
            U16(object.characteristics),
        ],
    )
}

/// Adds the header of a big object; `symbols_at` is the file offset of the symbol table, or 0 without symbols and strings, and
/// `records` how many records it has.
fn push_big_header<A: Allocator + Copy, S: WideSymbol, const BIG: bool>(
    bytes: &mut Vec<u8, A>,
    object: &Parts<'_, '_, A, S, BIG>,
    symbols_at: u32,
    records: u32,
) -> Result<(), AllocError>
    requires start { symbols_at ≡ symbols_pointer true (parts_view S.view object.now) }
    requires records { records ≡ records_of true (parts_view S.view object.now).symbols }
    requires form { IsWritable true (parts_view S.view object.now) }
    ensures fits { OnOk result (HeaderFits (parts_view S.view object.now)) }
    ensures bytes { OnOk result (bytes.new.items ≡ bytes.old.items ++ coff_header true (parts_view S.view object.now)) }
{
    let [class_0, class_1, class_2, class_3] = BIG_CLASS;
    push_numbers(
        bytes,
        &[
            U16(0),
            U16(0xffff),
            U16(2),
            U16(object.machine),
            U32(object.time_stamp),
            U32(class_0),
            U32(class_1),
            U32(class_2),
            U32(class_3),
            U32(0),
            U32(0),
            U32(0),
            U32(0),
            U32(object.sections.len() as u32),
            U32(symbols_at),
            U32(records),
        ],
    )
}

/// Adds the header; `symbols_at` is the file offset of the symbol table, or 0 without symbols and strings, and
/// `records` how many records it has.
fn push_header<A: Allocator + Copy, S: WideSymbol, const BIG: bool>(
    bytes: &mut Vec<u8, A>,
    object: &Parts<'_, '_, A, S, BIG>,
    symbols_at: u32,
    records: u32,
) -> Result<(), AllocError>
    requires start { symbols_at ≡ symbols_pointer BIG (parts_view S.view object.now) }
    requires records { records ≡ records_of BIG (parts_view S.view object.now).symbols }
    requires form { IsWritable BIG (parts_view S.view object.now) }
    ensures fits { OnOk result (HeaderFits (parts_view S.view object.now)) }
    ensures bytes { OnOk result (bytes.new.items ≡ bytes.old.items ++ coff_header BIG (parts_view S.view object.now)) }
{
    if BIG {
        push_big_header(bytes, object, symbols_at, records)
    } else {
        push_plain_header(bytes, object, symbols_at, records)
    }
}

/// Adds the optional header, which a big object has not.
fn push_optional<A: Allocator + Copy, S: WideSymbol, const BIG: bool>(
    bytes: &mut Vec<u8, A>,
    object: &Parts<'_, '_, A, S, BIG>,
) -> Result<(), AllocError>
    ensures { OnOk result (bytes.new.items ≡ bytes.old.items ++ optional_of BIG (parts_view S.view object.now)) }
{
    if BIG {
        return Ok(());
    }
    bytes.extend_from_slice(object.optional)
}

/// Adds the string table.
fn push_strings<A: Allocator + Copy, S: WideSymbol, const BIG: bool>(
    bytes: &mut Vec<u8, A>,
    object: &Parts<'_, '_, A, S, BIG>,
    strings: &StringTable<A>,
) -> Result<(), AllocError>
    requires texts { texts_in strings.now ≡ strings_of (parts_view S.view object.now) }
    requires small { 4 + length (string_bytes (texts_in strings.now)) < 2 ^ 32 }
    ensures { OnOk result (bytes.new.items ≡ bytes.old.items ++ string_table (parts_view S.view object.now)) }
{
    if !has_strings(object, strings) {
        return Ok(());
    }
    push_numbers(bytes, &[U32(strings.size() as u32)])?;
    strings.push_bytes(bytes)
}

/// Where the bodies of an object's sections begin in its written form: after the section table.
fn bodies_start<A: Allocator + Copy, S: WideSymbol, const BIG: bool>(
    object: &Parts<'_, '_, A, S, BIG>,
) -> u32
    requires { IsWritable BIG (parts_view S.view object.now) }
    ensures { result ≡ bodies_start BIG (parts_view S.view object.now) }
{
    header_size(object) as u32 + 40 * object.sections.len() as u32
}

/// PointerToSymbolTable of an object.
fn symbols_pointer<A: Allocator + Copy, S: WideSymbol, const BIG: bool>(
    object: &Parts<'_, '_, A, S, BIG>,
    strings: &StringTable<A>,
) -> u32
    requires texts { texts_in strings.now ≡ strings_of (parts_view S.view object.now) }
    requires form { IsWritable BIG (parts_view S.view object.now) }
    ensures { result ≡ symbols_pointer BIG (parts_view S.view object.now) }
{
    if has_strings(object, strings) {
        bodies_start(object) + bodies_size(object.sections) as u32
    } else {
        0
    }
}

/// The size of the written object, whose symbols have so many records, in bytes, or fault 84 or 85.
fn check_form<A: Allocator + Copy, S: WideSymbol, const BIG: bool>(
    object: &Parts<'_, '_, A, S, BIG>,
    strings: &StringTable<A>,
    records: u64,
) -> Result<usize, Fault>
    requires texts { texts_in strings.now ≡ strings_of (parts_view S.view object.now) }
    requires near { AllByRecursion (λ (s : format.Section). is_far (strings_of (parts_view S.view object.now)) s ≡ false) (parts_view S.view object.now).sections }
    requires records { records ≡ counted (records_of BIG (parts_view S.view object.now).symbols) }
    ensures { Answers (form_tests BIG (parts_view S.view object.now)) (λ size. size ≡ length (written.canon BIG (parts_view S.view object.now))) result }
{
    let size = written_size(object, strings);
    if size > u64::from(u32::MAX) {
        return Err(item_fault(84, 0));
    }
    if is_bad_object(object, records) {
        return Err(item_fault(85, 0));
    }
    Ok(size as usize)
}

/// The file of an object without a fault, of `size` bytes, which are allocated at once; `records` is how many its symbols have.
fn write_parts<A: Allocator + Copy, S: WideSymbol, const BIG: bool>(
    alloc: A,
    object: &Parts<'_, '_, A, S, BIG>,
    places: &NamePlaces<A>,
    size: usize,
    records: u32,
) -> Result<Vec<u8, A>, AllocError>
    requires places { ArePlacesOf (parts_view S.view object.now) places.now }
    requires form { IsWritable BIG (parts_view S.view object.now) }
    requires records { records ≡ records_of BIG (parts_view S.view object.now).symbols }
    ensures fits { OnOk result (Fits (parts_view S.view object.now)) }
    ensures bytes { IfOk result (λ bytes. bytes.items ≡ written.canon BIG (parts_view S.view object.now)) }
{
    let mut bytes = Vec::with_capacity(alloc, size)?;
    let symbols_at = symbols_pointer(object, &places.strings);
    push_header(&mut bytes, object, symbols_at, records)?;
    push_optional(&mut bytes, object)?;
    push_table(&mut bytes, places, bodies_start(object), object.sections)?;
    push_bodies(&mut bytes, object.sections)?;
    push_symbols::<A, S, BIG>(&mut bytes, places, object.symbols)?;
    push_strings(&mut bytes, object, &places.strings)?;
    Ok(bytes)
}

/// The file of an object that is written plain or big, or the least of faults 81 to 85, or out of memory.
fn write_form<A: Allocator + Copy, S: WideSymbol, const BIG: bool>(
    alloc: A,
    object: &Parts<'_, '_, A, S, BIG>,
) -> Result<Vec<u8, A>, ObjectError>
    ensures exact { AnswersOrWants (form.write_tests BIG (parts_view S.view object.now)) (λ bytes. bytes.items ≡ written.canon BIG (parts_view S.view object.now)) result }
    ensures read_back { IfOk result (λ bytes. form_faults.IsObjectOf BIG bytes.items (parts_view S.view object.now)) }
    ensures early { (fault : code_fault.Fault) → first_standing (name_tests (parts_view S.view object.now)) ≡ Some fault → result ≡ Err (Refusal.Fault fault) }
{
    check_names(object)?;
    let places = place_names(alloc, object)?;
    check_sections(object, &places)?;
    let records = record_count::<S, BIG>(object.symbols);
    let size = check_form(object, &places.strings, records)?;
    let bytes = write_parts(alloc, object, &places, size, records as u32)?;
    Ok(bytes)
}

/// The file of an object, or the least of faults 81 to 85, or out of memory.
///
/// The COFF header, the optional header, the section table, each section's raw data and its relocations, the symbols and the string
/// table follow one another without a gap. An object with fault 81 is refused before anything is allocated. ("PE Format": COFF File
/// Header, Section Table, COFF Relocations, COFF Symbol Table, COFF String Table.)
pub fn write_object<A: Allocator + Copy>(
    alloc: A,
    object: &Object<A>,
) -> Result<Vec<u8, A>, ObjectError>
    ensures exact { AnswersOrWants (write_tests (object_view object.now)) (λ bytes. bytes.items ≡ canon (object_view object.now)) result }
    ensures read_back { IfOk result (λ bytes. IsObjectOf bytes.items (object_view object.now)) }
    ensures early { (fault : code_fault.Fault) → first_standing (name_tests (object_view object.now)) ≡ Some fault → result ≡ Err (Refusal.Fault fault) }
{
    let parts: Parts<'_, '_, A, _, false> = Parts {
        machine: object.machine,
        time_stamp: object.time_stamp,
        characteristics: object.characteristics,
        optional: object.optional,
        sections: object.sections.as_slice(),
        symbols: object.symbols.as_slice(),
    };
    write_form(alloc, &parts)
}

/// The file of a big object (`/bigobj`), or the least of faults 81 to 85, or out of memory.
///
/// The parts are those that [`write_object`] writes, in the same order, with the header and the symbols of a big object, which has no
/// optional header. An object with an optional header or with Characteristics has no such form, which is fault 85. An object with
/// fault 81 is refused before anything is allocated. ("PE Format": Section Table, COFF Relocations, COFF Symbol Table, COFF String
/// Table.)
pub fn write_big_object<A: Allocator + Copy>(
    alloc: A,
    object: &BigObject<A>,
) -> Result<Vec<u8, A>, ObjectError>
    ensures exact { AnswersOrWants (form.write_tests Big (big_object_view object.now)) (λ bytes. bytes.items ≡ written.canon Big (big_object_view object.now)) result }
    ensures read_back { IfOk result (λ bytes. form_faults.IsObjectOf Big bytes.items (big_object_view object.now)) }
    ensures early { (fault : code_fault.Fault) → first_standing (name_tests (big_object_view object.now)) ≡ Some fault → result ≡ Err (Refusal.Fault fault) }
{
    let parts: Parts<'_, '_, A, _, true> = Parts {
        machine: object.machine,
        time_stamp: object.time_stamp,
        characteristics: object.characteristics,
        optional: object.optional,
        sections: object.sections.as_slice(),
        symbols: object.symbols.as_slice(),
    };
    write_form(alloc, &parts)
}
