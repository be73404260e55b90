//! The names of the storage classes of symbols and of relocation types, as "PE Format" spells them.

ghost use Rattle.std.specs.Prelude.{◌≡◌, option_map};
ghost use Rattle.pe_head.specs.Names.{name_in};
ghost use Rattle.coff_read.specs.TypeNames.{storage_class_names, amd64_type_names, i386_type_names, arm64_type_names, arm_type_names, relocation_type_names};

use pe_head::machine;

/// The name of a storage class, such as `EXTERNAL` for IMAGE_SYM_CLASS_EXTERNAL, or `None` if "PE Format" has no name for it
/// (Storage Class).
#[tactic(auto, unfolding(crate::specs::TypeNames::storage_class_names))]
pub fn storage_class_name(class: u8) -> Option<&'static str>
    ensures { option_map (λ name. name.now) result ≡ name_in storage_class_names class }
{
    match class {
        0 => Some("NULL"),
        1 => Some("AUTOMATIC"),
        2 => Some("EXTERNAL"),
        3 => Some("STATIC"),
        4 => Some("REGISTER"),
        5 => Some("EXTERNAL_DEF"),
        6 => Some("LABEL"),
        7 => Some("UNDEFINED_LABEL"),
        8 => Some("MEMBER_OF_STRUCT"),
        9 => Some("ARGUMENT"),
        10 => Some("STRUCT_TAG"),
        11 => Some("MEMBER_OF_UNION"),
        12 => Some("UNION_TAG"),
        13 => Some("TYPE_DEFINITION"),
        14 => Some("UNDEFINED_STATIC"),
        15 => Some("ENUM_TAG"),
        16 => Some("MEMBER_OF_ENUM"),
        17 => Some("REGISTER_PARAM"),
        18 => Some("BIT_FIELD"),
        100 => Some("BLOCK"),
        101 => Some("FUNCTION"),
        102 => Some("END_OF_STRUCT"),
        103 => Some("FILE"),
        104 => Some("SECTION"),
        105 => Some("WEAK_EXTERNAL"),
        107 => Some("CLR_TOKEN"),
        255 => Some("END_OF_FUNCTION"),
        _ => None,
    }
}

/// The name of a relocation type for AMD64, without IMAGE_REL_AMD64_ ("PE Format", Type Indicators).
#[tactic(auto, unfolding(crate::specs::TypeNames::amd64_type_names))]
fn amd64_type_name(kind: u16) -> Option<&'static str>
    ensures { option_map (λ name. name.now) result ≡ name_in amd64_type_names kind }
{
    match kind {
        0x00 => Some("ABSOLUTE"),
        0x01 => Some("ADDR64"),
        0x02 => Some("ADDR32"),
        0x03 => Some("ADDR32NB"),
        0x04 => Some("REL32"),
        0x05 => Some("REL32_1"),
        0x06 => Some("REL32_2"),
        0x07 => Some("REL32_3"),
        0x08 => Some("REL32_4"),
        0x09 => Some("REL32_5"),
        0x0a => Some("SECTION"),
        0x0b => Some("SECREL"),
        0x0c => Some("SECREL7"),
        0x0d => Some("TOKEN"),
        0x0e => Some("SREL32"),
        0x0f => Some("PAIR"),
        0x10 => Some("SSPAN32"),
        _ => None,
    }
}

/// The name of a relocation type for I386, without IMAGE_REL_I386_ ("PE Format", Type Indicators).
#[tactic(auto, unfolding(crate::specs::TypeNames::i386_type_names))]
fn i386_type_name(kind: u16) -> Option<&'static str>
    ensures { option_map (λ name. name.now) result ≡ name_in i386_type_names kind }
{
    match kind {
        0x00 => Some("ABSOLUTE"),
        0x01 => Some("DIR16"),
        0x02 => Some("REL16"),
        0x06 => Some("DIR32"),
        0x07 => Some("DIR32NB"),
        0x09 => Some("SEG12"),
        0x0a => Some("SECTION"),
        0x0b => Some("SECREL"),
        0x0c => Some("TOKEN"),
        0x0d => Some("SECREL7"),
        0x14 => Some("REL32"),
        _ => None,
    }
}

/// The name of a relocation type for ARM64, without IMAGE_REL_ARM64_ ("PE Format", Type Indicators).
#[tactic(auto, unfolding(crate::specs::TypeNames::arm64_type_names))]
fn arm64_type_name(kind: u16) -> Option<&'static str>
    ensures { option_map (λ name. name.now) result ≡ name_in arm64_type_names kind }
{
    match kind {
        0x00 => Some("ABSOLUTE"),
        0x01 => Some("ADDR32"),
        0x02 => Some("ADDR32NB"),
        0x03 => Some("BRANCH26"),
        0x04 => Some("PAGEBASE_REL21"),
        0x05 => Some("REL21"),
        0x06 => Some("PAGEOFFSET_12A"),
        0x07 => Some("PAGEOFFSET_12L"),
        0x08 => Some("SECREL"),
        0x09 => Some("SECREL_LOW12A"),
        0x0a => Some("SECREL_HIGH12A"),
        0x0b => Some("SECREL_LOW12L"),
        0x0c => Some("TOKEN"),
        0x0d => Some("SECTION"),
        0x0e => Some("ADDR64"),
        0x0f => Some("BRANCH19"),
        0x10 => Some("BRANCH14"),
        0x11 => Some("REL32"),
        _ => None,
    }
}

/// The name of a relocation type for the other ARM processors, without IMAGE_REL_ARM_ ("PE Format", Type Indicators).
#[tactic(auto, unfolding(crate::specs::TypeNames::arm_type_names))]
fn arm_type_name(kind: u16) -> Option<&'static str>
    ensures { option_map (λ name. name.now) result ≡ name_in arm_type_names kind }
{
    match kind {
        0x00 => Some("ABSOLUTE"),
        0x01 => Some("ADDR32"),
        0x02 => Some("ADDR32NB"),
        0x03 => Some("BRANCH24"),
        0x04 => Some("BRANCH11"),
        0x0a => Some("REL32"),
        0x0e => Some("SECTION"),
        0x0f => Some("SECREL"),
        0x10 => Some("MOV32"),
        0x11 => Some("THUMB_MOV32"),
        0x12 => Some("THUMB_BRANCH20"),
        0x14 => Some("THUMB_BRANCH24"),
        0x15 => Some("THUMB_BLX23"),
        0x16 => Some("PAIR"),
        _ => None,
    }
}

/// The name of a machine's relocation type, such as `REL32`, or `None` if "PE Format" has none. The format has one list for
/// ARM and ARMNT.
pub fn relocation_type_name(machine: u16, kind: u16) -> Option<&'static str>
    ensures { option_map (λ name. name.now) result ≡ name_in (relocation_type_names machine) kind }
{
    match machine {
        machine::AMD64 => amd64_type_name(kind),
        machine::I386 => i386_type_name(kind),
        machine::ARM64 => arm64_type_name(kind),
        machine::ARM | machine::ARMNT => arm_type_name(kind),
        _ => None,
    }
}
