//! Faults in words: `fault_words`, by a fault's number, and `FaultText`, with its place.

ghost use Rattle.std.specs.Prelude.{◌≡◌, ◌≤◌, ◌++◌, Some, codes, length, option_map, map, take};
ghost use Rattle.pe_text.specs.FaultWords.{rules, rule_view, words_view, words_in, words_of, at_words, hex_text, place_number, number_text, sentence};

use crate::digits::{DIGITS, hex_digits, hex_width};
use arrayvec::ArrayVec;
use itoa::Buffer;
use pe_view::{Fault, Place};
use std::fmt::{self, Display};

/// What is at the place of a fault, and what is wrong with it, in the terms of "PE Format".
#[derive(Clone, Copy, Debug, PartialEq, Eq)]
pub struct FaultWords {
    /// What is at the fault's place.
    pub subject: &'static str,
    /// The rule that it breaks.
    pub rule: &'static str,
}

/// The words of each fault: its number, what is at its place, and the rule that it breaks.
static RULES: [(u16, &str, &str); 72] = [
    (1, "byte", "the file is larger than 2^32 bytes"),
    (
        2,
        "end of the file",
        "the file has fewer than the 64 bytes of an MS-DOS header",
    ),
    (3, "MS-DOS header", "the file does not begin with MZ"),
    (
        4,
        "offset of the signature",
        "the signature and the COFF file header after it extend past the end of the file",
    ),
    (5, "signature", "the bytes are not PE and two zero bytes"),
    (
        6,
        "Magic",
        "the field is neither 0x10b (PE32) nor 0x20b (PE32+), or extends past the end of the file",
    ),
    (
        7,
        "SizeOfOptionalHeader",
        "the size is too small for the optional header's fixed fields and data directories",
    ),
    (
        8,
        "SizeOfOptionalHeader",
        "the optional header extends past the end of the file",
    ),
    (9, "NumberOfSections", "the image has more than 96 sections"),
    (
        10,
        "NumberOfSections",
        "the section table extends past the end of the file",
    ),
    (11, "SizeOfImage", "the size is 0 or more than 2^31"),
    (
        12,
        "SizeOfHeaders",
        "the headers end before the section table does, or extend past the end of the file or of the image",
    ),
    (
        13,
        "section header",
        "the section's raw data extends past the end of the file",
    ),
    (
        14,
        "section header",
        "the section extends past the end of the image",
    ),
    (
        15,
        "section header",
        "the section begins before the end of the headers or of the previous section",
    ),
    (
        16,
        "export directory table",
        "the table is not entirely inside the image",
    ),
    (
        17,
        "RVA in the export directory table",
        "the table at this RVA is not entirely inside the image",
    ),
    (
        18,
        "count in the export directory table",
        "the table has more than 65,536 entries",
    ),
    (
        19,
        "export name pointer",
        "the pointer does not point to a null-terminated string",
    ),
    (
        20,
        "export ordinal",
        "the ordinal is not a valid index into the export address table",
    ),
    (
        21,
        "export address",
        "the address is past the end of the image",
    ),
    (
        22,
        "export address",
        "the forwarder is not of the form MODULE.NAME or MODULE.#ORDINAL",
    ),
    (
        24,
        "import directory entry",
        "the entry is not entirely inside the image",
    ),
    (
        25,
        "name RVA of an import directory entry",
        "the RVA does not point to a null-terminated string",
    ),
    (
        26,
        "import lookup entry",
        "the entry is not entirely inside the image",
    ),
    (
        27,
        "import lookup entry",
        "the entry does not point to a null-terminated name",
    ),
    (
        28,
        "import lookup entry",
        "the entry imports by name, but its bits 62 to 31 are not 0",
    ),
    (
        29,
        "import lookup entry",
        "its slot in the import address table is not entirely inside the image",
    ),
    (
        30,
        "import lookup entry",
        "its slot in the import address table overlaps that of an earlier entry",
    ),
    (
        31,
        "import lookup entry",
        "the image has more than 1,048,576 imports",
    ),
    (
        32,
        "import directory entry",
        "the RVA of the import lookup table is 0, but the time stamp is not",
    ),
    (
        33,
        "base relocation block",
        "the block's size is odd or less than 8, or the block extends past the end of the directory",
    ),
    (
        34,
        "base relocation table",
        "the table extends past the end of the image",
    ),
    (
        35,
        "base relocation",
        "the type is not ABSOLUTE, HIGH, LOW, HIGHLOW or DIR64",
    ),
    (
        36,
        "base relocation",
        "its field is not entirely inside the image",
    ),
    (
        37,
        "base relocation",
        "its field overlaps that of an earlier base relocation",
    ),
    (
        38,
        "base relocation",
        "its field overlaps the import address table",
    ),
    (41, "file", "the set has more than 256 files"),
    (42, "file", "its module has the same name as an earlier one"),
    (43, "file", "its Magic differs from that of file 0"),
    (44, "base", "the base is not a multiple of 65,536"),
    (
        45,
        "base",
        "the image extends past the end of the address space",
    ),
    (
        46,
        "base",
        "its base relocations were stripped, but the base is not its ImageBase",
    ),
    (47, "base", "the image overlaps another image"),
    (
        48,
        "import address table slot",
        "the import leads to a module that is not in the set",
    ),
    (
        49,
        "import address table slot",
        "the import leads to a module that does not export it",
    ),
    (
        50,
        "import address table slot",
        "the import leads into a cycle of forwarders",
    ),
    (
        51,
        "field of a base relocation",
        "the field is not entirely inside the raw data of one section",
    ),
    (
        52,
        "section header",
        "the section's raw data begins in the headers, or overlaps that of an earlier section",
    ),
    (53, "image", "its plan does not fit the format"),
    (54, "window", "the window is not inside one image"),
    (55, "image", "there is no image with this index"),
    (
        61,
        "end of the file",
        "the file has fewer than the 20 bytes of a COFF file header, or more than 2^32",
    ),
    (
        62,
        "COFF file header",
        "the file begins like an image, an archive or an import object",
    ),
    (
        63,
        "NumberOfSections",
        "the section table extends past the end of the file",
    ),
    (
        64,
        "section header",
        "the section's raw data extends past the end of the file",
    ),
    (
        65,
        "section header",
        "the count of relocations is an extended count, which is not supported",
    ),
    (
        66,
        "section header",
        "the section's relocations extend past the end of the file",
    ),
    (
        67,
        "PointerToSymbolTable",
        "the symbol table extends past the end of the file",
    ),
    (
        68,
        "string table",
        "the table's size is cut off or 1 to 3, or the table extends past the end of the file",
    ),
    (
        69,
        "name",
        "its offset does not point to a null-terminated string in the string table",
    ),
    (
        70,
        "symbol",
        "its auxiliary symbol records extend past the end of the symbol table",
    ),
    (
        71,
        "symbol",
        "its section number is neither that of a section nor ABSOLUTE or DEBUG",
    ),
    (
        72,
        "relocation",
        "its index is not that of a record in the symbol table",
    ),
    (81, "name", "the name contains a zero byte"),
    (
        82,
        "section",
        "the offset of its name in the string table is more than 9,999,999",
    ),
    (
        83,
        "section",
        "the section has more than 65,534 relocations",
    ),
    (84, "object", "its file would have more than 2^32 - 1 bytes"),
    (85, "object", "a part of it does not fit the format"),
    (91, "member", "the archive has more than 65,535 members"),
    (
        92,
        "member",
        "its name is empty, has a zero byte or a line end in it, or ends in /",
    ),
    (93, "member", "it ends past 2^32 - 1 bytes of the archive"),
];

/// The words of each finding, as [`RULES`] has those of faults.
static FINDING_RULES: [(u16, &str, &str); 73] = [
    (
        101,
        "debug directory",
        "its Size is more than the bytes that the file holds of it in one run",
    ),
    (
        102,
        "debug directory",
        "its Size is not a multiple of the length of an entry",
    ),
    (
        103,
        "debug directory entry",
        "its data extends past the end of the file",
    ),
    (
        104,
        "debug directory entry",
        "its data extends past the end of the image",
    ),
    (
        105,
        "debug directory entry",
        "the path in its CodeView data does not end with a zero byte",
    ),
    (
        111,
        "exception table",
        "its Size is more than the bytes that the file holds of it in one run",
    ),
    (
        112,
        "exception table",
        "its Size is not a multiple of the length of a record",
    ),
    (
        113,
        "function in the exception table",
        "it ends before it begins",
    ),
    (
        114,
        "function in the exception table",
        "it extends past the end of the image",
    ),
    (
        115,
        "function in the exception table",
        "its unwind information is not entirely inside the image",
    ),
    (
        116,
        "function in the exception table",
        "it begins before the function that is before it in the table",
    ),
    (117, "unwind information", "its version is neither 1 nor 2"),
    (
        118,
        "unwind code",
        "its operation takes more slots than are left",
    ),
    (119, "unwind code", "its operation is not known"),
    (
        120,
        "unwind information",
        "its chain leaves the image, or does not end within 32",
    ),
    (
        131,
        "TLS directory",
        "the file does not hold all of it in one run",
    ),
    (132, "TLS directory", "its template ends before it starts"),
    (
        133,
        "TLS directory",
        "its template or its index is not in the image",
    ),
    (
        134,
        "TLS directory",
        "AddressOfCallBacks is not an address in the image",
    ),
    (
        135,
        "TLS callbacks",
        "no zero ends their table in the bytes that the file holds of it in one run",
    ),
    (136, "TLS callback", "its address is not in the image"),
    (
        141,
        "load configuration",
        "the file does not hold its first field",
    ),
    (
        142,
        "load configuration",
        "its Size is more than the bytes that the file holds of it in one run",
    ),
    (
        143,
        "load configuration",
        "its Size is less than the length of this field",
    ),
    (
        144,
        "load configuration",
        "its table of exception handlers is not in one run",
    ),
    (
        145,
        "load configuration",
        "its table of guarded functions is not in one run",
    ),
    (
        146,
        "load configuration",
        "its table of exception handling continuations is not in one run",
    ),
    (
        147,
        "load configuration",
        "its table of guarded imports or of long jump targets is not in one run",
    ),
    (
        151,
        "bound import table",
        "no record of zeros ends it in the bytes that the file holds of it in one run",
    ),
    (
        152,
        "bound import",
        "the name of its module is not in the image",
    ),
    (
        161,
        "delay-load directory table",
        "no descriptor ends it in the bytes that the file holds of it in one run",
    ),
    (
        162,
        "delay-load descriptor",
        "its name does not point to a null-terminated string",
    ),
    (
        163,
        "delay import name table",
        "its next entry is not entirely inside the image",
    ),
    (
        164,
        "delay import name table",
        "an entry does not point to a null-terminated name",
    ),
    (
        165,
        "delay import name table",
        "bits of an entry that are to be 0 are not",
    ),
    (
        166,
        "delay import name table",
        "the slot of an entry in the delay import address table is not entirely inside the image",
    ),
    (
        167,
        "delay import name table",
        "it goes on after the 1,048,576 entries that are read of an image",
    ),
    (
        181,
        "resource directory",
        "the file does not hold the first 16 bytes of the root",
    ),
    (
        182,
        "resource directory",
        "the file does not hold all of it",
    ),
    (
        183,
        "name in the resource tree",
        "the file does not hold all of it",
    ),
    (
        184,
        "resource data entry",
        "the file does not hold all of it",
    ),
    (
        185,
        "resource directory",
        "it shares a byte with a directory that was read before it",
    ),
    (
        186,
        "resource data entry",
        "it is not at the third level of the tree",
    ),
    (
        187,
        "resource directory",
        "it is at a fourth level of the tree",
    ),
    (
        188,
        "resource data entry",
        "its data extends past the end of the image",
    ),
    (
        189,
        "resource directory",
        "its entries are not in ascending order, those with texts before those with ids",
    ),
    (
        211,
        "version information",
        "its key or its fixed part is not as it must be",
    ),
    (
        212,
        "block of version information",
        "it extends past the end of the block that it is in",
    ),
    (213, "block of version information", "no zero ends its key"),
    (
        214,
        "block of version information",
        "its length is less than that of its three numbers",
    ),
    (
        221,
        "directory 4",
        "the certificate table extends past the end of the file",
    ),
    (
        222,
        "certificate",
        "it is not entirely inside the certificate table and the file",
    ),
    (
        223,
        "directory 4",
        "the certificate table shares a byte with the headers or with the raw data of a section",
    ),
    (
        224,
        "directory 4",
        "the certificate table does not begin at a multiple of 8",
    ),
    (
        225,
        "directory 4",
        "there is no digest, since raw data leave a gap or overlap, or the certificate table is not after them at the end of the file",
    ),
    (241, "Rich", "no DanS begins the Rich header before it"),
    (
        251,
        "CLR header",
        "the file does not hold all of it in one run",
    ),
    (
        252,
        "CLR header",
        "one of its directories extends past the end of the image",
    ),
    (
        261,
        "symbol table",
        "its records extend past the end of the file",
    ),
    (262, "string table", "the file does not hold all of it"),
    (
        263,
        "symbol",
        "its section number is neither that of a section nor ABSOLUTE or DEBUG",
    ),
    (
        264,
        "symbol",
        "its auxiliary records extend past the end of the symbol table",
    ),
    (
        300,
        "archive",
        "the file does not begin with !<arch> or !<thin>",
    ),
    (
        301,
        "member",
        "it has no header, whose 60 bytes end with a backquote and a line feed",
    ),
    (302, "Size of a member", "it is no decimal number"),
    (303, "member", "it extends past the end of the file"),
    (304, "Name of a member", "it leads to no text"),
    (305, "linker member", "it has fewer symbols than it counts"),
    (306, "linker member", "a symbol leads to no member"),
    (307, "member", "the object in it has a fault"),
    (
        331,
        "SizeOfData",
        "the import object extends past the end of its member",
    ),
    (
        332,
        "import object",
        "its symbol, its DLL or the name that the DLL exports has no end",
    ),
    (333, "Type of an import object", "its name type is over 4"),
];

/// The words of a number in this table.
fn words_among(rules: &[(u16, &'static str, &'static str)], number: u16) -> Option<FaultWords>
    ensures { option_map words_view result ≡ words_in (map rule_view rules.now) number }
{
    for (of, subject, rule) in rules {
        if *of == number {
            return Some(FaultWords { subject, rule });
        }
    }
    None
}

/// The words of a fault or a finding by its number, and `None` for a number that belongs to none.
pub fn fault_words(number: u16) -> Option<FaultWords>
    ensures { option_map words_view result ≡ words_in rules number }
{
    match words_among(&RULES, number) {
        Some(words) => Some(words),
        None => words_among(&FINDING_RULES, number),
    }
}

/// The words of a number, also of one that no fault has.
fn words_of(number: u16) -> FaultWords
    ensures { words_view result ≡ words_of number }
{
    match fault_words(number) {
        Some(words) => words,
        None => FaultWords {
            subject: "place",
            rule: "no fault has this number",
        },
    }
}

/// The number of a place, in the base in which it is shown.
#[derive(Clone, Copy)]
enum PlaceNumber {
    Hex(u64),
    Decimal(u32),
}

/// The words before the number of a place, and the number.
fn place_words(place: Place) -> (&'static str, PlaceNumber)
    ensures words { result.0.now ≡ at_words place }
    ensures number { number_text result.1 ≡ place_number place }
{
    match place {
        Place::File(offset) => (" at 0x", PlaceNumber::Hex(offset)),
        Place::Rva(rva) => (" at RVA 0x", PlaceNumber::Hex(rva as u64)),
        Place::Address(address) => (" 0x", PlaceNumber::Hex(address)),
        Place::Item(item) => (" ", PlaceNumber::Decimal(item)),
    }
}

/// A fault in words: `section header at 0x138: the section's raw data extends past the end of the file`.
#[derive(Clone, Copy, Debug)]
pub struct FaultText(pub Fault);

impl Display for FaultText {
    ghost output = { λ text. Some (sentence text.0) };

    fn fmt<W: fmt::Write>(&self, f: &mut fmt::Formatter<W>) -> fmt::Result {
        let FaultWords { subject, rule } = words_of(self.0.number);
        let (at, number) = place_words(self.0.place);
        match number {
            PlaceNumber::Hex(number) => write!(f, "{subject}{at}{number:x}: {rule}"),
            PlaceNumber::Decimal(number) => write!(f, "{subject}{at}{number}: {rule}"),
        }
    }
}

/// Adds as many of these bytes as fit.
fn add(text: &mut ArrayVec<u8, 256>, bytes: &[u8])
    ensures { text.new.items ≡ take 256 (text.old.items ++ bytes.now) }
{
    let count = bytes.len().min(text.remaining_capacity());
    text.try_extend_from_slice(&bytes[..count]).unwrap();
}

/// The words of a fault with a place between them, cut to 256 bytes.
fn with_place(words: FaultWords, at: &str, number: &[u8]) -> ArrayVec<u8, 256>
    ensures { result.items ≡ take 256 (words.subject.now ++ at.now ++ number.now ++ codes ": " ++ words.rule.now) }
{
    let mut text = ArrayVec::new();
    add(&mut text, words.subject.as_bytes());
    add(&mut text, at.as_bytes());
    add(&mut text, number);
    add(&mut text, b": ");
    add(&mut text, words.rule.as_bytes());
    text
}

/// The same with the number of the place in hexadecimal.
fn with_hex(words: FaultWords, at: &str, number: u64) -> ArrayVec<u8, 256>
    ensures text { result.items ≡ take 256 (words.subject.now ++ at.now ++ hex_text number ++ codes ": " ++ words.rule.now) }
    ensures short { length (hex_text number) ≤ 16 }
{
    let width = hex_width(number);
    let digits = hex_digits(width as usize, number);
    with_place(words, at, &digits[DIGITS - width as usize..])
}

/// The bytes of a fault in words, as [`FaultText`] displays it. No fault has more than 256.
pub fn fault_sentence(fault: &Fault) -> ArrayVec<u8, 256>
    ensures { result.items ≡ sentence fault.now }
{
    let words = words_of(fault.number);
    let (at, number) = place_words(fault.place);
    match number {
        PlaceNumber::Hex(number) => with_hex(words, at, number),
        PlaceNumber::Decimal(number) => {
            with_place(words, at, Buffer::new().format(number).as_bytes())
        }
    }
}
