//! The meaning of a fault: its words, its rule, and the files that have it.

use crate::messages::{STANDARD_OUTPUT, tell_failure};
use crate::statuses::{BAD_WORDS, DEVICE_FAILED, DONE};
use pe_text::{FaultWords, ToolError, fault_words};
use std::io;

/// A fault's number, what its words leave out, in sentences, and the files that have it.
type Explained = (u16, Option<&'static str>, &'static str);

/// All faults, by number.
static EXPLAINED: [Explained; 72] = [
    (
        1,
        Some("No RVA and no file offset reaches further."),
        "disk images, archives and streams that are not images at all",
    ),
    (
        2,
        None,
        "an empty file, or one that was cut off within its first bytes",
    ),
    (
        3,
        None,
        "any file that is not an image: an ELF file, an archive, a text file, or an object (use petool object or petool show)",
    ),
    (
        4,
        Some(
            "The offset is the number at 0x3c. The signature and the COFF file header take 24 bytes.",
        ),
        "an MS-DOS program, or an image that was cut off in its headers",
    ),
    (5, None, "an MS-DOS, NE, LE or LX program"),
    (
        6,
        Some("Magic is the first field after the COFF file header."),
        "a ROM image (0x107), an object with an MS-DOS stub, or a damaged header",
    ),
    (
        7,
        Some(
            "The fixed fields take 96 bytes in PE32 and 112 in PE32+, and each data directory 8. NumberOfRvaAndSizes counts the directories, of which there are at most 16.",
        ),
        "headers that were packed by hand so that the optional header looks shorter than it is",
    ),
    (
        8,
        Some("The optional header has SizeOfOptionalHeader bytes, after the COFF file header."),
        "an image that was cut off in its headers",
    ),
    (9, None, "a damaged header"),
    (
        10,
        Some(
            "The section table comes after the optional header and has 40 bytes for each section.",
        ),
        "an image that was cut off in its headers",
    ),
    (11, None, "a damaged header"),
    (
        12,
        Some("The headers have SizeOfHeaders bytes, and the image SizeOfImage."),
        "tiny images made by hand, and images that were cut off",
    ),
    (
        13,
        Some(
            "The raw data begins at PointerToRawData. It has SizeOfRawData bytes, or as many as the section has in memory if these are fewer.",
        ),
        "an image that was cut off after its headers, like a broken download",
    ),
    (
        14,
        Some(
            "The section has VirtualSize bytes in memory, or SizeOfRawData if that is 0; the image has SizeOfImage.",
        ),
        "a damaged section table, or a tool that added a section and did not raise SizeOfImage",
    ),
    (
        15,
        Some(
            "Sections must come in the order of their addresses, and the first after SizeOfHeaders bytes.",
        ),
        "sections that overlap or are out of order, through damage, by hand or because of a packer",
    ),
    (16, Some("The table has 40 bytes."), "a damaged directory"),
    (
        17,
        Some(
            "The tables are the address table, the name pointer table and the ordinal table. An empty one may have any RVA.",
        ),
        "a damaged export directory table",
    ),
    (
        18,
        Some("The tables with a count are the address table and the name pointer table."),
        "a damaged export directory table",
    ),
    (
        19,
        Some("The string and its zero byte must be inside one section or the headers."),
        "a damaged name pointer table, or a table that was encrypted by a packer",
    ),
    (20, None, "a damaged ordinal table"),
    (
        21,
        Some(
            "An address inside the export directory is a forwarder, for which fault 22 has the rule.",
        ),
        "a damaged address table",
    ),
    (
        22,
        Some("An address inside the export directory is a forwarder: it points to this string."),
        "a directory with a wrong size, so that an address inside it is taken for a forwarder",
    ),
    (
        24,
        Some("An entry has 20 bytes."),
        "a table without the empty entry that should end it, or a damaged directory",
    ),
    (
        25,
        Some("The string and its zero byte must be inside one section or the headers."),
        "a damaged import directory",
    ),
    (
        26,
        Some("An entry has 4 bytes in PE32 and 8 in PE32+."),
        "a lookup table without the zero that should end it",
    ),
    (
        27,
        Some(
            "Bits 0 to 30 of the entry are the RVA of a hint of two bytes, and the name comes after it. The name and its zero byte must be inside one section or the headers.",
        ),
        "an image that has no lookup table and whose import address table was bound or overwritten; a packer",
    ),
    (
        28,
        Some("This is a rule of PE32+ alone."),
        "a process image that was dumped to a file, whose entries are already addresses",
    ),
    (
        29,
        Some(
            "Each lookup entry has a slot of its own in the import address table, of 4 bytes in PE32 and 8 in PE32+.",
        ),
        "a damaged import directory",
    ),
    (30, None, "import directories made by hand"),
    (31, None, "files made to exhaust a reader"),
    (
        32,
        Some(
            "The time stamp says that the import address table is bound: it has addresses in place of lookup entries.",
        ),
        "images that old linkers bound; what they import can no longer be read",
    ),
    (
        33,
        Some("The size includes the 8 bytes of the block's own header."),
        "a damaged base relocation table, or a directory with a wrong size",
    ),
    (
        34,
        Some("The data directory says where the table begins and how many bytes it has."),
        "a damaged directory",
    ),
    (
        35,
        Some("Their numbers are 0, 1, 2, 3 and 10."),
        "images for ARM, RISC-V and other machines that have types of their own; a damaged table",
    ),
    (
        36,
        Some("The field has 2 bytes for HIGH and LOW, 4 for HIGHLOW and 8 for DIR64."),
        "a damaged base relocation table",
    ),
    (37, None, "images made by hand or by a faulty linker"),
    (38, None, "images made by hand or by a faulty linker"),
    (41, None, "a command line of map with too many files"),
    (
        42,
        Some("Names are compared without regard to the case of ASCII letters."),
        "a DLL that is named twice, or two DLLs with the same name from two folders",
    ),
    (
        43,
        Some("Magic says whether an image is PE32 or PE32+."),
        "32-bit and 64-bit DLLs in one set",
    ),
    (44, None, "a base chosen by hand"),
    (
        45,
        Some("The address space ends at 2^32 in PE32 and at 2^64 in PE32+."),
        "a base that is too high for the image's size",
    ),
    (
        46,
        Some("RELOCS_STRIPPED in Characteristics says that an image has no base relocations."),
        "programs that were linked without base relocations",
    ),
    (
        47,
        None,
        "bases that are too close together: petool show says how many bytes an image takes",
    ),
    (
        48,
        Some("The search for an import follows forwarders from module to module."),
        "a set that lacks a DLL: add its file, or use --known",
    ),
    (
        49,
        Some("The search for an import follows forwarders from module to module."),
        "a DLL of a different version from the one that the program was linked with",
    ),
    (
        50,
        Some("The fault's line ends with the number of forwarders in the cycle."),
        "DLLs made to hang a loader",
    ),
    (
        51,
        None,
        "images that relocate bytes of their headers or of zero fill",
    ),
    (
        52,
        None,
        "packed images, whose sections share bytes of the file",
    ),
    (
        53,
        Some(
            "FileAlignment is 0, a number does not fit its field, or the image would have fault 11, 12, 14 or 15.",
        ),
        "a caller of write_image",
    ),
    (
        54,
        Some("An empty window may be anywhere."),
        "a window of map that begins outside all images, or runs past the end of one",
    ),
    (55, None, "a caller of move_image"),
    (61, None, "an empty file"),
    (
        62,
        Some(
            "It begins with MZ, with !<arch>, or with Machine 0 and 0xffff sections, as import objects and big objects do. Where a big object is read, its version is under 2, or its class another.",
        ),
        "a library: use petool archive; an image: use petool dump or petool show; a big object: use petool object --big",
    ),
    (
        63,
        Some(
            "The section table comes after the optional header, or after the header of a big object, and has 40 bytes for each section.",
        ),
        "a file of another kind, or an object that was cut off",
    ),
    (
        64,
        Some("The raw data has SizeOfRawData bytes from PointerToRawData on."),
        "an object that was cut off",
    ),
    (
        65,
        Some(
            "With the flag LNK_NRELOC_OVFL and a count of 0xffff, a section's first relocation has the count.",
        ),
        "objects with more than 65,534 relocations in one section, which are not supported",
    ),
    (
        66,
        Some("A relocation has 10 bytes."),
        "an object that was cut off",
    ),
    (
        67,
        Some("A record has 18 bytes, and 20 in a big object."),
        "an object that was cut off",
    ),
    (
        68,
        Some("The string table comes after the symbols. It begins with its size, in 4 bytes."),
        "an object that was cut off in its last part",
    ),
    (
        69,
        Some("The offset counts from the table's beginning, where the 4 bytes of its size are."),
        "a damaged string table",
    ),
    (70, None, "a damaged symbol table"),
    (
        71,
        Some("ABSOLUTE is 0xffff, and DEBUG 0xfffe; in a big object 0xffffffff and 0xfffffffe."),
        "a damaged symbol table",
    ),
    (
        72,
        Some("Auxiliary symbol records count too."),
        "a damaged relocation, or an object whose symbols were stripped",
    ),
    (81, None, "a caller of write_object or write_big_object"),
    (
        82,
        Some("A section header has room for seven decimal digits of the offset."),
        "a caller of write_object or write_big_object",
    ),
    (83, None, "a caller of write_object or write_big_object"),
    (84, None, "a caller of write_object or write_big_object"),
    (
        85,
        Some(
            "Optional bytes, sections, symbols or relocations do not fit their fields, or the file would have fault 62. An object of more than 65,535 sections is written as a big object, which stores no optional header and no characteristics.",
        ),
        "a caller of write_object or write_big_object",
    ),
    (
        91,
        Some("The second linker member tells a symbol's member by an index of 16 bits."),
        "a caller of write_archive",
    ),
    (
        92,
        Some("It would be read back as another name."),
        "a caller of write_archive",
    ),
    (
        93,
        Some("The linker members tell where members are in 32 bits."),
        "a caller of write_archive",
    ),
];

/// All findings, by number.
static FINDINGS_EXPLAINED: [Explained; 73] = [
    (
        101,
        Some(
            "A run is the headers or the raw data of one section. The entries that are entirely in it are read.",
        ),
        "a damaged directory, or an image that was packed and whose directory was left as it was",
    ),
    (
        102,
        Some("An entry has 28 bytes."),
        "a damaged directory, or a linker that gave the size of something else",
    ),
    (
        103,
        Some("The data has SizeOfData bytes from PointerToRawData on."),
        "an image whose debug data was stripped from the end of its file",
    ),
    (
        104,
        Some("Data that is not part of the image has an AddressOfRawData of 0."),
        "a damaged directory",
    ),
    (
        105,
        Some("The path is that of the PDB file. It is read up to the end of the data."),
        "a tool that changed the path of the PDB file and not the size of the data",
    ),
    (
        111,
        Some(
            "A run is the headers or the raw data of one section. The functions that are entirely in it are read.",
        ),
        "an image that was packed and whose directory was left as it was",
    ),
    (
        112,
        Some("A function has 12 bytes in an image for AMD64, and 8 in one for ARM64 or ARMNT."),
        "a damaged directory",
    ),
    (113, None, "a damaged table"),
    (
        114,
        Some(
            "A function of ARM64 or ARMNT has no end in the table: it must begin inside the image.",
        ),
        "a damaged table",
    ),
    (
        115,
        Some("For AMD64 an odd RVA is that of another function in the table, plus 1."),
        "a damaged table",
    ),
    (
        116,
        Some("The functions must ascend, since a binary search finds that of an address."),
        "an image that was linked by a tool that does not sort the table",
    ),
    (
        117,
        Some(
            "The first byte has the version in its bits 0 to 2 and the flags in its bits 3 to 7. Of another version neither codes nor chain are read.",
        ),
        "an image that was packed, or one of a later version of the format",
    ),
    (
        118,
        Some(
            "A slot has two bytes, and an operation takes one, two or three slots. The codes that come after it are not read.",
        ),
        "a damaged table",
    ),
    (
        119,
        Some(
            "It is not known how many slots such an operation takes, so the codes that come after it are not read.",
        ),
        "a damaged table, or an image of a later version of the format",
    ),
    (
        120,
        Some("A chain that comes back to unwind information of its own has no end."),
        "a damaged table, or files made to exhaust a reader",
    ),
    (
        131,
        Some(
            "A run is the headers or the raw data of one section. The fields that are entirely in it are read.",
        ),
        "an image that was packed, or a damaged directory",
    ),
    (
        132,
        Some("The template is the data from StartAddressOfRawData to EndAddressOfRawData."),
        "a damaged directory",
    ),
    (
        133,
        Some(
            "The fields are addresses of the image at its ImageBase. The template may end where the image does.",
        ),
        "a dump of a process at another base, or an image that was rebased without its directory",
    ),
    (
        134,
        Some("The field is an address of the image at its ImageBase, or 0."),
        "a dump of a process at another base, or an image that was rebased without its directory",
    ),
    (
        135,
        Some("A run is the headers or the raw data of one section."),
        "a damaged table, or files made to exhaust a reader",
    ),
    (
        136,
        Some("A callback is an address of the image at its ImageBase."),
        "a dump of a process at another base, or an image that sets its callbacks while it runs",
    ),
    (
        141,
        Some("The first field, Size, says how many bytes the load configuration has."),
        "a damaged directory",
    ),
    (
        142,
        Some(
            "A run is the headers or the raw data of one section. The fields that are entirely in it are read.",
        ),
        "a damaged load configuration",
    ),
    (
        143,
        Some("The field has 4 bytes."),
        "a load configuration that was left empty",
    ),
    (
        144,
        Some("A run is the headers or the raw data of one section. An entry has 4 bytes."),
        "an image that was packed, or a dump of a process at another base",
    ),
    (
        145,
        Some(
            "A run is the headers or the raw data of one section. An entry has 4 bytes, and as many more as the top four bits of GuardFlags say.",
        ),
        "an image that was packed, or a dump of a process at another base",
    ),
    (
        146,
        Some(
            "A run is the headers or the raw data of one section. An entry has 4 bytes, and as many more as the top four bits of GuardFlags say.",
        ),
        "an image that was packed, or a dump of a process at another base",
    ),
    (
        147,
        Some(
            "A run is the headers or the raw data of one section. An entry has 4 bytes, and as many more as the top four bits of GuardFlags say.",
        ),
        "an image that was packed, or a dump of a process at another base",
    ),
    (
        151,
        Some("A record has 8 bytes. A run is the headers or the raw data of one section."),
        "a damaged directory, or a tool that wrote over the table, which is often in the headers",
    ),
    (
        152,
        Some("The name is at OffsetModuleName from the beginning of the table."),
        "a damaged table",
    ),
    (
        161,
        Some(
            "A descriptor whose Name or Delay Import Address Table is 0 ends the table. A run is the headers or the raw data of one section. The directory's Size is not used.",
        ),
        "a damaged directory, or an image that was cut off in it",
    ),
    (
        162,
        Some(
            "Bit 0 of Attributes says that the fields are RVAs. Otherwise they are addresses, which are to be in the image when it is at ImageBase.",
        ),
        "a damaged table",
    ),
    (
        163,
        Some(
            "An entry has 4 bytes in PE32 and 8 in PE32+, and one of 0 ends the table. A descriptor whose name table is 0, or an address outside the image, has none: then the place is the end of the image.",
        ),
        "a damaged table",
    ),
    (
        164,
        Some(
            "Of each name table the first entry that has one of findings 164 to 167 is told. A descriptor with a finding has no imports in the list of all.",
        ),
        "a damaged table",
    ),
    (
        165,
        Some("An ordinal has 16 bits, and the RVA of a name 31."),
        "a damaged table, or a PE32 table in a PE32+ image",
    ),
    (
        166,
        Some(
            "Each entry has a slot of its own in the delay import address table, of 4 bytes in PE32 and 8 in PE32+.",
        ),
        "a damaged table",
    ),
    (
        167,
        Some(
            "Many descriptors may have one name table, so that a small file could name very many imports.",
        ),
        "only files that were made for it",
    ),
    (
        181,
        Some(
            "A directory begins with 16 bytes, which hold the number of its entries. No resource is read.",
        ),
        "an image that was packed, or a damaged directory",
    ),
    (
        182,
        Some(
            "All directories are in the run of the root: in the headers or in the raw data of one section. The entries that are entirely in it are read.",
        ),
        "a damaged resource tree, or an image that was cut off in it",
    ),
    (
        183,
        Some(
            "A text is in the run of the root: two bytes say how many UTF-16 units follow. What the entry leads to is read.",
        ),
        "a damaged resource tree",
    ),
    (
        184,
        Some("A data entry has 16 bytes, in the run of the root. It is not read."),
        "a damaged resource tree",
    ),
    (
        185,
        Some(
            "It is not read. So a tree that leads back to itself ends, and no directory is read twice.",
        ),
        "files made to exhaust a reader, or to hide resources from it",
    ),
    (
        186,
        Some(
            "The levels are the type, the name and the language. It is read as a resource that lacks the others.",
        ),
        "a resource tree that was written by hand",
    ),
    (
        187,
        Some("The levels are the type, the name and the language. It is not read."),
        "files made to hide resources, or a damaged resource tree",
    ),
    (
        188,
        Some("The data entry has the RVA of its data and how many bytes it has."),
        "an image of which resources were taken out, or a damaged resource tree",
    ),
    (
        189,
        Some(
            "A loader that searches the entries by halves misses some of them. Texts are compared by their UTF-16 units.",
        ),
        "an image whose resources were changed by a tool that does not sort them",
    ),
    (
        211,
        Some("Without that key neither its fixed part nor its strings are read."),
        "a damaged resource, or data of another kind with the type of version information",
    ),
    (
        212,
        Some(
            "It is not read, nor what comes after it. Of the first block what the data has is read.",
        ),
        "a resource that was cut off, or whose texts were changed by a tool that does not count their lengths",
    ),
    (
        213,
        Some("The key is read up to the end of the block, which then has no value."),
        "a damaged resource",
    ),
    (
        214,
        Some(
            "A block begins with three numbers of two bytes. It is not read, nor what comes after it in the block that it is in.",
        ),
        "files made to exhaust a reader, or a damaged resource",
    ),
    (
        221,
        Some(
            "The first field of directory 4 is a file offset. The certificates that are entirely in the file are read.",
        ),
        "an image whose signature was cut off, and whose directory was left as it was",
    ),
    (
        222,
        Some(
            "A certificate begins with its length, of these eight bytes too. No further one is read.",
        ),
        "an image whose signature was cut off, or whose table is padded to more than the next multiple of 8",
    ),
    (
        223,
        Some(
            "A signature does not sign its own table, so what is in the table and in the image could be changed.",
        ),
        "files made to smuggle bytes past a signature",
    ),
    (
        224,
        None,
        "a signature that was appended by a tool that does not pad the file",
    ),
    (
        225,
        Some(
            "A signature is to sign the headers, the raw data of each section, and what comes after them but for the certificate table. In such a file that would be bytes twice or not at all, or a part of the table, and programs differ in what they take.",
        ),
        "files made to load code that is not what was signed, or a file to which data was appended after it was signed",
    ),
    (
        241,
        Some(
            "Linkers of Microsoft write between the MS-DOS program and the signature which tools made the image.",
        ),
        "an image whose Rich header was overwritten in part",
    ),
    (
        251,
        Some(
            "Its first field, cb, says how many bytes it has. A run is the headers or the raw data of one section.",
        ),
        "a damaged directory, or an image whose managed code was encrypted by a packer",
    ),
    (
        252,
        Some(
            "The directories are the metadata, the resources, the strong name signature, the code manager table, the vtable fixups, the export address table jumps and the managed native header.",
        ),
        "an image whose managed code was encrypted by a packer",
    ),
    (
        261,
        Some(
            "A record has 18 bytes. The symbols of an image are those whose records the file holds.",
        ),
        "an image whose symbols were stripped, but not their number; or one that was cut off",
    ),
    (
        262,
        Some(
            "The string table is behind the symbol table. Its length has four bytes, and counts itself.",
        ),
        "an image that was cut off in its symbols",
    ),
    (
        263,
        Some("ABSOLUTE is 0xffff, and DEBUG 0xfffe. 0 says that the symbol is undefined."),
        "a damaged symbol table, or a pointer that leads to other bytes",
    ),
    (
        264,
        Some("Those that the table holds are told. The table ends with the file if 261 stands."),
        "a damaged symbol table, or an image that was cut off in it",
    ),
    (
        300,
        Some(
            "A line feed follows. A thin archive has the names of its members' files, and not their bytes.",
        ),
        "an object or an image: use petool object or petool dump",
    ),
    (
        301,
        Some(
            "Each member begins right after the one before it, or one byte later, at an even offset. Nothing after it is read.",
        ),
        "an archive that was cut off, or changed as a text",
    ),
    (302, Some("Nothing after it is read."), "a damaged archive"),
    (
        303,
        Some("Nothing after it is read."),
        "an archive that was cut off",
    ),
    (
        304,
        Some(
            "Long names are in a member of their own, //, or in the first bytes of the member itself.",
        ),
        "an archive from which the member // was taken out",
    ),
    (
        305,
        Some("The symbols before the first one without a name are read."),
        "a damaged archive",
    ),
    (
        306,
        Some(
            "The first linker member has an offset for each symbol, the second an index into offsets for each.",
        ),
        "an archive that was changed without its index: use ranlib",
    ),
    (
        307,
        Some("petool archive prints that fault below the member, with its place in the object."),
        "an archive of files of another kind, or with a damaged object",
    ),
    (331, None, "an import library that was cut off"),
    (332, None, "a damaged import library"),
    (
        333,
        Some(
            "0 by ordinal, 1 the symbol, 2 without a mark before it, 3 also without what follows the first @, 4 a name of its own.",
        ),
        "a damaged import library, or one of a linker with further name types",
    ),
];

/// The rows of all faults. Only this function names the table, since the prover proves the table again for each function that
/// does.
fn explained() -> &'static [Explained] {
    &EXPLAINED
}

/// The rows of all findings, in a table of their own: both in one were too many for the prover.
fn explained_findings() -> &'static [Explained] {
    &FINDINGS_EXPLAINED
}

/// Whether a number is that of a finding, a rule of a table beyond the profile, and not of a fault, by which files are refused.
fn is_finding(number: u16) -> bool {
    number > 100
}

/// What a number is of.
fn kind_of(number: u16) -> &'static str {
    if is_finding(number) {
        "finding"
    } else {
        "fault"
    }
}

/// The row of a fault or a finding, if there is one.
fn row_of(number: u16) -> Option<&'static Explained> {
    let rows = if is_finding(number) {
        explained_findings()
    } else {
        explained()
    };
    rows.iter().find(|row| row.0 == number)
}

/// Prints the meaning of a fault.
fn print_fault(rt: &impl Print, row: &Explained) -> io::Result<()> {
    let (number, more, met) = *row;
    let Some(FaultWords { subject, rule }) = fault_words(number) else {
        return Ok(());
    };
    let kind = kind_of(number);
    println!(rt; "{kind} {number}: {subject}: {rule}")?;
    if let Some(more) = more {
        println!(rt; "  {more}")?;
    }
    println!(rt; "  Typical case: {met}.")
}

/// Prints the words of a fault on one line.
fn print_words(rt: &impl Print, number: u16) -> io::Result<()> {
    let Some(FaultWords { subject, rule }) = fault_words(number) else {
        return Ok(());
    };
    println!(rt; "{number:>3}  {subject}: {rule}")
}

/// Prints the words of all faults, one per line.
fn print_list(rt: &impl Print) -> io::Result<()> {
    for (number, _, _) in explained() {
        print_words(rt, *number)?;
    }
    for (number, _, _) in explained_findings() {
        print_words(rt, *number)?;
    }
    Ok(())
}

/// Prints the meaning of a fault, or the list of all faults if there is no number, and returns the exit status.
pub(crate) fn run_explain(rt: &(impl Print + Eprint), number: Option<u16>) -> u8 {
    let printed = match number {
        None => print_list(rt),
        Some(number) => match row_of(number) {
            Some(row) => print_fault(rt, row),
            None => {
                let _ = eprintln!(rt; "petool: there is no fault {number}");
                return BAD_WORDS;
            }
        },
    };
    match printed {
        Ok(()) => DONE,
        Err(error) => {
            tell_failure(rt, STANDARD_OUTPUT, ToolError::Write, Some(error));
            DEVICE_FAILED
        }
    }
}
