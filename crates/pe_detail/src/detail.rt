//! `Detail`: the numbers that the rule of a fault compares.

use pe_head::FaultDetail;

/// The numbers of a file that the rule of a fault compares. Sizes count bytes, and `image_end` is SizeOfImage.
#[derive(Clone, Copy, Debug, PartialEq, Eq)]
pub enum Detail {
    /// Those of the file's size, its headers or a section header; and of bytes of an object that extend past the end of the file.
    Head(FaultDetail),
    /// The size and the RVA of bytes that extend past the end of the image.
    PastImage { size: u64, rva: u64, image_end: u64 },
    /// An RVA at or past the end of the image.
    Outside { rva: u64, image_end: u64 },
    /// The RVA of a string, and the end of the bytes among which no zero byte follows.
    Unended { rva: u64, end: u64 },
    /// The RVA and the length of the string of a forwarder.
    Forwarder { rva: u64, length: u64 },
    /// A count, and the greatest that is allowed.
    Limit { count: u64, limit: u64 },
    /// An index, and the number of items that it counts.
    Index { index: u64, count: u64 },
    /// Bits 31 and above of an import lookup entry.
    HighBits(u64),
    /// The time stamp of an import directory entry.
    TimeStamp(u64),
    /// BlockSize, and how many bytes of the base relocation directory are left at the block.
    BlockSize { size: u64, left: u64 },
    /// The type of a base relocation, and the RVA of its field.
    EntryType { entry_type: u64, field: u64 },
    /// The size and the RVA of the field of a base relocation.
    FieldBytes { size: u64, rva: u64 },
    /// SizeOfImage.
    ImageSize(u64),
    /// ImageBase.
    ImageBase(u64),
    /// The size that a string table states.
    TableSize(u64),
    /// The offset of a name in the string table, and the size of that table.
    NameOffset { offset: u64, size: u64 },
    /// The number of a symbol's auxiliary records, and how many records of the symbol table are left after the symbol.
    Auxiliary { count: u64, left: u64 },
}
