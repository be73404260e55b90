//! `Job`: what a command line says to do; and `WordsError`, why there is no job.

use pe_text::ShowOptions;
use pe_view::Place;
use std::alloc::{AllocError, AllocFailed};

/// A file to map.
#[derive(Debug, Drop, PartialEq, Eq)]
pub struct MapFile {
    /// The base of the image.
    pub base: u64,
    /// The path of the file.
    pub path: String,
    /// The module's name: the one that the word gives, or else the path's part after its last `/`.
    pub name: String,
}

/// When pages have colours.
#[derive(Clone, Copy, Debug, PartialEq, Eq)]
pub enum Colours {
    /// On a terminal that shows them, unless the user wants none.
    Auto,
    /// Always.
    Always,
    /// Never.
    Never,
}

/// A place that `at` shows.
#[derive(Debug, Drop, PartialEq, Eq)]
pub enum AtPlace {
    /// An RVA, an address or a file offset.
    Counted(Place),
    /// An offset in a section, which is called by its number or its name.
    InSection { section: String, offset: u32 },
}

/// What a line of `json` tells of an image beyond its profile.
#[derive(Clone, Copy, Debug, PartialEq, Eq)]
pub struct JsonOptions {
    /// Each function of the exception table.
    pub functions: bool,
    /// Each symbol of the image.
    pub symbols: bool,
    /// CheckSum as it is to be, and digests.
    pub digests: bool,
}

/// What the words say to do.
#[derive(Debug, Drop, PartialEq, Eq)]
pub enum Job<P> {
    /// `check FILE`: check an image and write one line.
    Check {
        file: String,
    },
    /// `check FILE...`: check images and write one line for each.
    CheckEach {
        files: Vec<String>,
    },
    /// `show FILE...`: write a page on each image or object, with at most this many bytes. The options have no colours: `colours`
    /// says when pages have them.
    Show {
        options: ShowOptions,
        colours: Colours,
        most: Option<u64>,
        files: Vec<String>,
    },
    /// `json FILE...`: write the content of each image or object as a line of JSON, with at most this many bytes, and with what is
    /// beyond the profile of an image if that is asked for.
    Json {
        beyond: Option<JsonOptions>,
        most: Option<u64>,
        files: Vec<String>,
    },
    /// `sum FILE...`: compute the CheckSum of images and write one line for each.
    Sum {
        files: Vec<String>,
    },
    /// `at FILE ADDRESS...`: write what is at places of an image or an object.
    At {
        file: String,
        places: Vec<AtPlace>,
    },
    /// `at --map HEX=FILE... ADDRESS...`: map images at their bases, and write what is at addresses.
    AtMap {
        policy: P,
        files: Vec<MapFile>,
        addresses: Vec<u64>,
    },
    /// `resource FILE`: write a line for each resource of an image, with at most this many bytes; `resource FILE LEAF`: write one as a
    /// file, or as it stands in the image.
    Resource {
        most: Option<u64>,
        file: String,
        leaf: Option<String>,
        is_raw: bool,
    },
    /// `explain N`: write the meaning of a fault, or the list of all faults.
    Explain {
        number: Option<u16>,
    },
    /// `dump FILE`: write the headers and tables of an image.
    Dump {
        file: String,
    },
    /// `dump --most BYTES FILE`: write at most this many bytes of them.
    DumpMost {
        most: u64,
        file: String,
    },
    /// `object FILE`: write the content of an object.
    Object {
        /// Whether it may be a big object (`--big`).
        reads_big: bool,
        file: String,
    },
    /// `object --most BYTES FILE`: write at most this many bytes of it.
    ObjectMost {
        /// Whether it may be a big object (`--big`).
        reads_big: bool,
        most: u64,
        file: String,
    },
    /// `archive FILE`: write the members of an archive and what they hold, with at most this many bytes.
    Archive {
        most: Option<u64>,
        file: String,
    },
    /// `archive --extract NAME FILE`: write what a member of an archive holds: of those with this name the one of this index, from 0.
    ArchiveMember {
        file: String,
        name: String,
        index: u64,
    },
    /// `archive --create OUT FILE...`: write an archive of these files, if it has at most this many bytes.
    ArchiveCreate {
        most: u64,
        /// The path of the archive.
        target: String,
        files: Vec<String>,
    },
    /// `rebase HEX IN OUT`: write the file of an image for another base.
    Rebase {
        base: u64,
        /// Whether the new file has its CheckSum (`--check-sum`), in place of 0.
        check_sum: bool,
        /// The path of the image's file.
        source: String,
        /// The path of the new file.
        target: String,
    },
    /// `layout IN OUT`: write the laid-out image of a file, if it has at most this many bytes.
    Layout {
        most: u64,
        /// The path of the image's file.
        source: String,
        /// The path of the new file.
        target: String,
    },
    /// `map HEX=FILE...`: map images at their bases, and write the bases, the bindings of their slots, and the bytes of a window,
    /// given by the address of its first byte and its length.
    Map {
        policy: P,
        window: Option<(u64, u32)>,
        files: Vec<MapFile>,
    },
    /// `map --unbound HEX=FILE...`: write the same, and then the imports that are bound to nothing.
    MapUnbound {
        policy: P,
        window: Option<(u64, u32)>,
        files: Vec<MapFile>,
    },
    /// `map --delayed HEX=FILE...`: write the same as one of these, with delay-loaded imports bound too.
    MapDelayed {
        policy: P,
        window: Option<(u64, u32)>,
        is_unbound: bool,
        files: Vec<MapFile>,
    },
    /// `map --write DIR HEX=FILE...`: write one of these, and then each image as it stands in the space to a file of a folder, if the
    /// images have at most this many bytes together.
    MapWrite {
        policy: P,
        window: Option<(u64, u32)>,
        is_delayed: bool,
        is_unbound: bool,
        most: u64,
        /// The path of the folder.
        folder: String,
        files: Vec<MapFile>,
    },
}

/// Why there is no job, with the text for the program to print.
#[derive(Debug, Drop, PartialEq, Eq)]
pub enum WordsError {
    /// The words are not a valid command line: status 2, the text goes to standard error.
    Bad(String),
    /// The words request help or the version: status 0, the text goes to standard output.
    Help(String),
    /// Out of memory: status 4.
    Memory,
}

impl<T: Drop> From<AllocFailed<T>> for WordsError {
    fn from(_error: AllocFailed<T>) -> WordsError {
        WordsError::Memory
    }
}

impl From<AllocError> for WordsError {
    fn from(_error: AllocError) -> WordsError {
        WordsError::Memory
    }
}
