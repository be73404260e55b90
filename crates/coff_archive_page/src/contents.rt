//! `Contents`: what a member of an archive is.

ghost use Rattle.std.specs.Prelude.{◌≡◌, [], ◌∷◌, true};
ghost use Rattle.pe_view.specs.Faults.{first_standing};
ghost use Rattle.coff_archive.specs.ArchiveFile.{is_thin};
ghost use Rattle.coff_archive.specs.Imports.{is_import, import_tests};
ghost use Rattle.coff_archive.specs.Members.{at_offset};
ghost use Rattle.coff_archive.specs.MemberView.{member_view};
ghost use Rattle.coff_lines.specs.ArchiveLines.{is_refused, contents_tests};

use coff_archive::{Archive, Import, Linker, Member, import_object, is_import};
use coff_lines::member_fault;
use coff_read::EitherObject;
use pe_view::Fault;

/// What a member of an archive is.
#[derive(Clone, Copy)]
pub(crate) enum Contents<'a> {
    /// The first linker member.
    FirstLinker,
    /// The second linker member.
    SecondLinker,
    /// The member of the long names.
    LongNames,
    /// Another member that the archive keeps for itself.
    Own,
    /// A file of its own, which a thin archive names.
    Elsewhere,
    /// An object for a machine.
    Object(u16),
    /// A file that has this fault as an object.
    File(Fault),
    /// An import object.
    Import(Import<'a>),
    /// An import object with this finding.
    RefusedImport(Fault),
}

impl Contents<'_> {
    /// The word for it.
    pub(crate) fn words(self) -> &'static [u8] {
        match self {
            Contents::FirstLinker => b"first linker member",
            Contents::SecondLinker => b"second linker member",
            Contents::LongNames => b"long names",
            Contents::Own => b"own",
            Contents::Elsewhere => b"in another file",
            Contents::Object(_) => b"object",
            Contents::File(_) => b"file",
            Contents::Import(_) | Contents::RefusedImport(_) => b"import object",
        }
    }

    /// The machine that it is for, if it is an object.
    pub(crate) fn machine(self) -> Option<u16> {
        match self {
            Contents::Object(machine) => Some(machine),
            Contents::Import(import) => Some(import.machine),
            _ => None,
        }
    }

    /// The finding of an import object.
    pub(crate) fn import_finding(self) -> Option<Fault> {
        match self {
            Contents::RefusedImport(fault) => Some(fault),
            _ => None,
        }
    }

    /// Why it is no object.
    pub(crate) fn fault(self) -> Option<Fault> {
        match self {
            Contents::File(fault) | Contents::RefusedImport(fault) => Some(fault),
            _ => None,
        }
    }
}

/// What a member is, and the first fault for which the archive is refused by it.
#[derive(Clone, Copy)]
pub(crate) struct CheckedContents<'a> {
    pub contents: Contents<'a>,
    pub fault: Option<Fault>,
}

/// The import object that bytes hold, or its first finding.
fn check_import<'a>(bytes: &'a [u8], offset: u64) -> CheckedContents<'a>
    requires { is_import bytes.now ≡ true }
    ensures { result.fault ≡ first_standing (import_tests offset bytes.entry.now) }
{
    match import_object(bytes, offset) {
        Ok(import) => CheckedContents {
            contents: Contents::Import(import),
            fault: None,
        },
        Err(fault) => CheckedContents {
            contents: Contents::RefusedImport(fault),
            fault: Some(fault),
        },
    }
}

/// The machine of the object that bytes hold; or its first fault, which is finding 307 of the member.
fn check_object<'a>(bytes: &'a [u8], offset: u64) -> CheckedContents<'a>
    ensures { result.fault ≡ first_standing (at_offset 307 offset (is_refused bytes.entry.now) ∷ []) }
{
    match EitherObject::new(bytes) {
        Ok(object) => CheckedContents {
            contents: Contents::Object(object.machine()),
            fault: None,
        },
        Err(fault) => CheckedContents {
            contents: Contents::File(fault),
            fault: Some(member_fault(307, offset)),
        },
    }
}

/// Which of the archive's own members the member of an index is. The linker members come first, and the long names behind them.
fn own_contents<'a>(archive: &Archive, index: usize, field: &[u8]) -> Contents<'a> {
    let has_first = archive.symbols(Linker::First).is_some();
    let has_second = archive.symbols(Linker::Second).is_some();
    let linkers = usize::from(has_first) + usize::from(has_second);
    match index {
        0 if has_first => Contents::FirstLinker,
        1 if has_second => Contents::SecondLinker,
        _ if index == linkers && field == b"//              ".as_slice() => Contents::LongNames,
        _ => Contents::Own,
    }
}

/// What the member of an index is. The archive's own members are not read, nor are those of a thin archive, whose bytes are in other
/// files.
#[tactic(auto, unfolding(coff_lines::specs::ArchiveLines::contents_tests))]
pub(crate) fn check_contents<'a>(
    archive: &Archive,
    index: usize,
    member: Member<'a>,
) -> CheckedContents<'a>
    ensures { result.fault ≡ first_standing (contents_tests (is_thin archive.now) (member_view member.entry)) }
{
    if member.is_special() {
        return CheckedContents {
            contents: own_contents(archive, index, member.field),
            fault: None,
        };
    }
    if archive.is_thin() {
        return CheckedContents {
            contents: Contents::Elsewhere,
            fault: None,
        };
    }
    let contents = member.contents();
    if is_import(contents) {
        return check_import(contents, member.offset);
    }
    check_object(contents, member.offset)
}
