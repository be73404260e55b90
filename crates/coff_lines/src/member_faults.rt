//! The faults of an archive's members that all its texts tell alike.

ghost use Rattle.std.specs.Prelude.{◌≡◌, [], ◌∷◌, is_none};
ghost use Rattle.pe_view.specs.Faults.{first_standing};
ghost use Rattle.coff_archive.specs.ArchiveFile.{file_of, is_thin};
ghost use Rattle.coff_archive.specs.Front.{names_of};
ghost use Rattle.coff_archive.specs.Members.{at_offset};
ghost use Rattle.coff_archive.specs.MemberView.{member_view};
ghost use Rattle.coff_archive.specs.Names.{name_of};
ghost use Rattle.coff_lines.specs.ArchiveLines.{outcome_by};

use coff_archive::{Archive, Member};
use pe_text::Outcome;
use pe_view::{Fault, Place};

/// A finding of a member whose header stands at an offset.
pub fn member_fault(number: u16, offset: u64) -> Fault
    ensures { result ≡ record { number = number; image = 0; place = Place.File offset } }
{
    Fault {
        number,
        image: 0,
        place: Place::File(offset),
    }
}

/// Finding 304 of a member, if it stands: its name field leads to no text.
pub fn name_fault(archive: &Archive, member: Member) -> Option<Fault>
    ensures { result ≡ first_standing (at_offset 304 member.entry.offset (is_none (name_of (names_of (is_thin archive.now) (file_of archive.now)) (member_view member.entry))) ∷ []) }
{
    if archive.has_name(member) {
        return None;
    }
    Some(member_fault(304, member.offset))
}

/// The outcome for the first fault of an archive, if there is one.
pub fn outcome_by(fault: Option<Fault>) -> Outcome
    ensures { result ≡ outcome_by fault }
{
    match fault {
        Some(fault) => Outcome::Refused(fault),
        None => Outcome::Done,
    }
}
