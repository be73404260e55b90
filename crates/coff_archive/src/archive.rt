//! `Archive`: an archive's file, whose members are read where they are asked.

ghost use Rattle.std.specs.Prelude.{◌≡◌, ◌^◌, ◌<◌, Some, option_map};
ghost use Rattle.pe_view.specs.View.{bytes_of, size_of};
ghost use Rattle.coff_archive.specs.Front.{first_linker, second_linker, names_of};
ghost use Rattle.coff_archive.specs.Members.{thinness};
ghost use Rattle.coff_archive.specs.MemberView.{member_view};
ghost use Rattle.coff_archive.specs.Names.{AreNames};

use crate::front::{SIGNATURE_LEN, behind, special_at, thinness};
use crate::header::{header_number, member_at};
use crate::linker::Linker;
use crate::member::Member;
use crate::members::Members;
use crate::names::{NamePlace, inside_name, long_name, names_end, place_of, short_name};
use crate::symbols::Symbols;
use crate::table::{is_cut_table, symbols_in};
use pe_view::View;

/// An archive's file ("PE Format", Archive (Library) File Format). No call takes memory.
#[derive(Clone, Copy, Drop)]
pub struct Archive<'a> {
    pub(crate) file: View<'a>,
    pub(crate) thin: bool,
    pub(crate) first: Option<Member<'a>>,
    pub(crate) second: Option<Member<'a>>,
    pub(crate) names: &'a [u8],
    pub(crate) names_end: u64,
    ghost small: { size_of file < 2 ^ 64 },
    ghost kind: { thinness (bytes_of file) ≡ Some thin },
    ghost first_is: { option_map member_view first ≡ first_linker thin (bytes_of file) },
    ghost second_is: { option_map member_view second ≡ second_linker thin (bytes_of file) },
    ghost names_are: { names.now ≡ names_of thin (bytes_of file) },
    ghost names_end_is: { AreNames names.now names_end },
}

impl<'a> Archive<'a> {
    ghost use Rattle.std.specs.Prelude.{IfSome, is_none, not};
    ghost use Rattle.std.specs.Result.{result_ok};
    ghost use Rattle.coff_archive.specs.ArchiveFile.{file_of, is_thin};
    ghost use Rattle.coff_archive.specs.Front.{linker_member};
    ghost use Rattle.coff_archive.specs.Members.{members, read_at, date_of, user_of, group_of, mode_of};
    ghost use Rattle.coff_archive.specs.MembersLeft.{members_left};
    ghost use Rattle.coff_archive.specs.Names.{name_of};
    ghost use Rattle.coff_archive.specs.Symbols.{symbols, any_cut};
    ghost use Rattle.coff_archive.specs.SymbolsLeft.{symbols_left};

    /// The archive that a file holds; `None` where it begins with neither signature.
    pub fn of(file: View<'a>) -> Option<Archive<'a>>
        ensures kind { option_map is_thin result ≡ thinness (bytes_of file.entry) }
        ensures file { IfSome result (λ archive. file_of archive ≡ bytes_of file.entry) }
    {
        let thin = thinness(file)?;
        let first = special_at(file, thin, SIGNATURE_LEN, b"/               ");
        let second_place = behind(file, SIGNATURE_LEN, first);
        let second = special_at(file, thin, second_place, b"/               ");
        let names_place = behind(file, second_place, second);
        let names = match special_at(file, thin, names_place, b"//              ") {
            Some(member) => member.bytes,
            None => &[],
        };
        Some(Archive {
            file,
            thin,
            first,
            second,
            names,
            names_end: names_end(names),
        })
    }

    /// Whether this is a thin archive, whose members' bytes stand in files of their own.
    pub fn is_thin(&self) -> bool
        ensures { result ≡ is_thin self.now }
    {
        self.thin
    }

    /// The members in file order, the archive's own among them.
    pub fn members(&self) -> Members<'a>
        ensures { members_left result ≡ members (is_thin self.now) (file_of self.now) }
    {
        Members {
            file: self.file,
            thin: self.thin,
            at: SIGNATURE_LEN,
        }
    }

    /// The member whose header stands at an offset of the file, as one that a symbol names; `None` where none stands there whole.
    pub fn member_at(&self, offset: u64) -> Option<Member<'a>>
        ensures { option_map member_view result ≡ result_ok (read_at (is_thin self.now) (file_of self.now) offset) }
    {
        match member_at(self.file, self.thin, offset) {
            Ok(member) => Some(member),
            Err(_) => None,
        }
    }

    /// One of the linker members, if the archive has it.
    pub(crate) fn linker_member(&self, linker: Linker) -> Option<Member<'a>>
        ensures { option_map member_view result ≡ linker_member linker (is_thin self.now) (file_of self.now) }
    {
        match linker {
            Linker::First => self.first,
            Linker::Second => self.second,
        }
    }

    /// The symbols of one of the linker members, if the archive has it.
    pub fn symbols(&self, linker: Linker) -> Option<Symbols<'a>>
        ensures { option_map symbols_left result ≡ option_map (λ m. symbols linker m.bytes) (linker_member linker (is_thin self.now) (file_of self.now)) }
    {
        let member = self.linker_member(linker)?;
        Some(symbols_in(View::new(member.bytes), linker))
    }

    /// Whether a linker member is cut: its fields pass its bytes, or it has fewer names than it counts; which is finding 305. It
    /// takes the time of the member.
    pub fn is_cut(&self, linker: Linker) -> bool
        ensures { result ≡ any_cut linker (linker_member linker (is_thin self.now) (file_of self.now)) }
    {
        match self.linker_member(linker) {
            Some(member) => is_cut_table(View::new(member.bytes), linker),
            None => false,
        }
    }

    /// Whether one of the members has a name: where it has none finding 304 stands. No text is searched for its end.
    pub fn has_name(&self, member: Member<'a>) -> bool
        ensures { result ≡ not (is_none (name_of (names_of (is_thin self.now) (file_of self.now)) (member_view member.entry))) }
    {
        match place_of(member.field) {
            NamePlace::Field => true,
            NamePlace::Long(offset) => offset < self.names_end,
            NamePlace::Inside(len) => len <= member.bytes.len() as u64,
        }
    }

    /// The name of one of the members; `None` where the name field leads to no text, which is finding 304.
    pub fn name(&self, member: Member<'a>) -> Option<&'a [u8]>
        ensures { option_map (λ name. name.now) result ≡ name_of (names_of (is_thin self.now) (file_of self.now)) (member_view member.entry) }
    {
        match place_of(member.field) {
            NamePlace::Field => Some(short_name(member.field)),
            NamePlace::Long(offset) => long_name(self.names, self.names_end, offset),
            NamePlace::Inside(len) => inside_name(member.bytes, len),
        }
    }

    /// When one of the members was written, in seconds since 1970; `None` where the field is no decimal number.
    pub fn date(&self, member: Member<'a>) -> Option<u64>
        ensures { result ≡ date_of (file_of self.now) member.entry.offset }
    {
        header_number(self.file, 10, member.offset, 16, 12)
    }

    /// The user who owns one of the members; `None` where the field is no decimal number.
    pub fn user(&self, member: Member<'a>) -> Option<u64>
        ensures { result ≡ user_of (file_of self.now) member.entry.offset }
    {
        header_number(self.file, 10, member.offset, 28, 6)
    }

    /// The group that owns one of the members; `None` where the field is no decimal number.
    pub fn group(&self, member: Member<'a>) -> Option<u64>
        ensures { result ≡ group_of (file_of self.now) member.entry.offset }
    {
        header_number(self.file, 10, member.offset, 34, 6)
    }

    /// How one of the members may be used, as Unix has it; `None` where the field is no octal number.
    pub fn mode(&self, member: Member<'a>) -> Option<u64>
        ensures { result ≡ mode_of (file_of self.now) member.entry.offset }
    {
        header_number(self.file, 8, member.offset, 40, 8)
    }
}
