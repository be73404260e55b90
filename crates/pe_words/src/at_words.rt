//! The words of `petool at` and `petool explain`.

ghost use Rattle.std.specs.Prelude.{◌≡◌, ℕ, Some, codes, IfOk, IfErr};
ghost use Rattle.clap.specs.Matches.{found_of, one_text};
ghost use Rattle.pe_words.specs.AtPlaces.{cut_number, place_at, IsSectionAndOffset};

use crate::builders::{argument, flag, new_command, required_argument, with_argument};
use crate::job::AtPlace;
use crate::word_values::{BadValue, NoJob, address_of};
use clap::{Arg, ArgAction, ArgMatches, Command};
use pe_view::Place;
use std::alloc::{AllocError, Global};

/// The purpose of `at`, for help.
const AT_ABOUT: &str =
    "Prints what is at an RVA of an image: its address and file offset, its section, and the export, symbol, slot, field, row of a table or header there; or what is at an offset in a section of an object";

/// The help on the addresses.
const PLACES: &str =
    "Where, in hexadecimal: an RVA, unless an option says otherwise; or SECTION+OFFSET, with the section's number or its name";

/// The help on `--address`.
const ADDRESS: &str = "Each ADDRESS is a virtual address, with the image at its ImageBase";

/// The help on `--map`.
const MAP: &str =
    "Maps images, given as HEX=FILE like those of map, and prints what is at each ADDRESS of their address space";

/// The help on `--file`.
const OFFSET: &str = "Each ADDRESS is a file offset";

/// The purpose of `explain`, for help.
const EXPLAIN_ABOUT: &str = "Explains a fault by its number, or lists all faults";

/// The subcommand `at`.
pub(crate) fn at_command<'a>(alloc: Global) -> Result<Command<'a>, AllocError> {
    let offset = flag(alloc, "file", OFFSET).conflicts_with("address")?;
    let map = flag(alloc, "map", MAP)
        .conflicts_with("address")?
        .conflicts_with("file")?;
    let command = Ok(new_command(alloc, "at", AT_ABOUT));
    let command = with_argument(command, flag(alloc, "address", ADDRESS));
    let command = with_argument(command, offset);
    let command = with_argument(command, map);
    let file = required_argument(
        alloc,
        "FILE",
        "An image or an object, or - for standard input",
    );
    let command = with_argument(command, file);
    with_argument(command, address_arguments(alloc))
}

/// The argument for the addresses.
fn address_arguments<'a>(alloc: Global) -> Arg<'a> {
    required_argument(alloc, "ADDRESS", PLACES)
        .action(ArgAction::Append)
        .num_args(1..)
}

/// What the number of an address counts.
#[derive(Clone, Copy)]
enum AddressKind {
    /// Bytes from the beginning of the image.
    Relative,
    /// Bytes of the address space, with the image at its ImageBase.
    Virtual,
    /// Bytes from the beginning of the file.
    InFile,
}

/// What the numbers of the addresses count.
fn address_kind(found: &ArgMatches<'_>) -> AddressKind
    ensures virtual_addresses { one_text (found_of found.now) (codes "address") ≡ Some (codes "true") → result ≡ AddressKind.Virtual }
    ensures file_offsets { one_text (found_of found.now) (codes "address") ≡ Some (codes "false") → one_text (found_of found.now) (codes "file") ≡ Some (codes "true") → result ≡ AddressKind.InFile }
    ensures rvas { one_text (found_of found.now) (codes "address") ≡ Some (codes "false") → one_text (found_of found.now) (codes "file") ≡ Some (codes "false") → result ≡ AddressKind.Relative }
{
    if found.get_flag("address") {
        AddressKind::Virtual
    } else if found.get_flag("file") {
        AddressKind::InFile
    } else {
        AddressKind::Relative
    }
}

/// A bad address.
pub(crate) fn bad_address<'a>(value: &'a str, reason: &'static str) -> BadValue<'a>
    ensures value { result.value.now ≡ value.now }
    ensures argument { result.argument.now ≡ codes "<ADDRESS>" }
    ensures reason { result.reason.now ≡ reason.now }
{
    BadValue {
        value,
        argument: "<ADDRESS>",
        reason,
    }
}

/// A number that 32 bits may hold; a greater one becomes 2^32 - 1, which is outside every image and section.
fn cut_number(number: u64) -> u32
    ensures { result ≡ cut_number number }
{
    u32::try_from(number).unwrap_or(u32::MAX)
}

/// The place of a number. An RVA over 2^32 - 1 becomes this, which is outside every image.
fn place_at(kind: AddressKind, number: u64) -> Place
    ensures { result ≡ place_at kind number }
{
    match kind {
        AddressKind::Relative => Place::Rva(cut_number(number)),
        AddressKind::Virtual => Place::Address(number),
        AddressKind::InFile => Place::File(number),
    }
}

/// The place of an address that is a number.
fn place_of<'a>(kind: AddressKind, value: &'a str) -> Result<Place, BadValue<'a>>
    ensures place { IfOk result (λ place. (number : ℕ) × (place ≡ place_at kind number)) }
    ensures bad { IfErr result (λ bad. bad.value.now ≡ value.now) }
{
    match address_of(value) {
        Some(number) => Ok(place_at(kind, number)),
        None => Err(bad_address(value, "not an address of 1 to 16 hexadecimal digits")),
    }
}

/// The section and the offset in it of an address that has a `+`, unless an option says what addresses count.
fn section_of<'a>(kind: AddressKind, value: &'a str) -> Option<(&'a str, &'a str)>
    ensures { IsSectionAndOffset kind value.now result }
{
    match kind {
        AddressKind::Relative => value.rsplit_once('+'),
        AddressKind::Virtual | AddressKind::InFile => None,
    }
}

/// The place of an address.
fn at_place<'a>(alloc: Global, kind: AddressKind, value: &'a str) -> Result<AtPlace, NoJob<'a>> {
    let Some((section, digits)) = section_of(kind, value) else {
        return match place_of(kind, value) {
            Ok(place) => Ok(AtPlace::Counted(place)),
            Err(bad) => Err(NoJob::Bad(bad)),
        };
    };
    match address_of(digits) {
        Some(offset) => Ok(AtPlace::InSection {
            section: String::from_str(alloc, section)?,
            offset: cut_number(offset),
        }),
        None => Err(NoJob::Bad(bad_address(
            value,
            "the offset is not of 1 to 16 hexadecimal digits",
        ))),
    }
}

/// The places in the words of `at`, in their order.
pub(crate) fn places_of<'a>(
    alloc: Global,
    found: &ArgMatches<'a>,
) -> Result<Vec<AtPlace>, NoJob<'a>> {
    let kind = address_kind(found);
    let mut places = Vec::new(alloc);
    for value in found.get_strs("ADDRESS").unwrap_or(&[]) {
        places.push(at_place(alloc, kind, value)?)?;
    }
    Ok(places)
}

/// The subcommand `explain`.
pub(crate) fn explain_command<'a>(alloc: Global) -> Result<Command<'a>, AllocError> {
    with_argument(
        Ok(new_command(alloc, "explain", EXPLAIN_ABOUT)),
        argument(alloc, "N", "The fault's number"),
    )
}

/// The number in the words of `explain`, if there is one.
pub(crate) fn number_of<'a>(found: &ArgMatches<'a>) -> Result<Option<u16>, BadValue<'a>> {
    let Some(value) = found.get_str("N") else {
        return Ok(None);
    };
    match value.parse::<u16>() {
        Ok(number) => Ok(Some(number)),
        Err(_) => Err(BadValue {
            value,
            argument: "[N]",
            reason: "not the number of a fault",
        }),
    }
}
