//! The members that say why a file is refused.

ghost use Rattle.std.specs.Prelude.{◌≡◌, ◌&&◌, ◌∷◌, [], ℕ, List, flat_map, map, option_map, true};
ghost use Rattle.std.specs.List.{list_all};
ghost use Rattle.pe_detail.specs.DetailWords.{part_view, detail_words};
ghost use Rattle.pe_text.specs.FaultWords.{words_in, rules};
ghost use Rattle.pe_text.specs.FileKind.{kind_name};
ghost use Rattle.pe_text.specs.TextWriter.{IsReady, Adds};
ghost use Rattle.pe_json.specs.Listed.{is_nil, more, items_text};
ghost use Rattle.pe_json.specs.Refused.{place_object, place_members, words_members, amount_items, value_items, values_members, fault_object, fault_members};
ghost use Rattle.pe_json.specs.JsonText.{number};

use crate::string::{write_number, write_quoted};
use pe_detail::{Amount, Detail, DetailPart, DetailText};
use pe_text::{FileKind, Sink, TextWriter, fault_words};
use pe_view::{Fault, Place};

/// The name of what a refused file is instead, if that is known.
pub(crate) fn kind_text(kind: Option<FileKind>) -> Option<&'static str>
    ensures { option_map (λ name. name.now) result ≡ option_map kind_name kind }
{
    match kind {
        Some(kind) => Some(kind.name()),
        None => None,
    }
}

/// Adds where a fault is.
fn write_place<W: Sink>(text: &mut TextWriter<W>, place: Place)
    requires { IsReady W.failures text.old }
    ensures { Adds W.taken W.failures text.old text.new (place_object place) }
{
    match place {
        Place::File(offset) => {
            text.text(b"{\"file\":");
            text.decimal(offset);
            text.text(b"}");
        }
        Place::Rva(rva) => {
            text.text(b"{\"rva\":");
            text.decimal(rva as u64);
            text.text(b"}");
        }
        Place::Address(address) => {
            text.text(b"{\"address\":\"0x");
            text.hex(16, address);
            text.text(b"\"");
            text.text(b"}");
        }
        Place::Item(item) => {
            text.text(b"{\"item\":");
            text.decimal(item as u64);
            text.text(b"}");
        }
    }
}

/// Adds the image of a fault, and its place.
fn write_places<W: Sink>(text: &mut TextWriter<W>, fault: &Fault)
    requires { IsReady W.failures text.old }
    ensures { Adds W.taken W.failures text.old text.new (more (place_members fault.now)) }
{
    write_number(text, b",\"image\":", fault.image as u64);
    text.text(b",\"place\":");
    write_place(text, fault.place);
}

/// Adds what is at a fault's place and what is wrong with it, if its number has words.
fn write_words<W: Sink>(text: &mut TextWriter<W>, number: u16)
    requires { IsReady W.failures text.old }
    ensures { Adds W.taken W.failures text.old text.new (more (words_members (words_in rules number))) }
{
    let Some(words) = fault_words(number) else {
        return;
    };
    text.text(b",\"subject\":");
    write_quoted(text, words.subject.as_bytes());
    text.text(b",\"rule\":");
    write_quoted(text, words.rule.as_bytes());
}

/// Adds a number under its name.
fn write_amount<W: Sink>(text: &mut TextWriter<W>, name: &str, amount: u64)
    requires { IsReady W.failures text.old }
    ensures { Adds W.taken W.failures text.old text.new (number name.now amount) }
{
    write_quoted(text, name.as_bytes());
    text.text(b":");
    text.decimal(amount);
}

/// Adds a number under its name, after a comma unless it is the first.
fn write_item<W: Sink>(text: &mut TextWriter<W>, first: bool, name: &str, amount: u64)
    requires { IsReady W.failures text.old }
    ensures { Adds W.taken W.failures text.old text.new (items_text first (number name.now amount ∷ [])) }
{
    if first {
        write_amount(text, name, amount);
    } else {
        text.text(b",");
        write_amount(text, name, amount);
    }
}

/// Adds a number that the rule of a fault compares, if there is one, and returns whether the next is still the first.
fn write_value<W: Sink>(text: &mut TextWriter<W>, first: bool, name: &str, amount: Amount) -> bool
    requires { IsReady W.failures text.old }
    ensures adds { Adds W.taken W.failures text.old text.new (items_text first (amount_items name.now amount)) }
    ensures first { result ≡ (first && is_nil (amount_items name.now amount)) }
{
    match amount {
        Amount::Count(number) => {
            write_item(text, first, name, number);
            false
        }
        Amount::Place(number) => {
            write_item(text, first, name, number);
            false
        }
        Amount::Nothing => first,
    }
}

/// Whether there is no number.
fn is_nothing(amount: Amount) -> bool
    ensures { (name : List ℕ) → result ≡ is_nil (amount_items name amount) }
{
    match amount {
        Amount::Count(_) => false,
        Amount::Place(_) => false,
        Amount::Nothing => true,
    }
}

/// Whether the parts have no number.
fn have_none(parts: &[DetailPart]) -> bool
    ensures { result ≡ list_all (λ part. is_nil (value_items (part_view part))) parts.now }
{
    parts.iter().all(|part| is_nothing(part.amount))
}

/// Adds the numbers that the rule of a fault compares, by their names.
fn write_amounts<W: Sink>(text: &mut TextWriter<W>, parts: &[DetailPart])
    requires { IsReady W.failures text.old }
    ensures { Adds W.taken W.failures text.old text.new (items_text true (flat_map value_items (map part_view parts.now))) }
{
    let mut first = true;
    for part in parts {
        first = write_value(text, first, part.name, part.amount);
    }
}

/// Adds the object of the numbers that the rule of a file's fault compares, if there are any.
fn write_values<W: Sink>(text: &mut TextWriter<W>, detail: Option<Detail>)
    requires { IsReady W.failures text.old }
    ensures { Adds W.taken W.failures text.old text.new (more (values_members detail)) }
{
    let Some(detail) = detail else {
        return;
    };
    let parts = DetailText(detail).parts();
    if have_none(&parts) {
        return;
    }
    text.text(b",\"values\":{");
    write_amounts(text, &parts);
    text.text(b"}");
}

/// Adds the object of a fault, with the numbers that its rule compares.
pub(crate) fn write_object<W: Sink>(text: &mut TextWriter<W>, fault: &Fault, detail: Option<Detail>)
    requires { IsReady W.failures text.old }
    ensures { Adds W.taken W.failures text.old text.new (fault_object fault.now detail) }
{
    write_number(text, b"{\"number\":", fault.number as u64);
    write_places(text, fault);
    write_words(text, fault.number);
    write_values(text, detail);
    text.text(b"}");
}

/// Adds the member of a refused file's fault after others, with the numbers that its rule compares.
pub fn write_fault<W: Sink>(text: &mut TextWriter<W>, fault: &Fault, detail: Option<Detail>)
    requires { IsReady W.failures text.old }
    ensures { Adds W.taken W.failures text.old text.new (more (fault_members fault.now detail)) }
{
    text.text(b",\"fault\":");
    write_object(text, fault, detail);
}
