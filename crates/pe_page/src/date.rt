//! Time stamps as dates.

ghost use Rattle.pe_text.specs.TextWriter.{IsReady};
ghost use Rattle.pe_page.specs.Page.{AddsSome};

use jiff_core::civil::DateTime;
use pe_text::Part::{Decimal, Hex2, Text};
use pe_text::{Sink, TextWriter, write_parts};

/// The byte whose two hexadecimal digits are the decimal digits of a number below 100.
fn two_digits(number: u8) -> u8 {
    number % 100 / 10 * 16 + number % 10
}

/// Adds a time in seconds since the beginning of 1970 as date and time: `2022-10-15 09:27:34 UTC`.
pub(crate) fn write_date<W: Sink>(text: &mut TextWriter<W>, seconds: u32)
    requires { IsReady W.failures text.old }
    ensures { AddsSome W.taken W.failures text.old text.new }
{
    let DateTime { date, time } = DateTime::from_nanosecond_in_range(
        seconds as i128 * 1_000_000_000,
    );
    write_parts(
        text,
        &[
            Decimal(date.year.unsigned_abs() as u64),
            Text(b"-"),
            Hex2(two_digits(date.month)),
            Text(b"-"),
            Hex2(two_digits(date.day)),
            Text(b" "),
            Hex2(two_digits(time.hour)),
            Text(b":"),
            Hex2(two_digits(time.minute)),
            Text(b":"),
            Hex2(two_digits(time.second)),
            Text(b" UTC"),
        ],
    );
}
