//! The line of a fault, and of a cycle of forwarders.

ghost use Rattle.pe_text.specs.TextWriter.{IsReady, Adds};
ghost use Rattle.pe_text.specs.FaultLine.{place_text, fault_words, fault_line, cycle_line};

use crate::device::Sink;
use crate::text_writer::TextWriter;
use pe_view::{Fault, Place};

/// A place: `file 0x` and at least 8 digits, `rva 0x` and 8, `address 0x` and 16, or `item` and a decimal number.
#[tactic(auto, unfolding(crate::specs::FaultLine::place_text))]
fn write_place<W: Sink>(line: &mut TextWriter<W>, place: &Place)
    requires { IsReady W.failures line.old }
    ensures { Adds W.taken W.failures line.old line.new (place_text place.now) }
{
    match place {
        Place::File(offset) => {
            line.text(b"file 0x");
            line.hex_at_least(8, *offset);
        }
        Place::Rva(rva) => {
            line.text(b"rva 0x");
            line.hex(8, *rva as u64);
        }
        Place::Address(address) => {
            line.text(b"address 0x");
            line.hex(16, *address);
        }
        Place::Item(item) => {
            line.text(b"item ");
            line.decimal(*item as u64);
        }
    }
}

/// Adds `fault N image I PLACE`.
#[tactic(auto, unfolding(crate::specs::FaultLine::fault_words))]
fn write_fault<W: Sink>(line: &mut TextWriter<W>, fault: &Fault)
    requires { IsReady W.failures line.old }
    ensures { Adds W.taken W.failures line.old line.new (fault_words fault.now) }
{
    line.text(b"fault ");
    line.decimal(fault.number as u64);
    line.text(b" image ");
    line.decimal(fault.image as u64);
    line.text(b" ");
    write_place(line, &fault.place);
}

/// Adds the line `fault N image I PLACE`.
#[tactic(auto, unfolding(crate::specs::FaultLine::fault_line))]
pub fn write_fault_line<W: Sink>(line: &mut TextWriter<W>, fault: &Fault)
    requires { IsReady W.failures line.old }
    ensures { Adds W.taken W.failures line.old line.new (fault_line fault.now) }
{
    write_fault(line, fault);
    line.text(b"\n");
}

/// Adds the line `fault N image I PLACE cycle LENGTH`.
#[tactic(auto, unfolding(crate::specs::FaultLine::cycle_line))]
pub fn write_cycle_line<W: Sink>(line: &mut TextWriter<W>, fault: &Fault, length: u32)
    requires { IsReady W.failures line.old }
    ensures { Adds W.taken W.failures line.old line.new (cycle_line fault.now length) }
{
    write_fault(line, fault);
    line.text(b" cycle ");
    line.decimal(length as u64);
    line.text(b"\n");
}
