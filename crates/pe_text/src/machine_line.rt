//! The line of a COFF header's Machine field.

ghost use Rattle.std.specs.Prelude.{◌≡◌};
ghost use Rattle.pe_text.specs.MachineLine.{dumped_name, machine_line};
ghost use Rattle.pe_text.specs.TextWriter.{IsReady, Adds};

use crate::device::Sink;
use crate::part::Part::{Hex4, Text};
use crate::part::write_parts;
use crate::text_writer::TextWriter;
use pe_head::{machine, machine_name};

/// The name of a machine in a dump: `other` for those that a dump does not name.
fn dumped_name(machine: u16) -> &'static str
    ensures { result.now ≡ dumped_name machine }
{
    match machine {
        machine::I386 | machine::AMD64 | machine::ARM64 | machine::ARM | machine::ARMNT => {
            machine_name(machine).unwrap_or("other")
        }
        _ => "other",
    }
}

/// Adds the line of the Machine field of an image or an object ("PE Format", Machine Types), with the machine's name.
#[tactic(auto, unfolding(crate::specs::MachineLine::machine_line))]
pub fn write_machine<W: Sink>(line: &mut TextWriter<W>, machine: u16)
    requires { IsReady W.failures line.old }
    ensures { Adds W.taken W.failures line.old line.new (machine_line machine) }
{
    write_parts(
        line,
        &[
            Text(b"Machine 0x"),
            Hex4(machine),
            Text(b" "),
            Text(dumped_name(machine).as_bytes()),
            Text(b"\n"),
        ],
    );
}
