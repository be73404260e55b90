//! The engines over a caller's room: each leaves the room in its writer, and adds to what is there.

ghost use Rattle.std.specs.Prelude.{◌≡◌, ◌-◌, ◌^◌, ◌<◌, length, IsErrOf};
ghost use Rattle.coff_lines.specs.ArchiveLines.{IsArchiveText};
ghost use Rattle.coff_lines.specs.ObjectReport.{IsObjectText};
ghost use Rattle.pe_lines.specs.Reports.{IsCheckText, IsDumpText};
ghost use Rattle.pe_page.specs.Judged.{IsJudged};
ghost use Rattle.pe_set.specs.SetView.{entries_of};
ghost use Rattle.pe_text.specs.Engine.{IsRefusal, Puts};
ghost use Rattle.petool_page.specs.Pages.{IsJson, IsPage};
ghost use Rattle.petool_page.specs.Room.{bytes_taken, failed_writes, reference_of};
ghost use Rattle.petool_page.specs.Sets.{IsReport};

use crate::kind::is_archive;
use crate::writer::RoomWriter;
use coff_archive_json::archive_json_text;
use coff_archive_page::show_archive_text;
use coff_lines::{archive_text, object_text};
use page_heap::PageHeap;
use pe_at::{Spot, at_each_text};
use pe_json::{Beyond, print_line};
use pe_lines::{check_text, dump_text};
use pe_map_lines::{Policy, SetEntry, map_report, map_report_unbound};
use pe_reach::ViewFile;
use pe_show::{Page, show_page_text};
use pe_text::{Outcome, ToolError, write_refusal};
use pe_view::Fault;

/// What an engine answers.
type Answer = Result<Outcome, ToolError>;

/// Writes what `check` prints.
pub(crate) fn check_into(heap: &PageHeap, file: &[u8], writer: &mut RoomWriter) -> Answer
    requires { failed_writes writer.old < 2 ^ 64 - 1 }
    ensures same { reference_of writer.new ≡ reference_of writer.old }
    ensures puts { Puts (IsCheckText file.now) (bytes_taken writer.old) (bytes_taken writer.new)
        (failed_writes writer.old) (failed_writes writer.new) result }
    ensures memory { IsErrOf result ToolError.Memory → 0 < length file.now }
{
    check_text(heap, file, writer)
}

/// Writes what `dump` prints.
pub(crate) fn dump_into(heap: &PageHeap, file: &[u8], writer: &mut RoomWriter) -> Answer
    requires { failed_writes writer.old < 2 ^ 64 - 1 }
    ensures same { reference_of writer.new ≡ reference_of writer.old }
    ensures puts { Puts (IsDumpText file.now) (bytes_taken writer.old) (bytes_taken writer.new)
        (failed_writes writer.old) (failed_writes writer.new) result }
    ensures memory { IsErrOf result ToolError.Memory → 0 < length file.now }
{
    dump_text(heap, file, writer)
}

/// Writes what `object` prints.
pub(crate) fn object_into(heap: &PageHeap, file: &[u8], writer: &mut RoomWriter) -> Answer
    requires { failed_writes writer.old < 2 ^ 64 - 1 }
    ensures same { reference_of writer.new ≡ reference_of writer.old }
    ensures puts { Puts (IsObjectText file.now) (bytes_taken writer.old) (bytes_taken writer.new)
        (failed_writes writer.old) (failed_writes writer.new) result }
    ensures memory { IsErrOf result ToolError.Memory → 0 < length file.now }
{
    object_text(heap, file, writer)
}

/// Writes what `archive` prints.
pub(crate) fn archive_into(heap: &PageHeap, file: &[u8], writer: &mut RoomWriter) -> Answer
    requires { failed_writes writer.old < 2 ^ 64 - 1 }
    ensures same { reference_of writer.new ≡ reference_of writer.old }
    ensures puts { Puts (IsArchiveText file.now) (bytes_taken writer.old) (bytes_taken writer.new)
        (failed_writes writer.old) (failed_writes writer.new) result }
    ensures memory { IsErrOf result ToolError.Memory → 0 < length file.now }
{
    archive_text(heap, file, writer)
}

/// Writes the page of an archive or of another file.
pub(crate) fn page_into(
    heap: &PageHeap,
    page: &Page,
    file: &[u8],
    writer: &mut RoomWriter,
) -> Answer
    requires { failed_writes writer.old < 2 ^ 64 - 1 }
    ensures same { reference_of writer.new ≡ reference_of writer.old }
    ensures puts { Puts (IsPage file.now) (bytes_taken writer.old) (bytes_taken writer.new)
        (failed_writes writer.old) (failed_writes writer.new) result }
    ensures memory { IsErrOf result ToolError.Memory → 0 < length file.now }
{
    if is_archive(file) {
        show_archive_text(heap, page, file, writer)
    } else {
        show_page_text(heap, page, file, writer)
    }
}

/// Writes what is at these spots.
pub(crate) fn spots_into(
    heap: &PageHeap,
    spots: &[Spot],
    file: &[u8],
    writer: &mut RoomWriter,
) -> Answer
    requires { failed_writes writer.old < 2 ^ 64 - 1 }
    ensures same { reference_of writer.new ≡ reference_of writer.old }
    ensures puts { Puts (IsJudged file.now) (bytes_taken writer.old) (bytes_taken writer.new)
        (failed_writes writer.old) (failed_writes writer.new) result }
    ensures memory { IsErrOf result ToolError.Memory → 0 < length file.now }
{
    at_each_text(heap, spots, file, writer)
}

/// Writes the lines of JSON of an archive or of another file.
pub(crate) fn lines_into(
    heap: &PageHeap,
    name: &[u8],
    beyond: Option<Beyond>,
    file: &[u8],
    writer: &mut RoomWriter,
) -> Answer
    requires { failed_writes writer.old < 2 ^ 64 - 1 }
    ensures same { reference_of writer.new ≡ reference_of writer.old }
    ensures puts { Puts (IsJson beyond name.now file.now) (bytes_taken writer.old) (bytes_taken writer.new)
        (failed_writes writer.old) (failed_writes writer.new) result }
    ensures memory { IsErrOf result ToolError.Memory → 0 < length file.now }
{
    if is_archive(file) {
        archive_json_text(heap, name, file, writer)
    } else {
        print_line(heap, writer, name, beyond, ViewFile::whole(file))
    }
}

/// Writes the report of a set, with the imports that are bound to nothing if they are asked for.
pub(crate) fn report_into(
    heap: &PageHeap,
    set: &[SetEntry],
    policy: Policy,
    unbound: bool,
    window: Option<(u64, u32)>,
    writer: &mut RoomWriter,
) -> Answer
    requires { failed_writes writer.old < 2 ^ 64 - 1 }
    ensures same { reference_of writer.new ≡ reference_of writer.old }
    ensures puts { Puts (IsReport unbound policy (entries_of set.now) window) (bytes_taken writer.old) (bytes_taken writer.new)
        (failed_writes writer.old) (failed_writes writer.new) result }
    ensures memory { IsErrOf result ToolError.Memory → 0 < length set.now }
{
    if unbound {
        map_report_unbound(heap, set, policy, window, writer)
    } else {
        map_report(heap, set, policy, window, writer)
    }
}

/// Writes the line of a file that is refused by this fault.
pub(crate) fn refuse_into(writer: &mut RoomWriter, fault: Fault) -> Answer
    requires { failed_writes writer.old < 2 ^ 64 - 1 }
    ensures same { reference_of writer.new ≡ reference_of writer.old }
    ensures puts { Puts (IsRefusal fault) (bytes_taken writer.old) (bytes_taken writer.new)
        (failed_writes writer.old) (failed_writes writer.new) result }
    ensures memory { IsErrOf result ToolError.Memory → ⊥ }
{
    write_refusal(writer, fault)
}
