//! What the definitions mean, as laws: each function has an empty body, and its contract is the law.

ghost use Rattle.std.specs.Prelude.{ℕ, Bool, List, Option, Result};
ghost use Rattle.pe_view.specs.declared.fault.Fault.{Fault};
ghost use Rattle.coff_archive.specs.Members.{Member};
ghost use Rattle.pe_text.specs.declared.outcome.Outcome.{Outcome};
ghost use Rattle.coff_archive_json.specs.ArchiveJson.{IsArchiveJson, read_line};
ghost use Rattle.coff_archive_json.specs.ArchiveLine.{archive_line};
ghost use Rattle.coff_archive_json.specs.JsonLines.{AreJsonLines, IsJsonLine};

/// What is written of an archive are lines, each the text of a JSON object (RFC 8259) and a line feed, whatever the archive's name and
/// bytes are and whether it, a member or what that holds is refused. Such a text is as `pe_json::laws::lines_are_json` says of the line
/// of a file: it is UTF-8, no byte of it is a control character, it has no character that terminals obey or that nobody sees, and its
/// numbers are decimal digits.
pub fn lines_are_json()
    ensures member { (archive names : List ℕ) (thin : Bool) (read : Result Member Fault) → IsJsonLine (read_line archive thin names read) }
    ensures archive { (archive file : List ℕ) (thin : Bool) (fault : Option Fault) → IsJsonLine (archive_line archive thin file fault) }
    ensures all { (archive file text : List ℕ) (outcome : Outcome) → IsArchiveJson archive file outcome text → AreJsonLines text }
{}
