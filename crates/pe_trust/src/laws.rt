//! Laws about the definitions: each function has an empty body, and its contract is the law.

ghost use Rattle.std.specs.Prelude.{◌≡◌, ◌≤◌, ℕ, List, Some, length, false};
ghost use Rattle.std.specs.List.{All};
ghost use Rattle.pe_view.specs.Number.{byte_of, is_in};
ghost use Rattle.pe_head.specs.declared.headers.Headers.{Headers};
ghost use Rattle.pe_trust.specs.CheckSum.{check_sum_of};
ghost use Rattle.pe_trust.specs.Covered.{RawDataLieBetween, bytes_not_left_out, table_begin};
ghost use Rattle.pe_trust.specs.SignedBytes.{authenticode_bytes};

/// The field CheckSum does not count: files of one length that differ in its bytes alone have one checksum.
pub fn own_field_does_not_count()
    ensures { (file other : List ℕ) (field : ℕ) → length file ≡ length other
        → ((offset : ℕ) → is_in field 4 offset ≡ false → byte_of file offset ≡ byte_of other offset)
        → check_sum_of file field ≡ check_sum_of other field }
{}

/// What a signature signs, if that is not ambiguous, is all bytes of the file but the four of CheckSum, the eight of the entry of
/// directory 4 and those of the certificate table: each of the others once, in order.
pub fn all_others_are_signed()
    ensures { (file signed : List ℕ) (h : Headers) → authenticode_bytes file h ≡ Some signed → signed ≡ bytes_not_left_out file h }
{}

/// If what a signature signs is not ambiguous, the headers end before the certificate table, the raw data of each section lie between the
/// headers and that table, and it begins in the file.
pub fn raw_data_are_before_the_table()
    ensures headers { (file signed : List ℕ) (h : Headers) → authenticode_bytes file h ≡ Some signed → h.size_of_headers ≤ table_begin (length file) h }
    ensures raw_data { (file signed : List ℕ) (h : Headers) → authenticode_bytes file h ≡ Some signed
        → All (RawDataLieBetween h.size_of_headers (table_begin (length file) h)) h.sections.items }
    ensures table { (file signed : List ℕ) (h : Headers) → authenticode_bytes file h ≡ Some signed → table_begin (length file) h ≤ length file }
{}
