//! What an image's file says of itself.

ghost use Rattle.std.specs.Prelude.{◌≡◌, ◌^◌, ◌≤◌, map};
ghost use Rattle.pe_tables.specs.ImportView.{import_view};
ghost use Rattle.pe_imphash.specs.ImportText.{import_hash_of};
ghost use Rattle.pe_text.specs.TextWriter.{IsReady, Adds};
ghost use Rattle.pe_view.specs.View.{bytes_of, size_of};
ghost use Rattle.pe_json.specs.Listed.{more};
ghost use Rattle.pe_json.specs.TrustRows.{digest_if, digest_members, imphash_if, kind_name, overlay_in, trust_members};

use crate::certificates::{SignedFile, write_certificates, write_hex};
use crate::rich::write_rich;
use crate::string::{write_number, write_text_if};
use pe_head::Headers;
use pe_imphash::import_hash;
use pe_tables::Import;
use pe_text::{Sink, TextWriter};
use pe_trust::{OverlayKind, authenticode_sha256, check_sum, file_end, overlay_kind};
use pe_view::View;

/// Adds the digest that a signature is to have, if there are bytes that one signs.
fn write_digest<W: Sink>(text: &mut TextWriter<W>, digest: Option<[u8; 32]>)
    requires { IsReady W.failures text.old }
    ensures { Adds W.taken W.failures text.old text.new (more (digest_if digest)) }
{
    let Some(digest) = digest else {
        return;
    };
    write_hex(text, b",\"authenticode_sha256_hex\":\"", digest.as_slice());
}

/// Adds what CheckSum is to be, and the digest that a signature is to have, if digests are asked for.
fn write_digests<W: Sink>(text: &mut TextWriter<W>, of: SignedFile)
    requires ready { IsReady W.failures text.old }
    requires small { size_of of.file ≤ 2 ^ 32 }
    ensures { Adds W.taken W.failures text.old text.new (more (digest_members of.entry.digests (bytes_of of.entry.file) of.entry.headers.now)) }
{
    if !of.digests {
        return;
    }
    let sum = check_sum(of.file, of.headers);
    write_number(text, b",\"check_sum_computed\":", sum as u64);
    write_digest(text, authenticode_sha256(of.file, of.headers));
}

/// What an overlay begins with, in words.
fn kind_name(kind: OverlayKind) -> &'static str
    ensures { result.now ≡ kind_name kind }
{
    match kind {
        OverlayKind::Certificates => "certificate table",
        OverlayKind::SymbolTable => "symbol table",
        OverlayKind::Nsis => "NSIS installer data",
        OverlayKind::SevenZip => "7-Zip archive",
        OverlayKind::Zip => "ZIP archive",
        OverlayKind::Rar => "RAR archive",
        OverlayKind::Cabinet => "cabinet",
        OverlayKind::CompoundFile => "compound file",
        OverlayKind::Executable => "executable file",
        OverlayKind::Other => "other data",
    }
}

/// Adds what comes after the image's file of some bytes, which ends at an offset, if there is something: by what it begins with.
fn write_overlay<W: Sink>(text: &mut TextWriter<W>, kind: Option<OverlayKind>, end: u64, size: u64)
    requires { IsReady W.failures text.old }
    ensures { Adds W.taken W.failures text.old text.new (more (overlay_in kind end size)) }
{
    let Some(kind) = kind else {
        return;
    };
    write_number(text, b",\"overlay\":{\"offset\":", end);
    write_number(text, b",\"size\":", size.saturating_sub(end));
    write_text_if(text, b",\"begins_with\":", Some(kind_name(kind)));
    text.text(b"}");
}

/// Adds the hash of an image's imports, if it has any.
pub(crate) fn write_import_hash<W: Sink>(text: &mut TextWriter<W>, imports: &[Import])
    requires { IsReady W.failures text.old }
    ensures { Adds W.taken W.failures text.old text.new (more (imphash_if (import_hash_of (map import_view imports.now)))) }
{
    let Some(hash) = import_hash(imports) else {
        return;
    };
    write_hex(text, b",\"imphash\":\"", hash.as_slice());
}

/// Adds what an image's file says of itself: its check sum and its digest, its certificates, its overlay and its Rich header.
pub(crate) fn write_trust<W: Sink>(
    text: &mut TextWriter<W>,
    digests: bool,
    file: View,
    headers: &Headers,
)
    requires ready { IsReady W.failures text.old }
    requires small { size_of file ≤ 2 ^ 32 }
    ensures { Adds W.taken W.failures text.old text.new (more (trust_members digests (bytes_of file.entry) headers.now)) }
{
    let of = SignedFile {
        file,
        headers,
        digests,
    };
    write_digests(text, of);
    write_certificates(text, of);
    write_overlay(
        text,
        overlay_kind(file, headers),
        file_end(headers),
        file.len(),
    );
    write_rich(text, file, headers);
}
