//! The output of the engines for a file.

use crate::digest::Digest;
use coff_lines::dump_object;
use pe_json::json;
use pe_lines::{check, dump};
use pe_show::{ShowOptions, show};
use pe_text::{Counted, Outcome, ToolError, status};
use std::alloc::Global;

/// A page with all rows of tables. The benchmark names them itself, since it is also built over commits without the constant.
const WHOLE_PAGE: ShowOptions = ShowOptions {
    exports: true,
    imports: true,
    relocations: true,
    symbols: true,
    debug: true,
    functions: true,
    unwind: true,
    tls: true,
    load: true,
    resources: true,
    trust: true,
    is_coloured: false,
};

/// An engine.
#[derive(Clone, Copy)]
pub(crate) enum Engine {
    Check,
    Dump,
    Object,
    Page,
    Json,
}

/// Runs an engine over a file, and appends its output to `text`.
fn write_text(
    alloc: Global,
    engine: Engine,
    file: &[u8],
    text: &mut Vec<u8>,
) -> Result<Outcome, ToolError> {
    let mut reader = Counted::new(file);
    let mut writer = Counted::new(text);
    match engine {
        Engine::Check => check(alloc, &mut reader, &mut writer),
        Engine::Dump => dump(alloc, &mut reader, &mut writer),
        Engine::Object => dump_object(alloc, &mut reader, &mut writer),
        Engine::Page => show(alloc, b"made-up", &WHOLE_PAGE, &mut reader, &mut writer),
        Engine::Json => json(alloc, b"made-up", None, &mut reader, &mut writer),
    }
}

/// Whether two builds that are compared must have the same output: pages change with what people need.
fn is_fixed(engine: Engine) -> bool {
    !matches!(engine, Engine::Page)
}

/// Mixes in the exit status of an engine for a file, and the output unless it is a page.
pub(crate) fn read_text(
    alloc: Global,
    digest: &mut Digest,
    engine: Engine,
    file: &[u8],
) -> Option<()> {
    let mut text = Vec::with_capacity(alloc, 1 << 20).ok()?;
    let answer = write_text(alloc, engine, file, &mut text);
    digest.number(u64::from(status(&answer)));
    if is_fixed(engine) {
        digest.bytes(&text);
    }
    Some(())
}
