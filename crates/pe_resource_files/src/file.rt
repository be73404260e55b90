//! `ResourceFile`: the file that a resource is written as.

ghost use Rattle.std.specs.Prelude.{◌≡◌, ◌^◌, ◌-◌, ◌<◌, ◌∷◌, [], IfOk, map, flat_map};
ghost use Rattle.pe_text.specs.TextWriter.{WritesAll};
ghost use Rattle.pe_resource_files.specs.File.{pieces_of, pieces_bytes};

use pe_text::{Failed, Sink, write_all};
use std::alloc::{AllocError, Allocator};

/// The file that a resource is written as: bytes that its resource leaves out, and then parts of the image's file.
#[derive(Drop)]
pub struct ResourceFile<'a, A: Allocator> {
    pub(crate) front: Vec<u8, A>,
    pub(crate) parts: Vec<&'a [u8], A>,
}

/// A list of one part.
pub(crate) fn parts_of_one<'a, A: Allocator>(
    alloc: A,
    part: &'a [u8],
) -> Result<Vec<&'a [u8], A>, AllocError>
    ensures { IfOk result (λ parts. map (λ bytes. bytes.now) parts.items ≡ part.now ∷ []) }
{
    let mut parts = Vec::new(alloc);
    parts.push(part)?;
    Ok(parts)
}

/// Writes parts one after the other.
fn write_parts<W: Sink>(writer: &mut W, parts: &[&[u8]]) -> Result<(), Failed>
    requires { W.failures writer.old < 2 ^ 64 - 1 }
    ensures { WritesAll (W.taken writer.old) (W.taken writer.new)
        (W.failures writer.old) (W.failures writer.new) result (flat_map (λ part. part.now) parts.now) }
{
    for part in parts {
        write_all(writer, part)?;
    }
    Ok(())
}

impl<'a, A: Allocator> ResourceFile<'a, A> {
    /// The file that has the bytes of a resource, and no others.
    pub(crate) fn of_data(alloc: A, bytes: &'a [u8]) -> Result<ResourceFile<'a, A>, AllocError>
    where
        A: Copy,
        ensures { IfOk result (λ file. pieces_of file ≡ ([], bytes.now ∷ [])) }
    {
        Ok(ResourceFile {
            front: Vec::new(alloc),
            parts: parts_of_one(alloc, bytes)?,
        })
    }

    /// Writes the file. On the error the beginning of it was written. Condition: the writer has counted fewer than 2^64 - 1 failures
    /// so far.
    pub fn write<W: Sink>(&self, writer: &mut W) -> Result<(), Failed>
        requires { W.failures writer.old < 2 ^ 64 - 1 }
        ensures { WritesAll (W.taken writer.old) (W.taken writer.new)
            (W.failures writer.old) (W.failures writer.new) result (pieces_bytes (pieces_of self.now)) }
    {
        write_all(writer, self.front.as_slice())?;
        write_parts(writer, self.parts.as_slice())
    }
}
