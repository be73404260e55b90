//! The data of entries of the debug directory that are no CodeView records.

ghost use Rattle.std.specs.Prelude.{◌≡◌, ◌+◌, ◌≤◌, SomeIff, length, option_map};
ghost use Rattle.pe_records.specs.DebugData.{feature_counts_of, pdb_checksum_of, pdb_checksum_view, repro_hash_of};
ghost use Rattle.pe_records.specs.Records.{number};

use pe_view::View;

/// The data of an entry PDBCHECKSUM: a checksum of the PDB file.
#[derive(Clone, Copy, Debug)]
pub struct PdbChecksum<'a> {
    /// The algorithm's name, without the zero byte at its end.
    pub algorithm: &'a [u8],
    /// The checksum: the bytes after that zero byte.
    pub checksum: &'a [u8],
}

/// The data of an entry VC_FEATURE: how many object files were compiled how.
#[derive(Clone, Copy, Debug, PartialEq, Eq)]
pub struct FeatureCounts {
    /// By a compiler before Visual C++ 11.
    pub before_vc_11: u32,
    /// From C or C++.
    pub c_and_cpp: u32,
    /// With checks of stack buffers (/GS).
    pub gs: u32,
    /// With further security checks (/sdl).
    pub sdl: u32,
    /// With guarded indirect calls.
    pub guard: u32,
}

/// The first four bytes of an entry's data, as a number: the flags of an entry EX_DLLCHARACTERISTICS, the signature of an entry POGO.
pub fn first_number(bytes: &[u8]) -> Option<u32>
    ensures { SomeIff result (4 ≤ length bytes.now) (number 4 bytes.now 0) }
{
    View::new(bytes).u32_at(0)
}

/// The hash in the data of an entry REPRO: a length of four bytes, and as many bytes. `None` if there is no such length, or the data
/// has fewer bytes.
pub fn repro_hash<'a>(bytes: &'a [u8]) -> Option<&'a [u8]>
    ensures { option_map (λ hash. hash.now) result ≡ repro_hash_of bytes.entry.now }
{
    let view = View::new(bytes);
    let len = view.u32_at(0)?;
    view.slice(4, u64::from(len))
}

/// The name and the checksum in the data of an entry PDBCHECKSUM, or `None` if no zero byte ends the name.
pub fn pdb_checksum<'a>(bytes: &'a [u8]) -> Option<PdbChecksum<'a>>
    ensures { option_map pdb_checksum_view result ≡ pdb_checksum_of bytes.entry.now }
{
    pe_view::laws::texts_are_parts();
    let view = View::new(bytes);
    let algorithm = view.until_zero(0, view.len())?;
    let checksum = &bytes[algorithm.len() + 1..];
    Some(PdbChecksum {
        algorithm,
        checksum,
    })
}

/// The counts in the data of an entry VC_FEATURE, or `None` if the data has fewer than 20 bytes.
pub fn feature_counts(bytes: &[u8]) -> Option<FeatureCounts>
    ensures { result ≡ feature_counts_of bytes.now }
{
    let view = View::new(bytes);
    if view.len() < 20 {
        return None;
    }
    Some(FeatureCounts {
        before_vc_11: view.u32_at(0)?,
        c_and_cpp: view.u32_at(4)?,
        gs: view.u32_at(8)?,
        sdl: view.u32_at(12)?,
        guard: view.u32_at(16)?,
    })
}
