//! `fixed_info`: the fixed part of version information.

ghost use Rattle.std.specs.Prelude.{◌≡◌};
ghost use Rattle.pe_version.specs.FixedInfo.{has_key, has_fixed_info, fixed_info_of, version_of};
ghost use Rattle.pe_view.specs.View.{bytes_of};

use pe_view::View;

/// The key of the first block, `VS_VERSION_INFO`, in UTF-16 with the zero that ends it.
const KEY: &[u8] = b"V\0S\0_\0V\0E\0R\0S\0I\0O\0N\0_\0I\0N\0F\0O\0\0\0";

/// What the fixed part begins with.
const SIGNATURE: u32 = 0xfeef_04bd;

/// How many bytes the fixed part has.
const LEN: u16 = 52;

/// The fixed part of version information (VS_FIXEDFILEINFO), in the order of its fields.
#[derive(Clone, Copy, Debug, PartialEq, Eq)]
pub struct FixedInfo {
    /// The version of this structure.
    pub structure_version: u32,
    /// The first two of the four numbers of the file's version, the first in the upper half.
    pub file_version_high: u32,
    /// The last two.
    pub file_version_low: u32,
    /// The first two of the four numbers of the product's version, the first in the upper half.
    pub product_version_high: u32,
    /// The last two.
    pub product_version_low: u32,
    /// Which bits of the flags count.
    pub flags_mask: u32,
    /// What the file is: built for debugging, a preliminary version, patched, a private or a special build.
    pub flags: u32,
    /// The operating system that the file is for.
    pub system: u32,
    /// What the file is: a program, a library, a driver, a font and the like.
    pub kind: u32,
    /// Which kind of driver or font.
    pub subkind: u32,
    /// The upper half of the file's date.
    pub date_high: u32,
    /// The lower half.
    pub date_low: u32,
}

/// The four numbers of a version.
fn version_of(high: u32, low: u32) -> [u16; 4]
    ensures { result ≡ version_of high low }
{
    [
        (high >> 16) as u16,
        (high % 0x1_0000) as u16,
        (low >> 16) as u16,
        (low % 0x1_0000) as u16,
    ]
}

impl FixedInfo {
    /// The four numbers of the file's version.
    pub fn file_version(&self) -> [u16; 4]
        ensures { result ≡ version_of self.now.file_version_high self.now.file_version_low }
    {
        version_of(self.file_version_high, self.file_version_low)
    }

    /// The four numbers of the product's version.
    pub fn product_version(&self) -> [u16; 4]
        ensures { result ≡ version_of self.now.product_version_high self.now.product_version_low }
    {
        version_of(self.product_version_high, self.product_version_low)
    }
}

/// Whether version information has the key that it must have.
pub(crate) fn has_key(view: View) -> bool
    ensures { result ≡ has_key (bytes_of view.entry) }
{
    if view.len() < 38 {
        return false;
    }
    view.slice(6, 32).unwrap() == KEY
}

/// The fixed part in the bytes of version information. `None` if their key is another, the value of the first block does not have 52
/// bytes, or these do not begin with their signature (finding 211).
pub fn fixed_info(bytes: &[u8]) -> Option<FixedInfo>
    ensures { result ≡ fixed_info_of bytes.now }
{
    let view = View::new(bytes);
    if view.len() < 92 {
        return None;
    }
    if !has_key(view) {
        return None;
    }
    if view.u16_at(2)? != LEN || view.u32_at(40)? != SIGNATURE {
        return None;
    }
    Some(FixedInfo {
        structure_version: view.u32_at(44)?,
        file_version_high: view.u32_at(48)?,
        file_version_low: view.u32_at(52)?,
        product_version_high: view.u32_at(56)?,
        product_version_low: view.u32_at(60)?,
        flags_mask: view.u32_at(64)?,
        flags: view.u32_at(68)?,
        system: view.u32_at(72)?,
        kind: view.u32_at(76)?,
        subkind: view.u32_at(80)?,
        date_high: view.u32_at(84)?,
        date_low: view.u32_at(88)?,
    })
}
