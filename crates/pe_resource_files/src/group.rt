//! `Picture`: a picture of a group of icons or cursors, as the group's file has it.

ghost use Rattle.std.specs.Prelude.{◌≡◌, ◌+◌, ◌*◌, ◌^◌, ◌≤◌, ◌<◌, true, IfSome, SomeIff, option_map};
ghost use Rattle.pe_view.specs.Number.{num, byte_of};
ghost use Rattle.pe_view.specs.View.{bytes_of, size_of};
ghost use Rattle.pe_resource_files.specs.Group.{group_count, entry_number, is_bitmap, double_height, cursor_front, picture_of, pair_of};
ghost use Rattle.pe_resource_files.specs.Pictures.{picture_type};
ghost use Rattle.pe_resource_files.specs.PicturesFile.{file_type};

use pe_view::View;

/// How many bytes a group's header has.
const HEADER_LEN: u32 = 6;

/// How many bytes each entry of a group has.
const ENTRY_LEN: u32 = 14;

/// How many bytes the header of a bitmap says that it has.
const BITMAP_HEADER_LEN: u32 = 40;

/// What a group holds.
#[derive(Clone, Copy, Debug, PartialEq, Eq)]
pub(crate) enum GroupKind {
    Icons,
    Cursors,
}

impl GroupKind {
    /// The type of the pictures in the resource tree.
    pub(crate) fn picture_type(self) -> u32
        ensures { result ≡ picture_type self }
    {
        match self {
            GroupKind::Icons => 3,
            GroupKind::Cursors => 1,
        }
    }

    /// What the header of the file has as its second number.
    pub(crate) fn file_type(self) -> u16
        ensures { result ≡ file_type self }
    {
        match self {
            GroupKind::Icons => 1,
            GroupKind::Cursors => 2,
        }
    }
}

/// A picture of a group, as the group's file has it.
#[derive(Clone, Copy)]
pub(crate) struct Picture<'a> {
    /// The first 8 bytes of its entry, as a number.
    pub front: u64,
    pub bytes: &'a [u8],
}

/// How many pictures a group has, unless its data do not hold the entries of all.
pub(crate) fn group_count(group: View) -> Option<u16>
    ensures value { result ≡ group_count (bytes_of group.entry) }
    ensures held { IfSome result (λ count. 6 + 14 * count ≤ size_of group.entry) }
{
    if group.len() < u64::from(HEADER_LEN) {
        return None;
    }
    let count = group.u16_at(4)?;
    if group.len() < u64::from(HEADER_LEN + ENTRY_LEN * count as u32) {
        return None;
    }
    Some(count)
}

/// The number in the two bytes at an offset of an entry.
pub(crate) fn entry_word(group: View, index: u32, offset: u32) -> u16
    requires index { index < 2 ^ 16 }
    requires offset { offset ≤ 12 }
    requires held { 6 + 14 * (index + 1) ≤ size_of group }
    ensures { result ≡ entry_number 2 (bytes_of group.entry) index offset }
{
    let at = HEADER_LEN + ENTRY_LEN * index + offset;
    group.u16_at(u64::from(at)).unwrap()
}

/// The height that the bitmap behind the hot spot says, which is that of its picture and of its mask together, if a bitmap is there.
fn bitmap_height(bytes: View) -> Option<u32>
    ensures { SomeIff result (is_bitmap (bytes_of bytes.entry) ≡ true) (num (byte_of (bytes_of bytes.entry)) 12 4) }
{
    let height = bytes.u32_at(12)?;
    if bytes.u32_at(4)? == BITMAP_HEADER_LEN {
        Some(height)
    } else {
        None
    }
}

/// The height of a cursor, twice. Its group may say it once, so that of a bitmap comes first.
fn double_height(group: View, index: u32, bytes: View) -> u32
    requires index { index < 2 ^ 16 }
    requires held { 6 + 14 * (index + 1) ≤ size_of group }
    ensures { result ≡ double_height (bytes_of group.entry) index (bytes_of bytes.entry) }
{
    match bitmap_height(bytes) {
        Some(height) => height,
        None => u32::from(entry_word(group, index, 2)),
    }
}

/// The first 8 bytes of the entry of a cursor's file: its width, its height, and the hot spot that its data begin with.
fn cursor_front(group: View, index: u32, bytes: View) -> u64
    requires index { index < 2 ^ 16 }
    requires held { 6 + 14 * (index + 1) ≤ size_of group }
    requires hot_spot { 4 ≤ size_of bytes }
    ensures { result ≡ cursor_front (bytes_of group.entry) index (bytes_of bytes.entry) }
{
    let width = entry_word(group, index, 0) % 0x100;
    let height = double_height(group, index, bytes) / 2 % 0x100;
    let hot_spot = bytes.u32_at(0).unwrap();
    u64::from(width) + 0x100 * u64::from(height) + 0x1_0000_0000 * u64::from(hot_spot)
}

/// The first 8 bytes of an entry, as a number.
fn icon_front(group: View, index: u32) -> u64
    requires index { index < 2 ^ 16 }
    requires held { 6 + 14 * (index + 1) ≤ size_of group }
    ensures { result ≡ entry_number 8 (bytes_of group.entry) index 0 }
{
    let at = HEADER_LEN + ENTRY_LEN * index;
    group.u64_at(u64::from(at)).unwrap()
}

/// The picture of an entry, from the data of its resource; those of a cursor have at least 4 bytes.
pub(crate) fn picture_of<'a>(
    kind: GroupKind,
    group: View,
    index: u32,
    bytes: &'a [u8],
) -> Option<Picture<'a>>
    requires index { index < 2 ^ 16 }
    requires held { 6 + 14 * (index + 1) ≤ size_of group }
    ensures { option_map pair_of result ≡ picture_of kind (bytes_of group.entry) index bytes.now }
{
    match kind {
        GroupKind::Icons => Some(Picture {
            front: icon_front(group, index),
            bytes,
        }),
        GroupKind::Cursors => {
            if bytes.len() < 4 {
                return None;
            }
            Some(Picture {
                front: cursor_front(group, index, View::new(bytes)),
                bytes: &bytes[4..],
            })
        }
    }
}
