//! `DelayDescriptors`: an iterator over the descriptors of the delay-load directory table, which takes no memory.

ghost use Rattle.std.specs.Prelude.{◌≡◌, ◌+◌, ◌*◌, ◌≤◌, ◌<◌, ◌^◌};
ghost use Rattle.pe_view.specs.View.{size_of};

use crate::descriptor::{DelayDescriptor, descriptor_at};
use pe_head::directory_index;
use pe_layout::Layout;
use pe_view::View;

/// The descriptors of an image's delay-load directory table, before the one that ends it, as far as the file holds them in one run of
/// the headers or of a section's raw data. The directory's Size is not used.
#[derive(Clone, Copy, Debug, Drop)]
pub struct DelayDescriptors<'a> {
    pub(crate) table: View<'a>,
    pub(crate) start: u32,
    pub(crate) index: u32,
    ghost inside: { 0 < size_of table → start + size_of table ≤ 2 ^ 31 },
    ghost within: { 32 * index ≤ size_of table },
}

impl<'a> Iterator for DelayDescriptors<'a> {
    ghost use Rattle.std.specs.Iterator.{YieldsFirstBy, item_count};
    ghost use Rattle.pe_delay.specs.Left.{descriptors_left};

    type Item = DelayDescriptor;

    ghost next_gives = { YieldsFirstBy (λ d. d) descriptors_left };

    ghost remaining = { item_count descriptors_left };

    fn next(&mut self) -> Option<DelayDescriptor> {
        if 32 * u64::from(self.index) + 32 > self.table.len() {
            return None;
        }
        let descriptor = descriptor_at(self.table, self.start, self.index);
        if descriptor.is_null() {
            return None;
        }
        self.index += 1;
        Some(descriptor)
    }
}

impl<'a> DelayDescriptors<'a> {
    ghost use Rattle.pe_layout.specs.Layout.{image_of};
    ghost use Rattle.pe_records.specs.Records.{raw_bytes};
    ghost use Rattle.pe_delay.specs.Descriptors.{delay_descriptors, descriptors_from};
    ghost use Rattle.pe_delay.specs.Left.{descriptors_left};

    /// The descriptors of an image. Without the directory there are none.
    pub fn of(layout: &Layout<'a>) -> DelayDescriptors<'a>
        ensures { descriptors_left result ≡ delay_descriptors (image_of layout.now) }
    {
        match layout.directory(directory_index::DELAY_IMPORT) {
            Some(directory) => DelayDescriptors::at(layout, directory.rva),
            None => DelayDescriptors {
                table: View::new(&[]),
                start: 0,
                index: 0,
            },
        }
    }

    /// The descriptors of a table at an RVA.
    pub(crate) fn at(layout: &Layout<'a>, start: u32) -> DelayDescriptors<'a>
        ensures { descriptors_left result ≡ descriptors_from start (raw_bytes (image_of layout.now) start) 0 }
    {
        DelayDescriptors {
            table: View::new(layout.raw_bytes(start)),
            start,
            index: 0,
        }
    }
}
