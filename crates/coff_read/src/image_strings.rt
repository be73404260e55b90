//! `ImageStrings`: the string table of an image.

ghost use Rattle.std.specs.Prelude.{◌≡◌, ℕ, is_none, nat_le};
ghost use Rattle.pe_view.specs.View.{bytes_of, size_of};
ghost use Rattle.pe_view.specs.Text.{text_between};

use crate::tables::{SYMBOL_LEN, texts_len};
use pe_head::Headers;
use pe_view::{TextEnds, View};
use std::alloc::Allocator;

/// The string table of an image.
#[derive(Clone, Copy)]
pub struct ImageStrings<'a> {
    table: View<'a>,
    /// The size of the table up to its last zero byte, that one counted: a string begins at each lower offset from 4 on.
    texts: u64,
    ghost ends: { (offset : ℕ) → is_none (text_between (bytes_of table) offset (size_of table)) ≡ nat_le texts offset },
}

impl<'a> ImageStrings<'a> {
    ghost use Rattle.std.specs.Prelude.{option_map};
    ghost use Rattle.pe_view.specs.TextEnds.{AreEndsOf};
    ghost use Rattle.coff_read.specs.ImageNames.{table_of, image_strings, text_in};

    /// The string table of an image, if it has one that is inside its file ("PE Format", COFF String Table).
    pub fn new(view: View<'a>, headers: &Headers) -> Option<ImageStrings<'a>>
        ensures { option_map table_of result ≡ image_strings (bytes_of view.entry) headers.now }
    {
        if headers.pointer_to_symbol_table == 0 {
            return None;
        }
        let records = SYMBOL_LEN * u64::from(headers.number_of_symbols);
        let start = u64::from(headers.pointer_to_symbol_table) + records;
        let size = view.u32_at(start)?;
        let table = View::new(view.slice(start, u64::from(size))?);
        let texts = texts_len(table, 0, table.len());
        Some(ImageStrings { table, texts })
    }

    /// The string at an offset, as [`ImageStrings::text_at`] returns it. Where strings of the table end is remembered.
    pub(crate) fn text_kept<A: Allocator + Copy>(
        &self,
        ends: &mut TextEnds<A>,
        offset: u32,
    ) -> Option<&'a [u8]>
        requires { AreEndsOf (table_of self.now) ends.old }
        ensures text { option_map (λ text. text.now) result ≡ text_in (table_of self.now) offset }
        ensures known { AreEndsOf (table_of self.now) ends.new }
    {
        let offset = u64::from(offset);
        if offset < 4 {
            return None;
        }
        ends.until_zero(self.table, offset, self.table.len())
    }

    /// The string at an offset.
    pub(crate) fn text_at(&self, offset: u32) -> Option<&'a [u8]>
        ensures { option_map (λ text. text.now) result ≡ text_in (table_of self.now) offset }
    {
        let offset = u64::from(offset);
        if offset < 4 || self.texts <= offset {
            return None;
        }
        self.table.until_zero(offset, self.table.len())
    }
}
