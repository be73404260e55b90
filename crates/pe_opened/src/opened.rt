//! `OpenedImage`: a whole image, read once, and the look-ups in its tables.

ghost use Rattle.std.specs.Prelude.{◌≡◌, ◌+◌, ◌≤◌, ◌↔◌, None, IsErrOf, IsTrue, length, map, option_map};
ghost use Rattle.std.specs.Bool.{OnTrue, OnFalse};
ghost use Rattle.pe_view.specs.Faults.{AnswersOrWants, first_standing};
ghost use Rattle.pe_view.specs.declared.refusal.Refusal.{Refusal};
ghost use Rattle.pe_head.specs.Head.{head_of};
ghost use Rattle.pe_layout.specs.Image.{bytes_at, image_of_file};
ghost use Rattle.pe_layout.specs.Locating.{located};
ghost use Rattle.pe_layout.specs.SectionFaults.{layout_tests};
ghost use Rattle.pe_tables.specs.Exports.{exports_of, target_at};
ghost use Rattle.pe_tables.specs.ExportsView.{ordinal_view};
ghost use Rattle.pe_tables.specs.NameIndex.{export_view};
ghost use Rattle.pe_tables.specs.Fixups.{fixups_of};
ghost use Rattle.pe_tables.specs.Imports.{imports_of};
ghost use Rattle.pe_tables.specs.ImportView.{import_view};
ghost use Rattle.pe_tables.specs.Key.{Ordinal, Name, target_view};
ghost use Rattle.pe_image.specs.ImageTests.{image_tests};
ghost use Rattle.pe_write.specs.Rebase.{rebased};
ghost use Rattle.pe_write.specs.RebaseFaults.{rebase_tests};

use pe_image::{Image, read_image};
use pe_layout::Located;
use pe_tables::{Fixup, Import, Target};
use pe_view::Refusal;
use pe_write::rebase_image;
use std::alloc::Global;
use std::marker::Model;

/// An image without a fault, and the contents of its tables. It borrows the file, whose bytes are its value in contracts.
#[derive(Drop)]
pub struct OpenedImage<'a> {
    file: &'a [u8],
    image: Image<'a, Global>,
}

impl<'a> Model for OpenedImage<'a> {
    ghost use Rattle.std.specs.Prelude.{ℕ, List, None, ◌≡◌};
    ghost use Rattle.pe_view.specs.Faults.{first_standing};
    ghost use Rattle.pe_image.specs.ImageOf.{IsImageOf};
    ghost use Rattle.pe_image.specs.ImageTests.{image_tests};

    ghost Value = { List ℕ };

    ghost view = { λ o. o.file.now };

    ghost invariant = { λ o. (first_standing (image_tests 0 o.file.now) ≡ None) × IsImageOf 0 o.file.now o.image };
}

impl<'a> OpenedImage<'a> {
    /// Opens the image of a file: checks it, and keeps the contents of its tables. The error is the first of faults 1 to 38, in
    /// image 0, or [`Refusal::Memory`] if an allocation failed, which never comes for a file with one of faults 1 to 15.
    pub fn open(alloc: Global, file: &'a [u8]) -> Result<OpenedImage<'a>, Refusal>
        ensures exact { AnswersOrWants (image_tests 0 file.entry.now) (λ opened. opened ≡ file.entry.now) result }
        ensures memory { IsErrOf result Refusal.Memory → first_standing (layout_tests 0 file.entry.now) ≡ None }
    {
        let mut image = read_image(alloc, file, 0)?;
        image.exports.guess_names(alloc);
        Ok(OpenedImage { file, image })
    }

    /// The file.
    pub fn file(&self) -> &'a [u8]
        ensures { result.now ≡ self.now }
    {
        self.file
    }

    /// What a name exports. If several names have these bytes, the first in the name pointer table counts.
    pub fn by_name(&self, name: &[u8]) -> Option<Target<'a>>
        ensures { option_map target_view result ≡ target_at (exports_of (image_of_file 0 self.now)) (Name name.now) }
    {
        self.image.exports.by_name(name)
    }

    /// What an ordinal exports.
    pub fn by_ordinal(&self, ordinal: u32) -> Option<Target<'a>>
        ensures { option_map target_view result ≡ target_at (exports_of (image_of_file 0 self.now)) (Ordinal ordinal) }
    {
        self.image.exports.by_ordinal(ordinal)
    }

    /// The exports by ordinal, in the order of the export address table.
    pub fn ordinals(&self) -> &[(u64, Target<'a>)]
        ensures { map ordinal_view result.now ≡ (exports_of (image_of_file 0 self.now)).ordinals }
    {
        self.image.exports.ordinals()
    }

    /// The exports by name, in the order of the name pointer table. A name that is repeated comes once, at its first place.
    pub fn names(&self) -> &[(&'a [u8], Target<'a>)]
        ensures { map export_view result.now ≡ (exports_of (image_of_file 0 self.now)).names }
    {
        self.image.exports.names()
    }

    /// The ordinal of each of [`OpenedImage::names`], in their order.
    pub fn name_ordinals(&self) -> &[u64]
        ensures { result.now ≡ (exports_of (image_of_file 0 self.now)).name_ordinals }
    {
        self.image.exports.name_ordinals()
    }

    /// The imports, in the order of the import table.
    pub fn imports(&self) -> &[Import<'a>]
        ensures { map import_view result.now ≡ imports_of (image_of_file 0 self.now) }
    {
        self.image.imports.as_slice()
    }

    /// The base relocations, in the order of their table.
    pub fn fixups(&self) -> &[Fixup]
        ensures { result.now ≡ fixups_of (image_of_file 0 self.now) }
    {
        self.image.fixups.as_slice()
    }

    /// Fills a buffer with the bytes from an RVA on, if they all lie inside the image, and returns whether they do.
    pub fn read(&self, rva: u32, buffer: &mut [u8]) -> bool
        ensures fits { IsTrue result ↔ (rva + length buffer.old ≤ (image_of_file 0 self.now).size) }
        ensures filled { OnTrue result (buffer.new ≡ bytes_at (image_of_file 0 self.now) rva (length buffer.old)) }
        ensures unchanged { OnFalse result (buffer.new ≡ buffer.old) }
    {
        self.image.layout.fill(rva, buffer)
    }

    /// The zero-terminated string at an RVA, without its zero byte; `None` if it does not end in the headers or the section in
    /// which it begins, or begins past the end of the image.
    pub fn text(&self, rva: u32) -> Option<&'a [u8]>
        ensures { option_map (λ text. text.now) result ≡ (image_of_file 0 self.now).text rva }
    {
        self.image.layout.name_at(rva)
    }

    /// The file for another base, as `rebase_file` of `pe_write` makes it; the tables are not read again. The error is the first of faults
    /// 44 to 46, 51 and 52, or [`Refusal::Memory`] if an allocation failed.
    pub fn rebase(&self, alloc: Global, base: u64) -> Result<Vec<u8>, Refusal>
        ensures exact { AnswersOrWants (rebase_tests self.now base) (λ bytes. bytes.items ≡ rebased self.now base) result }
        ensures laid { first_standing (layout_tests 0 self.now) ≡ None }
    {
        let layout = &self.image.layout;
        rebase_image(alloc, self.file, layout, self.image.fixups.as_slice(), base)
    }

    /// What is at an RVA: the piece that contains it, and the file offset of the byte if it comes from the file.
    pub fn locate(&self, rva: u32) -> Located
        ensures { result ≡ located (head_of self.now) rva }
    {
        self.image.layout.locate(rva)
    }
}
