//! `AtImage`: an image, and what is read of it once for all places.

ghost use Rattle.std.specs.Prelude.{◌≡◌, length, IfOk, OnErr};
ghost use Rattle.pe_layout.specs.Layout.{image_of};
ghost use Rattle.pe_reach.specs.WholeTables.{AreWholeTablesOf};

use crate::placed_symbols::{PlacedSymbol, placed_symbols};
use pe_delay::read_delay_imports;
use pe_image::Tables;
use pe_layout::Layout;
use pe_reach::{ViewFile, read_whole_tables};
use pe_resources::{Leaf, leaves};
use pe_tables::Import;
use std::alloc::{AllocError, Allocator};

/// An image that is laid out, and what is read of it once for all places.
#[derive(Drop)]
pub struct AtImage<'a, A: Allocator> {
    /// Its file.
    pub file: ViewFile<'a>,
    /// Its layout.
    pub layout: Layout<'a>,
    /// Its tables, as far as they have no fault.
    pub tables: Tables<'a, A>,
    /// Its delay-loaded imports.
    pub delayed: Vec<Import<'a>, A>,
    /// The leaves of its resource tree.
    pub leaves: Vec<Leaf, A>,
    /// The symbols that name places in it, by their RVAs.
    pub symbols: Vec<PlacedSymbol<'a>, A>,
}

impl<'a, A: Allocator + Copy> AtImage<'a, A> {
    /// Reads what places of an image need, from its file and its layout. The only error is out of memory; then all memory is freed.
    pub fn new(
        alloc: A,
        file: ViewFile<'a>,
        layout: Layout<'a>,
    ) -> Result<AtImage<'a, A>, AllocError>
        ensures { IfOk result (λ image. AreWholeTablesOf (image_of layout.entry) image.tables) }
    {
        let tables = read_whole_tables(alloc, &layout)?;
        let delayed = read_delay_imports(alloc, &layout)?;
        let tree = leaves(alloc, &layout)?;
        let symbols = placed_symbols(alloc, file.beginning(), &layout.headers())?;
        Ok(AtImage {
            file,
            layout,
            tables,
            delayed,
            leaves: tree.leaves,
            symbols,
        })
    }
}
