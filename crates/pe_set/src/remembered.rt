//! `Remembered`: how the searches of an image's imports by long names ended, by the RVAs of the names.

ghost use Rattle.std.specs.Prelude.{◌≡◌, ℕ, List, Some, IfSome, IfOk, IsTrue, OnOk, map, option_map, slice_get};
ghost use Rattle.pe_layout.specs.Image.{LaidOut};
ghost use Rattle.pe_layout.specs.Layout.{image_of};
ghost use Rattle.pe_tables.specs.ImportNames.{AreNamedAt};
ghost use Rattle.pe_tables.specs.ImportView.{import_view};
ghost use Rattle.pe_tables.specs.Imports.{imports_of};
ghost use Rattle.pe_tables.specs.Key.{Key, Name, key_view};
ghost use Rattle.pe_set.specs.Set.{Module};
ghost use Rattle.pe_set.specs.Search.{resolve};

use crate::search::Resolution;
use pe_layout::Layout;
use pe_tables::laws::imports_have_their_names;
use pe_tables::{Import, import_name_rvas};
use std::alloc::{AllocError, Allocator};
use std::collections::BTreeMap;

/// The least length in bytes of a name whose search is remembered.
const LONG: usize = 256;

/// How the searches of one image's imports ended, by the number of the exporter and the RVA of the name.
///
/// So each long name of the image is looked up once in each exporter, however many imports share it, and another look-up takes log
/// n steps.
#[derive(Drop)]
pub(crate) struct Remembered<A: Allocator> {
    pub ends: BTreeMap<(usize, u32), Resolution, A>,
}

/// Whether an import has a long name.
fn is_long(import: &Import) -> bool
    ensures { IsTrue result → (text : List ℕ) × (key_view import.now.key ≡ Name text) }
{
    match import.key {
        pe_tables::Key::Name(name) => name.len() >= LONG,
        pe_tables::Key::Ordinal(_) => false,
    }
}

/// The RVAs of the names of an image's imports if one of them is long, else an empty list.
pub(crate) fn places_of<A: Allocator>(
    alloc: A,
    layout: &Layout,
    imports: &[Import],
) -> Result<Vec<u32, A>, AllocError>
    requires { map import_view imports.now ≡ imports_of (image_of layout.now) }
    ensures { IfOk result (λ places. AreNamedAt (image_of layout.now) places.items (map import_view imports.now)) }
{
    if !imports.iter().any(|import| is_long(import)) {
        return Ok(Vec::new(alloc));
    }
    imports_have_their_names();
    import_name_rvas(alloc, layout)
}

/// The RVA of the name of import `number`, if that is known.
#[inline(always)]
pub(crate) fn place_at(places: &[u32], number: usize) -> Option<u32>
    ensures { result ≡ slice_get places.now number }
{
    places.get(number).copied()
}

/// The exporter and the RVA by which the search of an import is remembered: `None` if its name is short, or its module is not in
/// the set.
#[inline(always)]
pub(crate) fn query_of(
    import: &Import,
    image: Option<usize>,
    place: Option<u32>,
) -> Option<(usize, u32)>
    ensures { IfSome result (λ query. (image ≡ Some query.0) × (place ≡ Some query.1) × ((text : List ℕ) × (key_view import.now.key ≡ Name text))) }
{
    let rva = place?;
    let number = image?;
    if !is_long(import) {
        return None;
    }
    Some((number, rva))
}

/// The RVA of a query.
#[inline(always)]
pub(crate) fn place_of(query: Option<(usize, u32)>) -> Option<u32>
    ensures { result ≡ option_map (λ query. query.1) query }
{
    match query {
        Some((_, rva)) => Some(rva),
        None => None,
    }
}

impl<A: Allocator + Copy> Remembered<A> {
    ghost use Rattle.pe_set.specs.RememberedView.{AreRemembered, StandsFor};

    /// No search. Allocates nothing.
    pub fn new(alloc: A) -> Remembered<A>
        ensures { (s : List Module) (image : LaidOut) → AreRemembered s image result }
    {
        Remembered {
            ends: BTreeMap::new(alloc),
        }
    }

    /// How a search ended, if it is remembered.
    #[inline(never)]
    fn find_query(&self, query: (usize, u32)) -> Option<Resolution>
        ensures { (s : List Module) (image : LaidOut) (name : List ℕ) (key : Key) → AreRemembered s image self.now → StandsFor s image (Some query) name key → IfSome result (λ end. resolve s name key ≡ end) }
    {
        self.ends.get(&query).copied()
    }

    /// Remembers how a search ended.
    #[inline(never)]
    fn keep_query(&mut self, query: (usize, u32), end: Resolution) -> Result<(), AllocError>
        ensures { (s : List Module) (image : LaidOut) (name : List ℕ) (key : Key) → AreRemembered s image self.old → StandsFor s image (Some query) name key → resolve s name key ≡ end → OnOk result (AreRemembered s image self.new) }
    {
        self.ends.insert(query, end)?;
        Ok(())
    }

    /// How a search ended, if it has a query and is remembered.
    #[inline(always)]
    pub fn find(&self, query: Option<(usize, u32)>) -> Option<Resolution>
        ensures { (s : List Module) (image : LaidOut) (name : List ℕ) (key : Key) → AreRemembered s image self.now → StandsFor s image query name key → IfSome result (λ end. resolve s name key ≡ end) }
    {
        match query {
            Some(query) => self.find_query(query),
            None => None,
        }
    }

    /// Remembers how a search ended, if it has a query.
    #[inline(always)]
    pub fn keep(&mut self, query: Option<(usize, u32)>, end: Resolution) -> Result<(), AllocError>
        ensures { (s : List Module) (image : LaidOut) (name : List ℕ) (key : Key) → AreRemembered s image self.old → StandsFor s image query name key → resolve s name key ≡ end → OnOk result (AreRemembered s image self.new) }
    {
        match query {
            Some(query) => self.keep_query(query, end),
            None => Ok(()),
        }
    }
}
