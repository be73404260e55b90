//! `FoundFixups`: the fixups read so far, and whether a field shares a byte with one of theirs.

ghost use Rattle.std.specs.Prelude.{◌≡◌, ◌+◌, ◌≤◌, ◌<◌, ◌^◌, [], ◌∷◌, None, OnOk, IfOk, IsTrue, map, false, is_none, nat_le, true};
ghost use Rattle.pe_ranges.specs.Ranges.{meets_any};
ghost use Rattle.pe_tables.specs.Fixups.{width_of, range_of};
ghost use Rattle.pe_tables.specs.FixupReading.{AreAllApart, FitsBesideAny, GainsAny, IsIndexed, IsKept, IsMet, IsSettled, Keeps, Tells, Reads};

use crate::apart::are_apart;
use crate::fixups::Fixup;
use pe_ranges::Ranges;
use std::alloc::{AllocError, Allocator};

/// The fixups read so far.
///
/// The fields of most tables ascend: then a field is compared only with where those before it end. Once one does not, the others
/// are not compared until all are read: then their ranges are sorted, and each is compared with the next. Only if two share a byte
/// is the table read again, to find the first field that shares one with a field before it, and then each field is compared with
/// all of these. So n fields take n log n steps, whatever their order.
#[derive(Drop)]
pub(crate) struct FoundFixups<A: Allocator> {
    alloc: A,
    pub fixups: Vec<Fixup, A>,
    /// No field has a byte at this RVA or after it.
    pub end: u64,
    /// Whether each field begins after those before it.
    pub ascending: bool,
    /// The bytes of all fields, if each is compared with all before it.
    pub fields: Option<Ranges<A>>,
}

/// The bytes of the fields of these fixups, in their order.
fn field_ranges<A: Allocator>(alloc: A, fixups: &[Fixup]) -> Result<Vec<(u32, u32), A>, AllocError>
    ensures { IfOk result (λ ranges. ranges.items ≡ map range_of fixups.now) }
{
    let mut ranges = Vec::with_capacity(alloc, fixups.len())?;
    for fixup in fixups {
        ranges.push((fixup.field, fixup.kind.width()))?;
    }
    Ok(ranges)
}

/// Adds a field's bytes to the ranges, if there are any.
fn add_field<A: Allocator + Copy>(
    fields: &mut Option<Ranges<A>>,
    field: u32,
    width: u32,
) -> Result<(), AllocError>
    requires { FitsBesideAny field width fields.old }
    ensures gains { OnOk result (GainsAny fields.old fields.new (field, width)) }
    ensures same { is_none fields.new ≡ is_none fields.old }
{
    match fields {
        Some(fields) => fields.add(field, width),
        None => Ok(()),
    }
}

impl<A: Allocator + Copy> FoundFixups<A> {
    /// No fixups, whose fields are compared with each other once all are read, if they do not ascend. Allocates nothing.
    pub fn new(alloc: A) -> FoundFixups<A>
        ensures none { result.fixups.items ≡ [] }
        ensures indexed { IsIndexed result }
    {
        FoundFixups {
            alloc,
            fixups: Vec::new(alloc),
            end: 0,
            ascending: true,
            fields: None,
        }
    }

    /// No fixups, whose fields are each compared with all before it. Allocates nothing.
    pub fn comparing(alloc: A) -> FoundFixups<A>
        ensures none { result.fixups.items ≡ [] }
        ensures indexed { IsIndexed result }
        ensures compares { is_none result.fields ≡ false }
    {
        FoundFixups {
            alloc,
            fixups: Vec::new(alloc),
            end: 0,
            ascending: false,
            fields: Some(Ranges::new(alloc)),
        }
    }

    /// Whether a field begins after all others.
    fn is_behind(&self, field: u32) -> bool
        ensures { result ≡ nat_le self.now.end field }
    {
        u64::from(field) >= self.end
    }

    /// Whether a field shares a byte with another, if it is compared with all of them.
    pub fn meets(&mut self, field: u32, width: u32) -> bool
        requires small { field + width < 2 ^ 32 }
        requires indexed { IsIndexed self.old }
        ensures kept { IsKept self.old self.new }
        ensures tells { Tells self.new field }
        ensures met { IsMet self.new field width result }
    {
        if self.is_behind(field) {
            return false;
        }
        self.ascending = false;
        self.meets_range(field, width)
    }

    /// Whether a field shares a byte with one of the ranges, if any are collected. It is a function of its own because few tables
    /// need it.
    #[cold]
    #[inline(never)]
    fn meets_range(&self, field: u32, width: u32) -> bool
        requires small { field + width < 2 ^ 32 }
        requires indexed { IsIndexed self.now }
        ensures { IsMet self.now field width result }
    {
        match &self.fields {
            Some(fields) => fields.meets(field, width),
            None => false,
        }
    }

    /// Adds a fixup whose field was the last tested, and was found to meet no other.
    pub fn add(&mut self, fixup: Fixup) -> Result<(), AllocError>
        requires indexed { IsIndexed self.old }
        requires tells { Tells self.old fixup.field }
        requires unmet { IsMet self.old fixup.field (width_of fixup.kind) false }
        ensures reads { OnOk result (Reads self.old self.new (fixup ∷ [])) }
        ensures keeps { Keeps self.old self.new }
        ensures apart { OnOk result (IsSettled self.new → meets_any fixup.field (width_of fixup.kind) (map range_of self.old.fixups.items) ≡ false) }
    {
        let width = fixup.kind.width();
        add_field(&mut self.fields, fixup.field, width)?;
        self.fixups.push(fixup)?;
        self.end = self.end.max(u64::from(fixup.field) + u64::from(width));
        Ok(())
    }

    /// Adds a fixup whose field meets a slot, if it is still open whether it meets another field, which is the fault before that.
    pub fn add_refused(&mut self, fixup: Fixup) -> Result<(), AllocError>
        requires indexed { IsIndexed self.old }
        requires tells { Tells self.old fixup.field }
        requires unmet { IsMet self.old fixup.field (width_of fixup.kind) false }
        ensures keeps { Keeps self.old self.new }
        ensures apart { OnOk result (IsSettled self.new → meets_any fixup.field (width_of fixup.kind) (map range_of self.old.fixups.items) ≡ false) }
    {
        if self.ascending || self.fields.is_some() {
            return Ok(());
        }
        self.add(fixup)
    }

    /// Adds a fixup whose field begins after all others and ends at this RVA, while no ranges are collected.
    pub fn add_behind(&mut self, fixup: Fixup, end: u64) -> Result<(), AllocError>
        requires indexed { IsIndexed self.old }
        requires no_ranges { self.old.fields ≡ None }
        requires behind { self.old.end ≤ fixup.field }
        requires end { end ≡ fixup.field + width_of fixup.kind }
        ensures reads { OnOk result (Reads self.old self.new (fixup ∷ [])) }
        ensures keeps { Keeps self.old self.new }
        ensures no_ranges { self.new.fields ≡ None }
    {
        self.fixups.push(fixup)?;
        self.end = end;
        Ok(())
    }

    /// Whether no two fields share a byte, or each was compared with all before it.
    pub fn are_apart(&self) -> Result<bool, AllocError>
        requires { is_none self.now.fields ≡ true → IsIndexed self.now }
        ensures { IfOk result (λ apart. IsTrue apart → IsSettled self.now) }
    {
        if self.ascending {
            return Ok(true);
        }
        let mut ranges = field_ranges(self.alloc, self.fixups.as_slice())?;
        Ok(are_apart(ranges.as_mut_slice()))
    }
}
