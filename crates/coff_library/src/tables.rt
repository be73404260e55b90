//! The bytes of the linker members and of the long names.

ghost use Rattle.std.specs.Prelude.{◌≡◌, ◌+◌, ◌≤◌, ◌<◌, ◌^◌, ◌++◌, [], ◌∷◌, map, filter, length, slice_index, OnOk};
ghost use Rattle.std.specs.List.{All, flat_map};
ghost use Rattle.byteorder.specs.Endian.{big_bytes};
ghost use Rattle.pe_numbers.specs.declared.number.Number.TheVariants as numbers;
ghost use Rattle.pe_numbers.specs.Numbers.{numbers_bytes};
ghost use Rattle.coff_library.specs.Members.{member_view};
ghost use Rattle.coff_library.specs.SymbolView.{symbol_view};
ghost use Rattle.coff_library.specs.Symbols.{Symbol};
ghost use Rattle.coff_library.specs.Written.{first_table, second_table, symbol_names, texts_bytes, is_long, long_names};

use crate::layout::is_long;
use crate::library_symbol::LibrarySymbol;
use crate::new_member::NewMember;
use pe_numbers::Number::{U16, U32};
use pe_numbers::push_numbers;
use std::alloc::{AllocError, Allocator};

/// Adds a number of four bytes, the highest first.
fn push_big<A: Allocator>(bytes: &mut Vec<u8, A>, number: u32) -> Result<(), AllocError>
    ensures { OnOk result (bytes.new.items ≡ bytes.old.items ++ big_bytes 4 number) }
{
    bytes.extend_from_slice(&number.to_be_bytes())
}

/// Adds a text and a zero byte.
fn push_text<A: Allocator>(bytes: &mut Vec<u8, A>, text: &[u8]) -> Result<(), AllocError>
    ensures { OnOk result (bytes.new.items ≡ bytes.old.items ++ (text.now ++ 0 ∷ [])) }
{
    bytes.extend_from_slice(text)?;
    bytes.extend_from_slice(&[0])
}

/// Adds the names of symbols, each with a zero byte.
fn push_symbol_names<A: Allocator>(
    bytes: &mut Vec<u8, A>,
    symbols: &[LibrarySymbol],
) -> Result<(), AllocError>
    ensures { OnOk result (bytes.new.items ≡ bytes.old.items ++ symbol_names (map symbol_view symbols.now)) }
{
    for symbol in symbols {
        push_text(bytes, symbol.name)?;
    }
    Ok(())
}

/// Adds the offset of the member of each symbol.
fn push_symbol_offsets<A: Allocator>(
    bytes: &mut Vec<u8, A>,
    offsets: &[u32],
    symbols: &[LibrarySymbol],
) -> Result<(), AllocError>
    requires { All (λ (s : Symbol). s.member < length offsets.now) (map symbol_view symbols.now) }
    ensures { OnOk result (bytes.new.items ≡ bytes.old.items ++ flat_map (λ (s : Symbol). big_bytes 4 (slice_index offsets.now s.member)) (map symbol_view symbols.now)) }
{
    for symbol in symbols {
        push_big(bytes, offsets[symbol.member as usize])?;
    }
    Ok(())
}

/// Adds the bytes of the first linker member, where the headers of the members are at offsets.
#[tactic(auto, unfolding(crate::specs::Written::first_table))]
pub(crate) fn push_first_table<A: Allocator>(
    bytes: &mut Vec<u8, A>,
    offsets: &[u32],
    symbols: &[LibrarySymbol],
) -> Result<(), AllocError>
    requires count { length symbols.now < 2 ^ 32 }
    requires members { All (λ (s : Symbol). s.member < length offsets.now) (map symbol_view symbols.now) }
    ensures { OnOk result (bytes.new.items ≡ bytes.old.items ++ first_table offsets.now (map symbol_view symbols.now)) }
{
    push_big(bytes, symbols.len() as u32)?;
    push_symbol_offsets(bytes, offsets, symbols)?;
    push_symbol_names(bytes, symbols)
}

/// Adds how many offsets there are, and the offsets.
fn push_offsets<A: Allocator>(bytes: &mut Vec<u8, A>, offsets: &[u32]) -> Result<(), AllocError>
    requires { length offsets.now < 2 ^ 32 }
    ensures { OnOk result (bytes.new.items ≡ bytes.old.items ++ numbers_bytes (numbers.U32 (length offsets.now) ∷ map numbers.U32 offsets.now)) }
{
    push_numbers(bytes, &[U32(offsets.len() as u32)])?;
    for offset in offsets {
        push_numbers(bytes, &[U32(*offset)])?;
    }
    Ok(())
}

/// Adds how many symbols there are, and the index of the member of each, which counts from 1.
fn push_indexes<A: Allocator>(
    bytes: &mut Vec<u8, A>,
    symbols: &[LibrarySymbol],
) -> Result<(), AllocError>
    requires count { length symbols.now < 2 ^ 32 }
    requires members { All (λ (s : Symbol). s.member < 65535) (map symbol_view symbols.now) }
    ensures { OnOk result (bytes.new.items ≡ bytes.old.items ++ numbers_bytes (numbers.U32 (length symbols.now) ∷ map (λ (s : Symbol). numbers.U16 (s.member + 1)) (map symbol_view symbols.now))) }
{
    push_numbers(bytes, &[U32(symbols.len() as u32)])?;
    for symbol in symbols {
        push_numbers(bytes, &[U16(symbol.member as u16 + 1)])?;
    }
    Ok(())
}

/// Adds the bytes of the second linker member, where the headers of the members are at offsets.
#[tactic(auto, unfolding(crate::specs::Written::second_table))]
pub(crate) fn push_second_table<A: Allocator>(
    bytes: &mut Vec<u8, A>,
    offsets: &[u32],
    symbols: &[LibrarySymbol],
) -> Result<(), AllocError>
    requires few { length offsets.now ≤ 65535 }
    requires count { length symbols.now < 2 ^ 32 }
    requires members { All (λ (s : Symbol). s.member < 65535) (map symbol_view symbols.now) }
    ensures { OnOk result (bytes.new.items ≡ bytes.old.items ++ second_table offsets.now (map symbol_view symbols.now)) }
{
    push_offsets(bytes, offsets)?;
    push_indexes(bytes, symbols)?;
    push_symbol_names(bytes, symbols)
}

/// Adds a name with a zero byte, if it is a long one.
fn push_long_name<A: Allocator>(bytes: &mut Vec<u8, A>, name: &[u8]) -> Result<(), AllocError>
    ensures { OnOk result (bytes.new.items ≡ bytes.old.items ++ texts_bytes (filter is_long (name.now ∷ []))) }
{
    if !is_long(name) {
        return Ok(());
    }
    push_text(bytes, name)
}

/// Adds the long names of members, each with a zero byte.
pub(crate) fn push_long_names<A: Allocator>(
    bytes: &mut Vec<u8, A>,
    members: &[NewMember],
) -> Result<(), AllocError>
    ensures { OnOk result (bytes.new.items ≡ bytes.old.items ++ long_names (map member_view members.now)) }
{
    for member in members {
        push_long_name(bytes, member.name)?;
    }
    Ok(())
}
