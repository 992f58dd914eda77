ghost use Rattle.std.specs.Prelude.{◌≡◌, ◌≤◌, ◌<◌, ◌+◌, ◌-◌, ◌^◌, ◌++◌, length, map, min, IfOk, OnOk};
ghost use Rattle.std.specs.Int.{w16, w32, w64};
ghost use Rattle.std.specs.List.{AllByRecursion};
ghost use Rattle.mx_base.specs.declared.entry.Entry.{Entry};
ghost use Rattle.mx_hfile.specs.Encoding.{AreEntries, HasKey, number, entry_bytes, body, block, blocks_bytes, first_key, place_of, listing, listings, index, trailer, blocks_of, encoding};

use crate::blocks::DATA_MAGIC;
use crate::dividing::{body_len, first_block};
use crate::listing::INDEX_MAGIC;
use crate::trailer::TRAILER_MAGIC;
use mx_base::Entry;
use std::alloc::{AllocError, Global};

/// The length of the file of these entries, in bytes, or 2^64 - 1 where it is greater.
pub fn size(entries: &[Entry]) -> u64
    ensures { result ≡ min (length (encoding entries.now)) (2 ^ 64 - 1) }
{
    let sizes = sizes_of(entries);
    sizes
        .data_len
        .saturating_add(sizes.index_len)
        .saturating_add(64)
}

/// The one file of these entries.
pub fn write(alloc: Global, entries: &[Entry]) -> Result<Vec<u8>, AllocError>
    requires entries { AreEntries entries.now }
    requires room { length (encoding entries.now) ≤ 268_435_456 }
    ensures { IfOk result (λ bytes. bytes.items ≡ encoding entries.now) }
{
    let sizes = sizes_of(entries);
    let mut out = Vec::with_capacity(alloc, (sizes.data_len + sizes.index_len + 64) as usize)?;
    put_blocks(&mut out, entries)?;
    put_index(&mut out, entries, sizes)?;
    put_trailer(&mut out, entries.len() as u64, sizes)?;
    Ok(out)
}

/// How many bytes the data blocks and the index block have, or 2^64 - 1 where they have more, and how many blocks
/// there are.
#[derive(Clone, Copy, Drop)]
struct Sizes {
    data_len: u64,
    index_len: u64,
    block_count: u64,
}

fn sizes_of(entries: &[Entry]) -> Sizes
    ensures data_len { result.data_len ≡ min (length (blocks_bytes (blocks_of entries.now))) (2 ^ 64 - 1) }
    ensures index_len { result.index_len ≡ min (length (index (map place_of (blocks_of entries.now)))) (2 ^ 64 - 1) }
    ensures block_count { result.block_count ≡ length (blocks_of entries.now) }
{
    let mut sizes = Sizes {
        data_len: 0,
        index_len: 16,
        block_count: 0,
    };
    let mut rest = entries;
    while !rest.is_empty() {
        let (block, behind) = first_block(rest);
        sizes.data_len = sizes
            .data_len
            .saturating_add(12)
            .saturating_add(body_len(block));
        sizes.index_len = sizes
            .index_len
            .saturating_add(14 + first_key(block).len() as u64);
        sizes.block_count += 1;
        rest = behind;
    }
    sizes
}

fn first_key(block: &[Entry]) -> &[u8]
    ensures { result.now ≡ first_key block.now }
{
    match block.first() {
        Some(entry) => entry.key.as_slice(),
        None => &[],
    }
}

fn put_blocks(out: &mut Vec<u8>, entries: &[Entry]) -> Result<(), AllocError>
    requires keys { AllByRecursion HasKey entries.now }
    requires room { length (blocks_bytes (blocks_of entries.now)) ≤ 268_435_456 }
    ensures { OnOk result (out.new.items ≡ out.old.items ++ blocks_bytes (blocks_of entries.now)) }
{
    let mut rest = entries;
    while !rest.is_empty() {
        let (block, behind) = first_block(rest);
        put_block(out, block)?;
        rest = behind;
    }
    Ok(())
}

#[tactic(auto, unfolding(crate::specs::Encoding::data_magic))]
fn put_block(out: &mut Vec<u8>, entries: &[Entry]) -> Result<(), AllocError>
    requires keys { AllByRecursion HasKey entries.now }
    requires room { length (body entries.now) ≤ 268_435_456 }
    ensures { OnOk result (out.new.items ≡ out.old.items ++ block entries.now) }
{
    put(out, &DATA_MAGIC)?;
    put_u32(out, body_len(entries) as u32)?;
    put_entries(out, entries)
}

fn put_entries(out: &mut Vec<u8>, entries: &[Entry]) -> Result<(), AllocError>
    requires keys { AllByRecursion HasKey entries.now }
    requires room { length (body entries.now) ≤ 268_435_456 }
    ensures { OnOk result (out.new.items ≡ out.old.items ++ body entries.now) }
{
    for entry in entries {
        put_entry(out, entry)?;
    }
    Ok(())
}

fn put_entry(out: &mut Vec<u8>, entry: &Entry) -> Result<(), AllocError>
    requires key { length entry.now.key < 2 ^ 16 }
    requires value { length entry.now.value < 2 ^ 32 }
    ensures { OnOk result (out.new.items ≡ out.old.items ++ entry_bytes entry.now) }
{
    let key = entry.key.as_slice();
    let value = entry.value.as_slice();
    put_u16(out, key.len() as u16)?;
    put(out, key)?;
    put_u32(out, value.len() as u32)?;
    put(out, value)
}

#[tactic(auto, unfolding(crate::specs::Encoding::index_magic))]
fn put_index(out: &mut Vec<u8>, entries: &[Entry], sizes: Sizes) -> Result<(), AllocError>
    requires keys { AllByRecursion HasKey entries.now }
    requires room { length (blocks_bytes (blocks_of entries.now)) ≤ 268_435_456 }
    requires len { (sizes.index_len ≡ 16 + length (listings 0 (map place_of (blocks_of entries.now)))) × (sizes.index_len < 2 ^ 32) }
    requires block_count { (sizes.block_count ≡ length (map place_of (blocks_of entries.now))) × (sizes.block_count < 2 ^ 32) }
    ensures { OnOk result (out.new.items ≡ out.old.items ++ index (map place_of (blocks_of entries.now))) }
{
    put(out, &INDEX_MAGIC)?;
    put_u32(out, (sizes.index_len - 12) as u32)?;
    put_u32(out, sizes.block_count as u32)?;
    put_listings(out, entries)
}

fn put_listings(out: &mut Vec<u8>, entries: &[Entry]) -> Result<(), AllocError>
    requires keys { AllByRecursion HasKey entries.now }
    requires room { length (blocks_bytes (blocks_of entries.now)) ≤ 268_435_456 }
    ensures { OnOk result (out.new.items ≡ out.old.items ++ listings 0 (map place_of (blocks_of entries.now))) }
{
    let mut at = 0_u64;
    let mut rest = entries;
    while !rest.is_empty() {
        let (block, behind) = first_block(rest);
        let len = 12 + body_len(block) as u32;
        put_listing(out, at, len, first_key(block))?;
        at += u64::from(len);
        rest = behind;
    }
    Ok(())
}

fn put_listing(out: &mut Vec<u8>, at: u64, len: u32, key: &[u8]) -> Result<(), AllocError>
    requires { length key.now < 2 ^ 16 }
    ensures { OnOk result (out.new.items ≡ out.old.items ++ listing at (record { len = len; key = key.now })) }
{
    put_u64(out, at)?;
    put_u32(out, len)?;
    put_u16(out, key.len() as u16)?;
    put(out, key)
}

#[tactic(auto, unfolding(crate::specs::Encoding::trailer_magic))]
fn put_trailer(out: &mut Vec<u8>, entries: u64, sizes: Sizes) -> Result<(), AllocError>
    requires { sizes.block_count < 2 ^ 32 }
    ensures { OnOk result (out.new.items ≡ out.old.items ++ trailer sizes.data_len sizes.index_len entries sizes.block_count) }
{
    put(out, &TRAILER_MAGIC)?;
    put_u32(out, 1)?;
    put_u32(out, 0)?;
    put_u64(out, sizes.data_len)?;
    put_u64(out, sizes.index_len)?;
    put_u64(out, entries)?;
    put_u32(out, sizes.block_count as u32)?;
    put_u32(out, 0)?;
    put(out, &[0; 16])
}

fn put(out: &mut Vec<u8>, bytes: &[u8]) -> Result<(), AllocError>
    ensures { OnOk result (out.new.items ≡ out.old.items ++ bytes.now) }
{
    out.extend_from_slice(bytes)?;
    Ok(())
}

#[tactic(auto, unfolding(crate::specs::Encoding::number))]
fn put_u16(out: &mut Vec<u8>, n: u16) -> Result<(), AllocError>
    ensures { OnOk result (out.new.items ≡ out.old.items ++ number w16 n) }
{
    put(out, &n.to_be_bytes())
}

#[tactic(auto, unfolding(crate::specs::Encoding::number))]
fn put_u32(out: &mut Vec<u8>, n: u32) -> Result<(), AllocError>
    ensures { OnOk result (out.new.items ≡ out.old.items ++ number w32 n) }
{
    put(out, &n.to_be_bytes())
}

#[tactic(auto, unfolding(crate::specs::Encoding::number))]
fn put_u64(out: &mut Vec<u8>, n: u64) -> Result<(), AllocError>
    ensures { OnOk result (out.new.items ≡ out.old.items ++ number w64 n) }
{
    put(out, &n.to_be_bytes())
}
