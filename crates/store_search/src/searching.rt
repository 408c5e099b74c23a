//! What tables say of a key, newest first.
ghost use Rattle.std.specs.Prelude.{◌≡◌, ◌≤◌, ◌<◌, ◌+◌, ℕ, List, length, take, is_some, vec_capacity, Some, None, IsTrue, IfOk, IfErr, IfSome, OnOk, OnErr};
ghost use Rattle.block_cache.specs.Kept.{kept_of};
ghost use Rattle.block_model.specs.BlockReading.{block_in};
ghost use Rattle.block_model.specs.Laws.{joined};
ghost use Rattle.disk_trait.specs.World.{ReadMoves};
ghost use Rattle.entry_model.specs.Entries.{Entry};
ghost use Rattle.entry_model.specs.Newest.{lookup};
ghost use Rattle.map_model.specs.SortedMap.{Bytes};
ghost use Rattle.state_model.specs.Bounds.{searched};
ghost use Rattle.state_model.specs.WithoutRanges.{first_found};
ghost use Rattle.store_search.specs.Caching.{AreNumbered, AreSame, BlockAgrees, CacheAgrees, IsFirst, LeavesKept, SaysOf, past_cache, reads_for, said_by, unkept, unkept_named};
ghost use Rattle.store_search.specs.Searching.{IsBlockFault, IsBlockIn, IsFaultIn, IsFoundAt, IsLookFault, IsReadIn, IsSpotIn, MayKeepRead, entries_by_table, said_in};
ghost use Rattle.store_search.specs.Looking.{AreReadSound, IsReadSound, looked_table, looked_tables};
ghost use Rattle.store_search.specs.TablesAgree.{TablesAgree};
ghost use Rattle.table_file.specs.Faults.{IsNoDamage};
ghost use Rattle.table_file.specs.Search.{IsSoundBlock, StandsThere, block_for, blocks_of_get, bytes_at, largest_block};
ghost use Rattle.table_model.specs.Tables as model;

use crate::caching::CachedBlocks;
use byte_fields::lengthen;
use disk_trait::Disk;
use filter_api::RangeFilter;
use std::alloc::Global;
use table_file::{Table, TableFault};

/// Where an entry was found in a table: in the block that the first n bytes of the buffer are, or in a kept one.
#[derive(Clone, Copy)]
pub enum Spot {
    InBuffer(usize),
    // the number of its table, and its own
    InCache(u64, u32),
}

// A block that was read into the buffer: the number of its table, its own, and how many bytes it has.
#[derive(Clone, Copy)]
pub(crate) struct BlockRead {
    number: u64,
    block: u32,
    size: usize,
}

// Where a key was found in tables, and the block that was read last for it.
#[derive(Clone, Copy)]
struct Looked {
    found: Option<Spot>,
    read: Option<BlockRead>,
}

// Reads the block of a table that may have the key, and answers how many bytes it has, and whether it has the key.
fn read_in<F: RangeFilter, D: Disk>(
    table: &Table<F>,
    disk: &mut D,
    block: u32,
    key: &[u8],
    buffer: &mut Vec<u8>,
) -> Result<(usize, bool), TableFault>
    requires named { block_for table.now key.now ≡ Some block }
    requires room { largest_block ≤ vec_capacity buffer.old }
    ensures block { IfOk result (λ r. IsBlockIn r.0 buffer.new.items) }
    ensures has { IfOk result (λ r. r.1 ≡ is_some (lookup (block_in (take r.0 buffer.new.items)) key.now)) }
    ensures room { largest_block ≤ vec_capacity buffer.new }
    ensures bytes { IsTrue D.tells → IfOk result (λ r. take r.0 buffer.new.items ≡ bytes_at table.now block (D.world disk.old).seen.held) }
    ensures sound { IsTrue D.tells → OnOk result (IsSoundBlock table.now block (D.world disk.old).seen.held) }
    ensures undamaged { (blocks : List (List Entry)) → IsTrue D.tells → StandsThere F.spelling table.now blocks (D.world disk.old).seen.held → IfErr result IsNoDamage }
    ensures shown { IsTrue D.tells → IfErr result (IsBlockFault table.now key.now (D.world disk.old).seen.held) }
    ensures moves { ReadMoves 1 (D.world disk.old) (D.world disk.new) }
    ensures cause { IfErr result (IsLookFault (D.world disk.old) (D.world disk.new)) }
{
    lengthen(buffer, table.block_bytes(block));
    table.read_and_find(disk, block, key, buffer)
}

// The kept block, where it has the key.
fn find_kept(blocks: &CachedBlocks, number: u64, block: u32, key: &[u8]) -> Option<Spot>
    requires first { IsFirst (number, block) blocks.now.kept }
    ensures found { IfSome result (λ spot. (buffer : Bytes) → IsFoundAt spot buffer blocks.now.kept key.now) }
    ensures said { (buffer : Bytes) → said_in result buffer blocks.now.kept key.now ≡ said_by (kept_of (number, block) blocks.now.kept) key.now }
{
    match blocks.find(number, block, key) {
        Some(_) => Some(Spot::InCache(number, block)),
        None => None,
    }
}

// Looks in the block of a table that may have the key: in the kept one, and else reads it.
fn look_in<F: RangeFilter, D: Disk>(
    table: &Table<F>,
    number: u64,
    blocks: &mut CachedBlocks,
    disk: &mut D,
    key: &[u8],
    buffer: &mut Vec<u8>,
) -> Result<Looked, TableFault>
    requires room { largest_block ≤ vec_capacity buffer.old }
    ensures found { IfOk result (λ l. IfSome l.found (λ spot. IsFoundAt spot buffer.new.items blocks.new.kept key.now)) }
    ensures read { IfOk result (λ l. IfSome l.read (λ r. (r.number ≡ number) × IsBlockIn r.size buffer.new.items × (kept_of (number, r.block) blocks.new.kept ≡ None))) }
    ensures unread { IfOk result (λ l. l.read ≡ None → buffer.new.items ≡ buffer.old.items) }
    ensures room { largest_block ≤ vec_capacity buffer.new }
    ensures same { AreSame blocks.old blocks.new }
    ensures answer { (parts : List (List Entry)) → IsTrue D.tells → StandsThere F.spelling table.now parts (D.world disk.old).seen.held
        → ((n : ℕ) (bytes : Bytes) → kept_of (number, n) blocks.old.kept ≡ Some bytes → SaysOf n bytes table.now (joined parts))
        → IfOk result (λ l. said_in l.found buffer.new.items blocks.new.kept key.now ≡ lookup (joined parts) key.now) }
    ensures looked { IsTrue D.tells → IfOk result (λ l. said_in l.found buffer.new.items blocks.new.kept key.now ≡ looked_table blocks.old.kept number table.now key.now (D.world disk.old).seen.held) }
    ensures sound { IsTrue D.tells → OnOk result (IsReadSound blocks.old.kept number table.now key.now (D.world disk.old).seen.held) }
    ensures says { (parts : List (List Entry)) → IsTrue D.tells → StandsThere F.spelling table.now parts (D.world disk.old).seen.held
        → IfOk result (λ l. IfSome l.read (λ r. SaysOf r.block (take r.size buffer.new.items) table.now (joined parts))) }
    ensures undamaged { (parts : List (List Entry)) → IsTrue D.tells → StandsThere F.spelling table.now parts (D.world disk.old).seen.held → IfErr result IsNoDamage }
    ensures shown { IsTrue D.tells → IfErr result (IsBlockFault table.now key.now (D.world disk.old).seen.held) }
    ensures only_if_read { OnErr result (1 ≤ blocks_of_get (block_for table.now key.now)) }
    ensures moves { ReadMoves (reads_for blocks.old.kept number (block_for table.now key.now)) (D.world disk.old) (D.world disk.new) }
    ensures cause { IfErr result (IsLookFault (D.world disk.old) (D.world disk.new)) }
{
    let Some(block) = table.block_for(key) else {
        return Ok(Looked {
            found: None,
            read: None,
        });
    };
    if blocks.has(number, block) {
        let found = find_kept(blocks, number, block, key);
        return Ok(Looked { found, read: None });
    }
    let (size, has) = read_in(table, disk, block, key, buffer)?;
    Ok(Looked {
        found: has.then_some(Spot::InBuffer(size)),
        read: Some(BlockRead {
            number,
            block,
            size,
        }),
    })
}

// The same of the first table that has the key.
fn look_in_all<F: RangeFilter, D: Disk>(
    tables: &[Table<F>],
    blocks: &mut CachedBlocks,
    disk: &mut D,
    key: &[u8],
    buffer: &mut Vec<u8>,
) -> Result<Looked, TableFault>
    requires room { largest_block ≤ vec_capacity buffer.old }
    ensures found { IfOk result (λ l. IfSome l.found (λ spot. IsFoundAt spot buffer.new.items blocks.new.kept key.now)) }
    ensures read { IfOk result (λ l. IfSome l.read (λ r. IsReadIn r buffer.new.items blocks.new (length tables.now))) }
    ensures unread { IfOk result (λ l. l.read ≡ None → buffer.new.items ≡ buffer.old.items) }
    ensures room { largest_block ≤ vec_capacity buffer.new }
    ensures same { AreSame blocks.old blocks.new }
    ensures answer { (states : List model.Table) → IsTrue D.tells → TablesAgree F.spelling tables.now states (D.world disk.old).seen.held → CacheAgrees blocks.old tables.now states
        → IfOk result (λ l. said_in l.found buffer.new.items blocks.new.kept key.now ≡ first_found (entries_by_table states) key.now) }
    ensures looked { IsTrue D.tells → IfOk result (λ l. said_in l.found buffer.new.items blocks.new.kept key.now ≡ looked_tables blocks.old tables.now key.now (D.world disk.old).seen.held) }
    ensures sound { IsTrue D.tells → OnOk result (AreReadSound blocks.old tables.now key.now (D.world disk.old).seen.held) }
    ensures says { (states : List model.Table) → IsTrue D.tells → TablesAgree F.spelling tables.now states (D.world disk.old).seen.held
        → IfOk result (λ l. IfSome l.read (λ r. r.number < past_cache → BlockAgrees blocks.old.first (r.number, r.block) (take r.size buffer.new.items) tables.now states)) }
    ensures undamaged { (states : List model.Table) → IsTrue D.tells → TablesAgree F.spelling tables.now states (D.world disk.old).seen.held → IfErr result IsNoDamage }
    ensures shown { IsTrue D.tells → IfErr result (IsFaultIn tables.now key.now (D.world disk.old).seen.held) }
    ensures bounded { (states : List model.Table) → IsTrue D.tells → TablesAgree F.spelling tables.now states (D.world disk.old).seen.held → CacheAgrees blocks.old tables.now states
        → (D.world disk.new).seen.reads ≤ (D.world disk.old).seen.reads + unkept blocks.old key.now tables.now states }
    ensures only_if_read { (states : List model.Table) → IsTrue D.tells → TablesAgree F.spelling tables.now states (D.world disk.old).seen.held → CacheAgrees blocks.old tables.now states
        → OnErr result (1 ≤ searched key.now states) }
    ensures moves { ReadMoves (unkept_named blocks.old key.now tables.now) (D.world disk.old) (D.world disk.new) }
    ensures cause { IfErr result (IsLookFault (D.world disk.old) (D.world disk.new)) }
{
    let Some((table, older)) = tables.split_first() else {
        return Ok(Looked {
            found: None,
            read: None,
        });
    };
    // the law of the bound: a block is searched exactly where the state says that its table is
    table_file::laws::standing_tables_are_read();
    let number = blocks.number(older.len());
    let here = look_in(table, number, blocks, disk, key, buffer)?;
    if here.found.is_some() {
        return Ok(here);
    }
    let later = look_in_all(older, blocks, disk, key, buffer)?;
    Ok(Looked {
        found: later.found,
        read: later.read.or(here.read),
    })
}

// Keeps the block that was read last, where one was.
fn keep_read(alloc: Global, blocks: &mut CachedBlocks, buffer: &[u8], read: Option<BlockRead>)
    requires { IfSome read (λ r. IsBlockIn r.size buffer.now) }
    ensures { MayKeepRead read buffer.now blocks.old blocks.new }
{
    if let Some(read) = read {
        blocks.keep(alloc, read.number, read.block, &buffer[..read.size]);
    }
}

/// Looks for a key in tables, the newest first, and answers where the first of them that has it says so, or `None` where none has.
///
/// Of each table whose filter admits the key and whose keys enclose it one block is searched: the kept one, or else it is read
/// into the buffer, which has room for the largest block. The block that was read last is kept, once nothing more is looked for,
/// so that none is driven out that is still to be searched. No memory that could be refused.
pub fn look_and_keep<F: RangeFilter, D: Disk>(
    alloc: Global,
    tables: &[Table<F>],
    blocks: &mut CachedBlocks,
    disk: &mut D,
    key: &[u8],
    buffer: &mut Vec<u8>,
) -> Result<Option<Spot>, TableFault>
    requires room { largest_block ≤ vec_capacity buffer.old }
    ensures place { IfOk result (λ found. IfSome found (λ spot. IsSpotIn spot buffer.new.items)) }
    ensures room { largest_block ≤ vec_capacity buffer.new }
    ensures kept { LeavesKept blocks.old blocks.new }
    ensures numbered { AreNumbered blocks.old (length tables.now) → AreNumbered blocks.new (length tables.now) }
    ensures keeps { (states : List model.Table) → IsTrue D.tells → TablesAgree F.spelling tables.now states (D.world disk.old).seen.held → CacheAgrees blocks.old tables.now states
        → CacheAgrees blocks.new tables.now states }
    ensures answer { (states : List model.Table) → IsTrue D.tells → TablesAgree F.spelling tables.now states (D.world disk.old).seen.held → CacheAgrees blocks.old tables.now states
        → IfOk result (λ found. said_in found buffer.new.items blocks.new.kept key.now ≡ first_found (entries_by_table states) key.now) }
    ensures looked { IsTrue D.tells → IfOk result (λ found. said_in found buffer.new.items blocks.new.kept key.now ≡ looked_tables blocks.old tables.now key.now (D.world disk.old).seen.held) }
    ensures sound { IsTrue D.tells → OnOk result (AreReadSound blocks.old tables.now key.now (D.world disk.old).seen.held) }
    ensures undamaged { (states : List model.Table) → IsTrue D.tells → TablesAgree F.spelling tables.now states (D.world disk.old).seen.held → IfErr result IsNoDamage }
    ensures shown { IsTrue D.tells → IfErr result (IsFaultIn tables.now key.now (D.world disk.old).seen.held) }
    ensures bounded { (states : List model.Table) → IsTrue D.tells → TablesAgree F.spelling tables.now states (D.world disk.old).seen.held → CacheAgrees blocks.old tables.now states
        → (D.world disk.new).seen.reads ≤ (D.world disk.old).seen.reads + unkept blocks.old key.now tables.now states }
    ensures within { (states : List model.Table) → IsTrue D.tells → TablesAgree F.spelling tables.now states (D.world disk.old).seen.held → CacheAgrees blocks.old tables.now states
        → (D.world disk.new).seen.reads ≤ (D.world disk.old).seen.reads + searched key.now states }
    ensures only_if_read { (states : List model.Table) → IsTrue D.tells → TablesAgree F.spelling tables.now states (D.world disk.old).seen.held → CacheAgrees blocks.old tables.now states
        → OnErr result (1 ≤ searched key.now states) }
    ensures moves { ReadMoves (unkept_named blocks.old key.now tables.now) (D.world disk.old) (D.world disk.new) }
    ensures cause { IfErr result (IsLookFault (D.world disk.old) (D.world disk.new)) }
{
    // no more are read than the state says
    table_file::laws::standing_tables_are_read();
    let looked = look_in_all(tables, blocks, disk, key, buffer)?;
    keep_read(alloc, blocks, buffer, looked.read);
    Ok(looked.found)
}
