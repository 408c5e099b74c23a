//! A table that is opened.
ghost use Rattle.std.specs.Prelude.{◌≡◌, ◌+◌, ◌-◌, ◌*◌, ◌≤◌, ◌<◌, ℕ, List, is_some, length, take, IsTrue, IfOk, IfErr, OnErr, OnOk, Ok, Some, None};
ghost use Rattle.std.specs.Option.{option_map};
ghost use Rattle.byte_fields.specs.Sums.{fnv_of};
ghost use Rattle.disk_trait.specs.Fault.{IsFaultOf};
ghost use Rattle.disk_trait.specs.World.{ReadMoves, Rose};
ghost use Rattle.disk_trait.specs.declared.fault.Op.TheVariants.{Read};
ghost use Rattle.std.specs.List.{AllByRecursion};
ghost use Rattle.map_model.specs.SortedMap.{Bytes};
ghost use Rattle.block_format.specs.Walking.{StandsAfter, kept_from, walked};
ghost use Rattle.key_base.specs.Limits.{max_block_pages, max_key_bytes};
ghost use Rattle.filter_api.specs.Ranges.{IsRowInRange};
ghost use Rattle.entry_model.specs.Entries.{Entry, IsEntry};
ghost use Rattle.block_model.specs.Laws.{joined};
ghost use Rattle.entry_model.specs.Newest.{lookup};
ghost use Rattle.block_model.specs.BlockReading.{block_fault, block_in};
ghost use Rattle.block_model.specs.Index.{row_pages};
ghost use Rattle.block_model.specs.Pages.{page_bytes};
ghost use Rattle.block_model.specs.Places.{byte_of_page};
ghost use Rattle.table_file.specs.Faults.{HasReadCause, IsNoDamage, IsNotMemory, IsOtherSum};
ghost use Rattle.table_file.specs.Search.{IsBrokenBlock, IsDamagedBlock, IsGetFault, IsOtherBlock, IsSoundBlock, StandsThere, block_for, blocks_of_get, bytes_at, largest_block, page_at, row_at};
ghost use Rattle.table_file.specs.Walks.{most_block_pages, walk_from};

use crate::block_buffer::HeldBlock;
use crate::cursor::TableCursor;
use crate::fault::TableFault;
use crate::index::BlockIndex;
use crate::opening::same_sum;
use block_format::{Block, BlockFault, EntryWalk, read_sum_and_walk};
use byte_fields::{Damage, Part, Row, fnv1a};
use disk_trait::{Disk, DiskFault};
use filter_api::RangeFilter;
use key_base::{MAX_BLOCK_PAGES, PAGE_BYTES};
use range_tombs::Ranges;
use std::alloc::{AllocError, Global};
use std::marker::Model;

/// The bytes of the largest block: the room that a buffer needs into which any block may be read.
pub const LARGEST_BLOCK_BYTES: usize = PAGE_BYTES * MAX_BLOCK_PAGES as usize;

/// A table on a device: its row, its index and its filter in memory.
#[derive(Drop)]
pub struct Table<F: RangeFilter> {
    row: Row,
    index: BlockIndex,
    filter: F,
}

impl<F: RangeFilter> Model for Table<F> {
    ghost use Rattle.table_file.specs.Opened.{IsOfRow, Opened};

    ghost Value = { Opened };

    ghost view = { λ t. record {
      row = t.row;
      index = t.index;
      filter = record { hash_bits = F.hash_bits t.filter; real_bits = F.real_bits t.filter; cutoff = F.cutoff t.filter; leaves = F.leaf_list t.filter };
    } };

    ghost invariant = { λ t. IsOfRow (record {
      row = t.row;
      index = t.index;
      filter = record { hash_bits = F.hash_bits t.filter; real_bits = F.real_bits t.filter; cutoff = F.cutoff t.filter; leaves = F.leaf_list t.filter };
    }) };
}

impl<F: RangeFilter> Table<F> {
    ghost use Rattle.table_file.specs.Opened.{IsOfRow, Opened};

    /// The table of a row with this index and this filter.
    pub(crate) fn new(row: Row, index: BlockIndex, filter: F) -> Table<F>
        requires { IsOfRow (record {
          row = row;
          index = index;
          filter = record { hash_bits = F.hash_bits filter; real_bits = F.real_bits filter; cutoff = F.cutoff filter; leaves = F.leaf_list filter };
        }) }
        ensures { result ≡ record {
          row = row;
          index = index;
          filter = record { hash_bits = F.hash_bits filter; real_bits = F.real_bits filter; cutoff = F.cutoff filter; leaves = F.leaf_list filter };
        } }
    {
        Table { row, index, filter }
    }

    /// The row that it was made from. Its settings are in range, and it has as many data pages as the blocks have.
    pub fn row(&self) -> &Row
        ensures row { result.now ≡ self.now.row }
        ensures range { IsRowInRange self.now.row }
        ensures pages { row_pages self.now.index.rows ≡ self.now.row.data_pages }
    {
        &self.row
    }

    /// The least of its keys.
    pub fn least(&self) -> &[u8]
        ensures { result.now ≡ self.now.index.least }
    {
        self.index.least()
    }

    /// The greatest of its keys.
    pub fn greatest(&self) -> &[u8]
        ensures { result.now ≡ (row_at self.now.index.rows (length self.now.index.rows - 1)).last }
    {
        self.index.greatest()
    }

    /// Its filter.
    pub fn filter(&self) -> &F
        ensures { record { hash_bits = F.hash_bits result.now; real_bits = F.real_bits result.now; cutoff = F.cutoff result.now; leaves = F.leaf_list result.now } ≡ self.now.filter }
    {
        &self.filter
    }

    /// The most pages that one of its blocks has: what a buffer needs room for into which any of them may be read.
    pub fn most_block_pages(&self) -> u32
        ensures is { result ≡ most_block_pages self.now.index.rows }
        ensures few { result ≤ max_block_pages }
    {
        self.index.most_pages()
    }

    /// The ranges of keys that the table deletes in older ones. They are kept in memory.
    pub fn ranges(&self) -> &Ranges
        ensures { result.now.ranges ≡ self.now.index.ranges }
    {
        self.index.ranges()
    }

    /// How many blocks it has, numbered from 0.
    pub fn blocks(&self) -> u32
        ensures { result ≡ length self.now.index.rows }
    {
        self.index.len()
    }

    /// What the table says of a key: its value, or `Some(None)` for a tombstone, and `None` where it has no entry of it. The
    /// value is a part of the buffer, which has room for the largest block of the table. At most one read, none where the filter denies
    /// the key or it lies outside the least and the greatest key, and no memory.
    pub fn get<'a, D: Disk>(
        &self,
        disk: &mut D,
        key: &[u8],
        buf: &'a mut [u8],
    ) -> Result<Option<Option<&'a [u8]>>, TableFault>
        requires room { page_bytes * most_block_pages self.now.index.rows ≤ length buf.old }
        ensures denied { block_for self.now key.now ≡ None → result ≡ Ok None }
        ensures never_memory { IfErr result IsNotMemory }
        ensures cause { (n : ℕ) → block_for self.now key.now ≡ Some n → IfErr result (HasReadCause (byte_of_page (page_at self.now n)) (D.world disk.old) (D.world disk.new)) }
        ensures fault { (n : ℕ) → IsTrue D.tells → block_for self.now key.now ≡ Some n → IfErr result (IsGetFault self.now n (D.world disk.old).seen.held) }
        ensures sound { (n : ℕ) → IsTrue D.tells → block_for self.now key.now ≡ Some n → IfOk result (λ _. IsSoundBlock self.now n (D.world disk.old).seen.held) }
        ensures said { (n : ℕ) → IsTrue D.tells → block_for self.now key.now ≡ Some n → IfOk result (λ found. option_map (λ f. option_map (λ v. v.now) f) found ≡ lookup (block_in (bytes_at self.now n (D.world disk.old).seen.held)) key.now) }
        ensures moves { ReadMoves (blocks_of_get (block_for self.now key.now)) (D.world disk.old) (D.world disk.new) }
        ensures counted { IsTrue D.tells → OnOk result ((D.world disk.new).seen.reads ≡ (D.world disk.old).seen.reads + blocks_of_get (block_for self.now key.now)) }
        ensures answer { (blocks : List (List Entry)) → IsTrue D.tells → StandsThere F.spelling self.now blocks (D.world disk.old).seen.held
            → IfOk result (λ found. option_map (λ f. option_map (λ v. v.now) f) found ≡ lookup (joined blocks) key.now) }
        ensures undamaged { (blocks : List (List Entry)) → IsTrue D.tells → StandsThere F.spelling self.now blocks (D.world disk.old).seen.held → IfErr result IsNoDamage }
    {
        let Some(n) = self.block_for(key) else {
            return Ok(None);
        };
        // no block is larger than the largest of the table
        let room = self.block_bytes(n);
        prove!(room <= buf.len());
        let size = self.fetch(disk, n, buf)?;
        self.find_read(n, &buf[..size], key)
    }

    /// The block that is read for a key: `None` where the key lies outside the least and the greatest key, or the filter
    /// denies it. No read and no memory.
    pub fn block_for(&self, key: &[u8]) -> Option<u32>
        ensures { result ≡ block_for self.now key.now }
    {
        let n = self.index.block_of(key)?;
        if self.filter.may_hold(key) {
            Some(n)
        } else {
            None
        }
    }

    /// How many bytes the block number `n` has, 1,052,672 at most.
    #[tactic(auto, using(crate::proofs::Rooms::row_within))]
    pub fn block_bytes(&self, n: u32) -> usize
        requires there { n < length self.now.index.rows }
        ensures size { result ≡ page_bytes * (row_at self.now.index.rows n).pages }
        ensures large { result ≤ largest_block }
        ensures most { result ≤ page_bytes * most_block_pages self.now.index.rows }
    {
        PAGE_BYTES * self.index.row(n as usize).pages as usize
    }

    /// Reads a block into a buffer that has room for its bytes, from the buffer's first byte on, and answers how many bytes
    /// it has. One read.
    ///
    /// `Damaged` exactly where the bytes have another sum than the index keeps; no rule of the format is looked at.
    pub fn read_block<D: Disk>(
        &self,
        disk: &mut D,
        n: u32,
        buf: &mut [u8],
    ) -> Result<usize, TableFault>
        requires there { n < length self.now.index.rows }
        requires room { page_bytes * (row_at self.now.index.rows n).pages ≤ length buf.old }
        ensures size { IfOk result (λ size. size ≡ page_bytes * (row_at self.now.index.rows n).pages) }
        ensures large { IfOk result (λ size. size ≤ largest_block) }
        ensures never_memory { IfErr result IsNotMemory }
        ensures bytes { IsTrue D.tells → IfOk result (λ size. take size buf.new ≡ bytes_at self.now n (D.world disk.old).seen.held) }
        ensures sum { IsTrue D.tells → IfOk result (λ _. (row_at self.now.index.rows n).sum ≡ fnv_of (bytes_at self.now n (D.world disk.old).seen.held)) }
        ensures damaged { IsTrue D.tells → IfErr result (IsOtherBlock self.now n (D.world disk.old).seen.held) }
        ensures length { length buf.new ≡ length buf.old }
        ensures cause { IfErr result (HasReadCause (byte_of_page (page_at self.now n)) (D.world disk.old) (D.world disk.new)) }
        ensures moves { ReadMoves 1 (D.world disk.old) (D.world disk.new) }
        ensures counted { IsTrue D.tells → OnOk result ((D.world disk.new).seen.reads ≡ (D.world disk.old).seen.reads + 1) }
    {
        let size = self.fetch(disk, n, buf)?;
        self.check_block(n, fnv1a(&buf[..size]))?;
        Ok(size)
    }

    /// Reads a block into a buffer that has room for its bytes, as [`read_block`](Table::read_block) does, and judges it. Answers
    /// how many bytes it has, and whether it has an entry of a key. One read, one pass over the bytes and a search, and no memory.
    ///
    /// `Damaged` exactly where the bytes have another sum than the index keeps, or else break a rule of the format.
    pub fn read_and_find<D: Disk>(
        &self,
        disk: &mut D,
        n: u32,
        key: &[u8],
        buf: &mut [u8],
    ) -> Result<(usize, bool), TableFault>
        requires there { n < length self.now.index.rows }
        requires room { page_bytes * (row_at self.now.index.rows n).pages ≤ length buf.old }
        ensures size { IfOk result (λ r. r.0 ≡ page_bytes * (row_at self.now.index.rows n).pages) }
        ensures large { IfOk result (λ r. r.0 ≤ largest_block) }
        ensures whole { IfOk result (λ r. block_fault (take r.0 buf.new) ≡ None) }
        ensures has { IfOk result (λ r. r.1 ≡ is_some (lookup (block_in (take r.0 buf.new)) key.now)) }
        ensures never_memory { IfErr result IsNotMemory }
        ensures bytes { IsTrue D.tells → IfOk result (λ r. take r.0 buf.new ≡ bytes_at self.now n (D.world disk.old).seen.held) }
        ensures sum { IsTrue D.tells → IfOk result (λ _. (row_at self.now.index.rows n).sum ≡ fnv_of (bytes_at self.now n (D.world disk.old).seen.held)) }
        ensures fault { IsTrue D.tells → IfErr result (IsGetFault self.now n (D.world disk.old).seen.held) }
        ensures undamaged { (blocks : List (List Entry)) → IsTrue D.tells → block_for self.now key.now ≡ Some n → StandsThere F.spelling self.now blocks (D.world disk.old).seen.held → IfErr result IsNoDamage }
        ensures length { length buf.new ≡ length buf.old }
        ensures cause { IfErr result (HasReadCause (byte_of_page (page_at self.now n)) (D.world disk.old) (D.world disk.new)) }
        ensures moves { ReadMoves 1 (D.world disk.old) (D.world disk.new) }
        ensures counted { IsTrue D.tells → OnOk result ((D.world disk.new).seen.reads ≡ (D.world disk.old).seen.reads + 1) }
    {
        let size = self.fetch(disk, n, buf)?;
        let found = self.find_read(n, &buf[..size], key)?;
        Ok((size, found.is_some()))
    }

    /// Reads the bytes of a block into a buffer that has room for them, and looks at none of them. One read.
    pub(crate) fn fetch<D: Disk>(
        &self,
        disk: &mut D,
        n: u32,
        buf: &mut [u8],
    ) -> Result<usize, DiskFault>
        requires there { n < length self.now.index.rows }
        requires room { page_bytes * (row_at self.now.index.rows n).pages ≤ length buf.old }
        ensures size { IfOk result (λ size. size ≡ page_bytes * (row_at self.now.index.rows n).pages) }
        ensures large { IfOk result (λ size. size ≤ largest_block) }
        ensures bytes { IsTrue D.tells → IfOk result (λ size. take size buf.new ≡ bytes_at self.now n (D.world disk.old).seen.held) }
        ensures length { length buf.new ≡ length buf.old }
        ensures fault { IfErr result (IsFaultOf Read (byte_of_page (page_at self.now n))) }
        ensures cause { OnErr result (Rose (D.world disk.old).seen.read_faults (D.world disk.new).seen.read_faults) }
        ensures moves { ReadMoves 1 (D.world disk.old) (D.world disk.new) }
        ensures counted { IsTrue D.tells → OnOk result ((D.world disk.new).seen.reads ≡ (D.world disk.old).seen.reads + 1) }
    {
        let block = self.index.row(n as usize);
        let at = PAGE_BYTES as u64 * (u64::from(self.row.first_page) + block.first);
        let size = PAGE_BYTES * block.pages as usize;
        disk.read(at, &mut buf[..size])?;
        Ok(size)
    }

    // Whether the bytes of the block number `n`, whose sum was seen, have the one that the index keeps.
    fn check_block(&self, n: u32, seen: u64) -> Result<(), TableFault>
        requires there { n < length self.now.index.rows }
        ensures other { (bytes : Bytes) → seen ≡ fnv_of bytes → IfErr result (IsOtherSum Part.Block (byte_of_page (page_at self.now n)) (row_at self.now.index.rows n).sum bytes) }
        ensures same { IfOk result (λ _. (row_at self.now.index.rows n).sum ≡ seen) }
    {
        let block = self.index.row(n as usize);
        let at = PAGE_BYTES as u64 * (u64::from(self.row.first_page) + block.first);
        same_sum(Part::Block, at, block.sum, seen)
    }

    // What the block number `n` says of a key, where these are its bytes as they were read just now. Another sum than the index
    // keeps is told before a rule that is broken. One pass over the bytes and a search, and no memory.
    fn find_read<'a>(
        &self,
        n: u32,
        bytes: &'a [u8],
        key: &[u8],
    ) -> Result<Option<Option<&'a [u8]>>, TableFault>
        requires there { n < length self.now.index.rows }
        requires size { length bytes.now ≤ largest_block }
        ensures sum { IfOk result (λ _. (row_at self.now.index.rows n).sum ≡ fnv_of bytes.now) }
        ensures whole { IfOk result (λ _. block_fault bytes.now ≡ None) }
        ensures said { IfOk result (λ found. option_map (λ f. option_map (λ v. v.now) f) found ≡ lookup (block_in bytes.now) key.now) }
        ensures damaged { IfErr result (IsDamagedBlock self.now n bytes.now) }
        ensures never_memory { IfErr result IsNotMemory }
    {
        let (sum, found) = Block::read_sum_and_find(bytes, key);
        self.check_block(n, sum)?;
        match found {
            Ok(found) => Ok(found),
            Err(fault) => Err(self.broken(n, fault)),
        }
    }

    /// A walk over the entries of the block number `n`, from a key on where there is a bound, if these are its bytes as they were
    /// read just now. Another sum than the index keeps is told before a rule that is broken. The key before the first that is
    /// walked is left in the buffer, which has 1,024 bytes.
    ///
    /// One pass over the bytes, and with a bound another up to it. No memory.
    pub(crate) fn walk_read(
        &self,
        n: u32,
        bytes: &[u8],
        low: Option<&[u8]>,
        buffer: &mut [u8],
    ) -> Result<EntryWalk, TableFault>
        requires there { n < length self.now.index.rows }
        requires size { length bytes.now ≤ largest_block }
        requires buffer { max_key_bytes ≤ length buffer.old }
        ensures room { length buffer.new ≡ length buffer.old }
        ensures sum { IfOk result (λ _. (row_at self.now.index.rows n).sum ≡ fnv_of bytes.now) }
        ensures whole { IfOk result (λ _. block_fault bytes.now ≡ None) }
        ensures stands { IfOk result (λ walk. StandsAfter walk buffer.new bytes.now) }
        ensures entries { IfOk result (λ walk. walked walk buffer.new bytes.now ≡ kept_from (option_map (λ k. k.now) low.entry) (block_in bytes.now)) }
        ensures some { low.entry ≡ None → IfOk result (λ walk. 1 ≤ walk.left) }
        ensures sound { IfOk result (λ walk. AllByRecursion IsEntry (walked walk buffer.new bytes.now)) }
        ensures damaged { IfErr result (IsDamagedBlock self.now n bytes.now) }
        ensures never_memory { IfErr result IsNotMemory }
    {
        let (sum, walk) = read_sum_and_walk(bytes, low, buffer);
        self.check_block(n, sum)?;
        match walk {
            Ok(walk) => Ok(walk),
            Err(fault) => Err(self.broken(n, fault)),
        }
    }

    /// What the block number `n` says of a key, where these are its bytes: its value, or `Some(None)` for a tombstone;
    /// or the first rule of the format that the bytes break. One pass over the bytes and a search, and no memory.
    pub fn find_in<'a>(
        &self,
        n: u32,
        bytes: &'a [u8],
        key: &[u8],
    ) -> Result<Option<Option<&'a [u8]>>, TableFault>
        requires there { n < length self.now.index.rows }
        requires size { length bytes.now ≤ largest_block }
        ensures whole { IfOk result (λ _. block_fault bytes.now ≡ None) }
        ensures said { IfOk result (λ found. option_map (λ f. option_map (λ v. v.now) f) found ≡ lookup (block_in bytes.now) key.now) }
        ensures damaged { IfErr result (IsBrokenBlock self.now n bytes.now) }
    {
        match Block::read_and_find(bytes, key) {
            Ok(found) => Ok(found),
            Err(fault) => Err(self.broken(n, fault)),
        }
    }

    /// A walk over its entries from a bound on. It takes all its memory: the bound, a key's 1,024 bytes, and room for the largest
    /// block of this table. No read.
    pub fn cursor(&self, alloc: Global, low: &[u8]) -> Result<TableCursor, AllocError>
        ensures { IfOk result (λ c. c ≡ walk_from self.now low.now) }
    {
        let held = HeldBlock::new(alloc, self.index.most_pages())?;
        let bound = Vec::from_slice(alloc, low)?;
        Ok(TableCursor::new(bound, self.index.first_from(low), held))
    }

    /// The fault of the block number `n`, whose bytes break a rule.
    pub(crate) fn broken(&self, n: u32, fault: BlockFault) -> TableFault
        requires there { n < length self.now.index.rows }
        requires place { fault.place ≤ largest_block }
        ensures { result ≡ TableFault.Damaged (Damage.Shape Part.Block (byte_of_page (page_at self.now n) + fault.place) fault.rule) }
    {
        let first = self.index.row(n as usize).first;
        let at = PAGE_BYTES as u64 * (u64::from(self.row.first_page) + first);
        TableFault::Damaged(Damage::Shape {
            part: Part::Block,
            at: at + fault.place as u64,
            rule: fault.rule,
        })
    }
}
