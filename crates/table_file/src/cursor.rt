//! The walk over a table's entries.
ghost use Rattle.std.specs.Prelude.{◌≡◌, ◌<◌, ◌≤◌, ◌+◌, ◌^◌, ℕ, true, false, [], length, is_some, Option, Some, None, IsTrue, IsOk, IfOk, IfErr, IfSome, OnOk, OnErr, if◌then◌else◌};
ghost use Rattle.std.specs.Option.{option_map};
ghost use Rattle.std.specs.Borrow.{sem};
ghost use Rattle.disk_trait.specs.World.{ReadMoves};
ghost use Rattle.entry_model.specs.Entries.{IsEntry, entry_of};
ghost use Rattle.block_model.specs.BlockReading.{block_in};
ghost use Rattle.block_model.specs.Places.{byte_of_page};
ghost use Rattle.block_format.specs.Walking.{kept_from};
ghost use Rattle.table_file.specs.Faults.{HasReadCause, IsNotMemory};
ghost use Rattle.table_file.specs.Search.{IsGetFault, IsSoundBlock, bytes_at, page_at};
ghost use Rattle.table_file.specs.Walks.{BeginsWell, HandsOut, IsSettled, WalkGoesOn, blocks_on, first_of, is_due, most_block_pages, others_of, to_come};

use crate::block_buffer::HeldBlock;
use crate::fault::TableFault;
use crate::table::Table;
use disk_trait::Disk;
use filter_api::RangeFilter;
use std::marker::Model;

/// A walk over the entries of a table from a bound on, seen as where it is. It keeps a buffer for one block and one for a key, and borrows
/// no table: each call is handed the same one.
#[derive(Drop)]
pub struct TableCursor {
    low: Vec<u8>,
    // whether a block was read
    begun: bool,
    // the block that is read next
    block: u32,
    held: HeldBlock,
}

impl Model for TableCursor {
    ghost use Rattle.std.specs.Prelude.{Some, None, if◌then◌else◌};
    ghost use Rattle.table_file.specs.Walks.{CursorWalk};

    ghost Value = { CursorWalk };

    ghost view = { λ c. record { room = c.held.room; bound = if c.begun then None else Some c.low.items; block = c.block; now = c.held.now; later = c.held.later } };
}

impl TableCursor {
    ghost use Rattle.table_file.specs.Lends.{cursor_ends};

    /// A walk from a bound on that begins at a block.
    pub(crate) fn new(low: Vec<u8>, block: u32, held: HeldBlock) -> TableCursor
        requires { (held.now ≡ None) × (held.later ≡ []) }
        ensures { result ≡ record { room = held.room; bound = Some low.items; block = block; now = None; later = [] } }
    {
        TableCursor {
            low,
            begun: false,
            block,
            held,
        }
    }

    /// Whether the next step reads a block. If not, it reads none.
    pub fn due<F: RangeFilter>(&self, table: &Table<F>) -> bool
        ensures due { result ≡ is_due self.now (length table.now.index.rows) }
        ensures few { result ≡ true → self.now.block + 1 < 2 ^ 32 }
    {
        self.held.is_empty() && self.block < table.blocks()
    }

    /// Goes on to the next entry, and answers whether there is one: it is then at hand. No memory.
    ///
    /// Reads exactly where a block is [`due`](TableCursor::due), and then one; where the first block has no entry from the
    /// bound on, which no sound table has, the one after it too. At `Err` it is where it stood, and none is at hand.
    //
    // It goes into its callers: where one has asked whether a block is due, it is not asked again.
    #[inline(always)]
    pub fn advance<F: RangeFilter, D: Disk>(
        &mut self,
        disk: &mut D,
        table: &Table<F>,
    ) -> Result<bool, TableFault>
        requires room { most_block_pages table.now.index.rows ≤ self.old.room }
        ensures room { self.new.room ≡ self.old.room }
        ensures said { IfOk result (λ some. some ≡ is_some self.new.now) }
        ensures hands_out { IsTrue D.tells → OnOk result (HandsOut self.old self.new (blocks_on table.now (D.world disk.old).seen.held)) }
        ensures stays { IsTrue D.tells → OnErr result (to_come self.new (blocks_on table.now (D.world disk.old).seen.held) ≡ to_come self.old (blocks_on table.now (D.world disk.old).seen.held)) }
        ensures none_at_hand { OnErr result (self.new.now ≡ None) }
        ensures idle { is_due self.old (length table.now.index.rows) ≡ false → IsOk result × ReadMoves 0 (D.world disk.old) (D.world disk.new) }
        ensures onward { self.old.block ≤ self.new.block }
        ensures goes_on { WalkGoesOn self.old self.new }
        ensures one { IsTrue D.tells → BeginsWell self.old (blocks_on table.now (D.world disk.old).seen.held) → OnOk result (self.new.block ≡ self.old.block + (if is_due self.old (length table.now.index.rows) then 1 else 0)) }
        ensures sound { (n : ℕ) → IsTrue D.tells → self.old.block ≤ n → n < self.new.block → IsSoundBlock table.now n (D.world disk.old).seen.held }
        ensures never_memory { IfErr result IsNotMemory }
        ensures there { OnErr result (self.new.block < length table.now.index.rows) }
        ensures cause { IfErr result (HasReadCause (byte_of_page (page_at table.now self.new.block)) (D.world disk.old) (D.world disk.new)) }
        ensures fault { IsTrue D.tells → IfErr result (IsGetFault table.now self.new.block (D.world disk.old).seen.held) }
        ensures moves { ReadMoves 2 (D.world disk.old) (D.world disk.new) }
        ensures counted { IsTrue D.tells → OnOk result ((D.world disk.new).seen.reads + self.old.block ≡ (D.world disk.old).seen.reads + self.new.block) }
        ensures bounded { IsTrue D.tells → BeginsWell self.old (blocks_on table.now (D.world disk.old).seen.held) → ReadMoves (if is_due self.old (length table.now.index.rows) then 1 else 0) (D.world disk.old) (D.world disk.new) }
        ensures at_hand { is_due self.old (length table.now.index.rows) ≡ false → (self.new.now ≡ first_of self.old.later) × (self.new.later ≡ others_of self.old.later) × (self.new.block ≡ self.old.block) }
        ensures rises { is_due self.old (length table.now.index.rows) ≡ true → OnOk result (self.old.block < self.new.block) }
        ensures ends { IfOk result (λ some. some ≡ false → (length table.now.index.rows ≤ self.new.block) × (self.new.later ≡ [])) }
        ensures within { self.old.block ≤ length table.now.index.rows → self.new.block ≤ length table.now.index.rows }
    {
        self.fill(disk, table)?;
        self.fill(disk, table)?;
        Ok(self.held.step())
    }

    /// The next entry: [`advance`](TableCursor::advance), and then the [`entry`](TableCursor::entry) at hand. Where work goes
    /// on meanwhile, the two steps hold the cursor no longer than they need it.
    ///
    /// It reads as [`advance`](TableCursor::advance) does: nothing where no block is due. At `Err` no entry is lost: the next
    /// step tries again.
    pub fn next<F: RangeFilter, D: Disk>(
        &mut self,
        disk: &mut D,
        table: &Table<F>,
    ) -> Result<Option<(&[u8], Option<&[u8]>)>, TableFault>
        requires { most_block_pages table.now.index.rows ≤ self.old.room }
        ensures* after { sem 𝓛 (cursor_ends self.entry (λ walk. (walk.room ≡ self.old.room) × (IsTrue D.tells → OnOk result (HandsOut self.old walk (blocks_on table.now (D.world disk.old).seen.held))) × IfOk result (λ found. option_map (λ f. entry_of f.0.now (option_map (λ v. v.now) f.1)) found ≡ walk.now)
            × (IsTrue D.tells → OnErr result (to_come walk (blocks_on table.now (D.world disk.old).seen.held) ≡ to_come self.old (blocks_on table.now (D.world disk.old).seen.held))) × OnErr result (walk.now ≡ None)
            × WalkGoesOn self.old walk × (self.old.block ≤ walk.block)
            × (IsTrue D.tells → BeginsWell self.old (blocks_on table.now (D.world disk.old).seen.held) → OnOk result (walk.block ≡ self.old.block + (if is_due self.old (length table.now.index.rows) then 1 else 0))))) }
        ensures sound { IfOk result (λ found. IfSome found (λ f. IsEntry (entry_of f.0.now (option_map (λ v. v.now) f.1)))) }
        ensures idle { is_due self.old (length table.now.index.rows) ≡ false → IsOk result × ReadMoves 0 (D.world disk.old) (D.world disk.new) }
        ensures never_memory { IfErr result IsNotMemory }
        ensures cause { IfErr result (λ why. (n : ℕ) × (self.old.block ≤ n) × (n < length table.now.index.rows) × HasReadCause (byte_of_page (page_at table.now n)) (D.world disk.old) (D.world disk.new) why) }
        ensures fault { IsTrue D.tells → IfErr result (λ why. (n : ℕ) × (self.old.block ≤ n) × (n < length table.now.index.rows) × IsGetFault table.now n (D.world disk.old).seen.held why) }
        ensures moves { ReadMoves 2 (D.world disk.old) (D.world disk.new) }
        ensures bounded { IsTrue D.tells → BeginsWell self.old (blocks_on table.now (D.world disk.old).seen.held) → ReadMoves (if is_due self.old (length table.now.index.rows) then 1 else 0) (D.world disk.old) (D.world disk.new) }
        ensures counted { IsTrue D.tells → BeginsWell self.old (blocks_on table.now (D.world disk.old).seen.held) → OnOk result ((D.world disk.new).seen.reads ≡ (D.world disk.old).seen.reads + (if is_due self.old (length table.now.index.rows) then 1 else 0)) }
    {
        self.advance(disk, table)?;
        Ok(self.entry())
    }

    /// The key and the value of the entry at hand, `None` for a tombstone's value, or `None` where none is at hand. They
    /// are parts of the cursor's buffers.
    pub fn entry(&self) -> Option<(&[u8], Option<&[u8]>)>
        ensures now { option_map (λ found. entry_of found.0.now (option_map (λ v. v.now) found.1)) result ≡ self.now.now }
        ensures sound { IfSome result (λ found. IsEntry (entry_of found.0.now (option_map (λ v. v.now) found.1))) }
    {
        self.held.entry()
    }

    // Reads the next block where one is due. The entries to come are the same.
    //
    // Few steps find one due: the question goes into each step, the reading into none.
    #[inline(always)]
    fn fill<F: RangeFilter, D: Disk>(
        &mut self,
        disk: &mut D,
        table: &Table<F>,
    ) -> Result<(), TableFault>
        requires room { most_block_pages table.now.index.rows ≤ self.old.room }
        ensures room { self.new.room ≡ self.old.room }
        ensures same { IsTrue D.tells → to_come self.new (blocks_on table.now (D.world disk.old).seen.held) ≡ to_come self.old (blocks_on table.now (D.world disk.old).seen.held) }
        ensures settled { OnOk result (IsSettled self.new (length table.now.index.rows)) }
        ensures done { IsSettled self.old (length table.now.index.rows) → OnOk result (is_due self.new (length table.now.index.rows) ≡ false) }
        ensures none_at_hand { OnErr result (self.new.now ≡ None) }
        ensures idle { is_due self.old (length table.now.index.rows) ≡ false → IsOk result × (self.new ≡ self.old) × ReadMoves 0 (D.world disk.old) (D.world disk.new) }
        ensures onward { self.old.block ≤ self.new.block }
        ensures goes_on { WalkGoesOn self.old self.new }
        ensures one { IsTrue D.tells → is_due self.old (length table.now.index.rows) ≡ true → BeginsWell self.old (blocks_on table.now (D.world disk.old).seen.held) → OnOk result ((is_due self.new (length table.now.index.rows) ≡ false) × (self.new.block ≡ self.old.block + 1)) }
        ensures sound { (n : ℕ) → IsTrue D.tells → self.old.block ≤ n → n < self.new.block → IsSoundBlock table.now n (D.world disk.old).seen.held }
        ensures never_memory { IfErr result IsNotMemory }
        ensures there { OnErr result (self.new.block < length table.now.index.rows) }
        ensures cause { IfErr result (HasReadCause (byte_of_page (page_at table.now self.new.block)) (D.world disk.old) (D.world disk.new)) }
        ensures fault { IsTrue D.tells → IfErr result (IsGetFault table.now self.new.block (D.world disk.old).seen.held) }
        ensures moves { ReadMoves 1 (D.world disk.old) (D.world disk.new) }
        ensures counted { IsTrue D.tells → OnOk result ((D.world disk.new).seen.reads + self.old.block ≡ (D.world disk.old).seen.reads + self.new.block) }
        ensures rises { is_due self.old (length table.now.index.rows) ≡ true → OnOk result (self.new.block ≡ self.old.block + 1) }
        ensures within { self.old.block ≤ length table.now.index.rows → self.new.block ≤ length table.now.index.rows }
    {
        if self.due(table) {
            return self.load(disk, table);
        }
        Ok(())
    }

    // Reads the next block. At `Err` the walk is where it stood.
    #[inline(never)]
    #[tactic(auto, using(crate::proofs::Rooms::row_within))]
    fn load<F: RangeFilter, D: Disk>(
        &mut self,
        disk: &mut D,
        table: &Table<F>,
    ) -> Result<(), TableFault>
        requires due { is_due self.old (length table.now.index.rows) ≡ true }
        requires few { self.old.block + 1 < 2 ^ 32 }
        requires room { most_block_pages table.now.index.rows ≤ self.old.room }
        ensures room { self.new.room ≡ self.old.room }
        ensures none { self.new.now ≡ None }
        ensures bound { OnErr result (self.new.bound ≡ self.old.bound) }
        ensures same_block { OnErr result (self.new.block ≡ self.old.block) }
        ensures emptied { OnErr result (self.new.later ≡ []) }
        ensures begun { OnOk result (self.new.bound ≡ None) }
        ensures next_block { OnOk result (self.new.block ≡ self.old.block + 1) }
        ensures entries { IsTrue D.tells → OnOk result (self.new.later ≡ kept_from self.old.bound (block_in (bytes_at table.now self.old.block (D.world disk.old).seen.held))) }
        ensures some { self.old.bound ≡ None → OnOk result (1 ≤ length self.new.later) }
        ensures sound { IsTrue D.tells → IfOk result (λ _. IsSoundBlock table.now self.old.block (D.world disk.old).seen.held) }
        ensures never_memory { IfErr result IsNotMemory }
        ensures cause { IfErr result (HasReadCause (byte_of_page (page_at table.now self.old.block)) (D.world disk.old) (D.world disk.new)) }
        ensures fault { IsTrue D.tells → IfErr result (IsGetFault table.now self.old.block (D.world disk.old).seen.held) }
        ensures moves { ReadMoves 1 (D.world disk.old) (D.world disk.new) }
        ensures counted { IsTrue D.tells → OnOk result ((D.world disk.new).seen.reads ≡ (D.world disk.old).seen.reads + 1) }
    {
        let low = bound_of(self.begun, &self.low);
        self.held.read(disk, table, self.block, low)?;
        self.begun = true;
        self.block += 1;
        Ok(())
    }
}

// The bound of the next block, until one was read.
fn bound_of(begun: bool, low: &[u8]) -> Option<&[u8]>
    ensures bound { option_map (λ k. k.now) result ≡ (if begun then None else Some low.now) }
    ensures none { IsTrue begun → result ≡ None }
{
    if begun { None } else { Some(low) }
}
