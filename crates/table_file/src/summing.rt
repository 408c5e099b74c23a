//! The sums of a table's blocks, once all blocks are there.
ghost use Rattle.std.specs.Prelude.{◌≡◌, ◌≤◌, ◌<◌, ◌+◌, ◌*◌, ℕ, true, List, length, take, drop};
ghost use Rattle.byte_fields.specs.Sums.{fnv_of};
ghost use Rattle.map_model.specs.SortedMap.{Bytes};
ghost use Rattle.block_model.specs.Index.{IndexRow};
ghost use Rattle.block_model.specs.Pages.{page_bytes};
ghost use Rattle.table_file.specs.BlockRows.{AreRowsOf, block_at, rows_seen, summed_all, summed_rows};

use crate::block_row::BlockRow;
use crate::sum_four_blocks::fnv1a_four;
use byte_fields::fnv1a;
use key_base::PAGE_BYTES;

// How many blocks are summed side by side.
const SIDE_BY_SIDE: usize = 4;

/// Puts into the rows the sums of their blocks, which are these bytes, one after the other. No memory.
///
/// Four blocks of one length are summed side by side, in about the time of one.
pub(crate) fn sum_blocks(blocks: &[u8], rows: &mut [BlockRow])
    requires rows { AreRowsOf rows.old blocks.now }
    ensures rows { AreRowsOf rows.new blocks.now }
    ensures length { length rows.new ≡ length rows.old }
    ensures sums { rows_seen rows.new ≡ summed_all (rows_seen rows.old) blocks.now }
{
    let done = sum_fours(blocks, rows);
    for n in done..rows.len() {
        sum_one(blocks, rows, n);
    }
}

// Puts the sums of as many blocks as there are fours, and answers how many they are.
fn sum_fours(blocks: &[u8], rows: &mut [BlockRow]) -> usize
    requires rows { AreRowsOf rows.old blocks.now }
    ensures rows { AreRowsOf rows.new blocks.now }
    ensures length { length rows.new ≡ length rows.old }
    ensures some { result ≤ length rows.old }
    ensures sums { rows_seen rows.new ≡ summed_rows result (rows_seen rows.old) blocks.now }
{
    let fours = rows.len() / SIDE_BY_SIDE;
    for four in 0..fours {
        sum_four(blocks, rows, SIDE_BY_SIDE * four);
    }
    SIDE_BY_SIDE * fours
}

// Puts the sums of the block number `n` and of the three after it.
fn sum_four(blocks: &[u8], rows: &mut [BlockRow], n: usize)
    requires there { n + 4 ≤ length rows.old }
    requires rows { AreRowsOf rows.old blocks.now }
    ensures rows { AreRowsOf rows.new blocks.now }
    ensures length { length rows.new ≡ length rows.old }
    ensures sums { (first : List IndexRow) → rows_seen rows.old ≡ summed_rows n first blocks.now → rows_seen rows.new ≡ summed_rows (n + 4) first blocks.now }
{
    let (first, second) = (block_of(blocks, rows, n), block_of(blocks, rows, n + 1));
    let (third, fourth) = (block_of(blocks, rows, n + 2), block_of(blocks, rows, n + 3));
    let size = first.len();
    if second.len() != size || third.len() != size || fourth.len() != size {
        sum_one(blocks, rows, n);
        sum_one(blocks, rows, n + 1);
        sum_one(blocks, rows, n + 2);
        sum_one(blocks, rows, n + 3);
        return;
    }
    let sums = fnv1a_four(first, second, third, fourth);
    put_sum(rows, n, sums.first);
    put_sum(rows, n + 1, sums.second);
    put_sum(rows, n + 2, sums.third);
    put_sum(rows, n + 3, sums.fourth);
}

// Puts the sum of the block number `n`.
fn sum_one(blocks: &[u8], rows: &mut [BlockRow], n: usize)
    requires there { n < length rows.old }
    requires rows { AreRowsOf rows.old blocks.now }
    ensures rows { AreRowsOf rows.new blocks.now }
    ensures length { length rows.new ≡ length rows.old }
    ensures sums { (first : List IndexRow) → rows_seen rows.old ≡ summed_rows n first blocks.now → rows_seen rows.new ≡ summed_rows (n + 1) first blocks.now }
{
    let sum = fnv1a(block_of(blocks, rows, n));
    put_sum(rows, n, sum);
}

// The bytes of the block number `n`.
fn block_of<'a>(blocks: &'a [u8], rows: &[BlockRow], n: usize) -> &'a [u8]
    requires there { n < length rows.now }
    requires rows { AreRowsOf rows.now blocks.now }
    ensures { (first : List IndexRow) (k : ℕ) → rows_seen rows.now ≡ summed_rows k first blocks.now → result.now ≡ block_at n first blocks.now }
{
    let row = &rows[n];
    let at = PAGE_BYTES * row.first as usize;
    &blocks[at..at + PAGE_BYTES * row.pages as usize]
}

// Puts the sum of the block number `n`, the first of those that have none.
fn put_sum(rows: &mut [BlockRow], n: usize, sum: u64)
    requires { n < length rows.old }
    ensures rows { (bytes : Bytes) → AreRowsOf rows.old bytes → AreRowsOf rows.new bytes }
    ensures length { length rows.new ≡ length rows.old }
    ensures sums { (first : List IndexRow) (bytes : Bytes) → rows_seen rows.old ≡ summed_rows n first bytes → sum ≡ fnv_of (block_at n first bytes) → rows_seen rows.new ≡ summed_rows (n + 1) first bytes }
{
    rows[n].sum = sum;
}
