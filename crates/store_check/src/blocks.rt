//! The blocks of a table: each is read, judged, and compared with the index and with the block before.
ghost use Rattle.std.specs.Prelude.{◌≡◌, ◌≤◌, ◌<◌, ◌+◌, ◌-◌, ◌*◌, ◌^◌, ◌++◌, ◌&&◌, [], length, slice_index_or, bytes_eq, true, IsTrue, IfOk, IfErr, OnOk, Some, None};
ghost use Rattle.disk_trait.specs.Image.{Image};
ghost use Rattle.disk_trait.specs.World.{ReadMoves};
ghost use Rattle.entry_model.specs.Entries.{keys_of};
ghost use Rattle.block_format.specs.Walking.{StandsAfter, walked};
ghost use Rattle.block_model.specs.BlockReading.{block_fault, block_in};
ghost use Rattle.block_model.specs.Pages.{page_bytes};
ghost use Rattle.key_base.specs.Limits.{max_key_bytes};
ghost use Rattle.image_model.specs.Findings.{AtLeast, may_follow};
ghost use Rattle.store_check.specs.Befores.{before_of};
ghost use Rattle.store_check.specs.Causes.{HasCause, IsFree};
ghost use Rattle.store_check.specs.Keys.{AreRisen};
ghost use Rattle.store_check.specs.Places.{damage_at, page_of, part_of};

use crate::before::{Before, are_same};
use crate::error::CheckError;
use crate::finding::{Finding, What, found_by};
use block_format::{EntryWalk, read_sum_and_walk};
use byte_fields::{Damage, Part};
use disk_trait::Disk;
use key_base::{KeyList, MAX_KEY_BYTES, PAGE_BYTES};
use std::alloc::{AllocError, Global};
use table_file::Index;

/// What is known of a table after some of its blocks.
#[derive(Drop)]
pub(crate) struct BlocksSeen {
    /// The key before the next block.
    pub before: Before,
    /// The keys of all that are not damaged.
    pub keys: KeyList,
    /// None is damaged.
    pub sound: bool,
}

impl BlocksSeen {
    ghost use Rattle.store_check.specs.Blocks.{IsJudged};

    /// Before the first block of a table with this least key.
    pub(crate) fn new(alloc: Global, least: &[u8]) -> Result<BlocksSeen, AllocError>
        ensures before { IfOk result (λ seen. before_of seen.before ≡ AtLeast least.now) }
        ensures keys { IfOk result (λ seen. seen.keys ≡ []) }
        ensures sound { IfOk result (λ seen. seen.sound ≡ true) }
    {
        let least = Vec::from_slice(alloc, least)?;
        Ok(BlocksSeen {
            before: Before::AtLeast(least),
            keys: KeyList::new(alloc),
            sound: true,
        })
    }

    /// Judges the bytes of the block number `n`, and answers what is wrong with it. Where it is not damaged its keys are added.
    pub(crate) fn judge(
        &mut self,
        alloc: Global,
        index: &Index,
        n: u32,
        bytes: &[u8],
    ) -> Result<Option<Finding>, AllocError>
        requires there { n < length index.now.index.rows }
        requires place { page_bytes * page_of index.now n + length bytes.now ≤ 2 ^ 36 }
        ensures judged { (image : Image) → part_of index.now n image ≡ bytes.now → IfOk result (IsJudged index.now n image self.old self.new) }
        ensures risen { AreRisen (before_of self.old.before) self.old.keys
            → IfOk result (λ found. found ≡ None → AreRisen (before_of self.new.before) self.new.keys × (1 ≤ length self.new.keys)) }
    {
        let mut buffer = [0; MAX_KEY_BYTES];
        match sound_walk(index, n, bytes, &mut buffer) {
            Ok(walk) => self.take(alloc, index, n, bytes, walk, &mut buffer),
            Err(damage) => {
                self.before = Before::Unknown;
                self.sound = false;
                Ok(Some(found_by(damage)))
            }
        }
    }

    // Adds the keys of a block that is not damaged, and answers whether they are wrong.
    fn take(
        &mut self,
        alloc: Global,
        index: &Index,
        n: u32,
        bytes: &[u8],
        walk: EntryWalk,
        buffer: &mut [u8],
    ) -> Result<Option<Finding>, AllocError>
        requires there { n < length index.now.index.rows }
        requires place { page_bytes * page_of index.now n ≤ 2 ^ 36 }
        requires room { max_key_bytes ≤ length buffer.old }
        requires stands { StandsAfter walk buffer.old bytes.now }
        requires all { walked walk buffer.old bytes.now ≡ block_in bytes.now }
        requires whole { block_fault bytes.now ≡ None }
        ensures judged { (image : Image) → part_of index.now n image ≡ bytes.now → damage_at index.now n image ≡ None
            → IfOk result (IsJudged index.now n image self.old self.new) }
        ensures risen { AreRisen (before_of self.old.before) self.old.keys
            → IfOk result (λ found. found ≡ None → AreRisen (before_of self.new.before) self.new.keys × (1 ≤ length self.new.keys)) }
    {
        let first = self.keys.len();
        add_keys(bytes, walk, buffer, &mut self.keys)?;
        let right = self.has_its_keys(first, index.last(n));
        let last = Vec::from_slice(alloc, self.keys.get(self.keys.len() - 1))?;
        self.before = Before::After(last);
        if right {
            return Ok(None);
        }
        Ok(Some(Finding {
            part: Part::Block,
            at: PAGE_BYTES as u64 * index.first_page(n),
            what: What::WrongKeys,
        }))
    }

    // Whether the keys from a number on end with the one that the index says, and begin as they may.
    fn has_its_keys(&self, first: usize, last: &[u8]) -> bool
        requires { first < length self.now.keys }
        ensures { result ≡ (bytes_eq last.now (slice_index_or self.now.keys (length self.now.keys - 1) [])
            && may_follow (before_of self.now.before) (slice_index_or self.now.keys first [])) }
    {
        are_same(last, self.keys.get(self.keys.len() - 1)) && self.before.lets(self.keys.get(first))
    }
}

// Adds the keys of the entries that a walk comes by.
fn add_keys(
    bytes: &[u8],
    walk: EntryWalk,
    buffer: &mut [u8],
    keys: &mut KeyList,
) -> Result<(), AllocError>
    requires room { max_key_bytes ≤ length buffer.old }
    requires stands { StandsAfter walk buffer.old bytes.now }
    ensures { OnOk result (keys.new ≡ keys.old ++ keys_of (walked walk buffer.old bytes.now)) }
{
    let mut on = walk;
    for _ in 0..walk.left {
        on.advance(bytes, buffer);
        keys.push(on.key(buffer))?;
    }
    Ok(())
}

/// A walk over the entries of the block number `n`, whose bytes these are, or its damage: another sum before a broken rule.
pub(crate) fn sound_walk(
    index: &Index,
    n: u32,
    bytes: &[u8],
    buffer: &mut [u8],
) -> Result<EntryWalk, Damage>
    requires there { n < length index.now.index.rows }
    requires place { page_bytes * page_of index.now n + length bytes.now ≤ 2 ^ 36 }
    requires room { max_key_bytes ≤ length buffer.old }
    ensures damaged { (image : Image) → part_of index.now n image ≡ bytes.now → IfErr result (λ damage. damage_at index.now n image ≡ Some damage) }
    ensures undamaged { (image : Image) → part_of index.now n image ≡ bytes.now → OnOk result (damage_at index.now n image ≡ None) }
    ensures whole { OnOk result (block_fault bytes.now ≡ None) }
    ensures room { length buffer.new ≡ length buffer.old }
    ensures stands { IfOk result (λ walk. StandsAfter walk buffer.new bytes.now) }
    ensures all { IfOk result (λ walk. walked walk buffer.new bytes.now ≡ block_in bytes.now) }
{
    let at = PAGE_BYTES as u64 * index.first_page(n);
    let kept = index.block_sum(n);
    let (seen, walk) = read_sum_and_walk(bytes, None, buffer);
    if seen != kept {
        return Err(Damage::Sum {
            part: Part::Block,
            at,
            kept,
            seen,
        });
    }
    match walk {
        Ok(walk) => Ok(walk),
        Err(fault) => Err(Damage::Shape {
            part: Part::Block,
            at: at + fault.place as u64,
            rule: fault.rule,
        }),
    }
}

/// The bytes of the block number `n`. One read.
pub(crate) fn read_bytes<D: Disk>(
    alloc: Global,
    disk: &mut D,
    index: &Index,
    n: u32,
) -> Result<Vec<u8>, CheckError>
    requires { n < length index.now.index.rows }
    ensures read { IsTrue D.tells → IfOk result (λ bytes. bytes.items ≡ part_of index.now n (D.world disk.old).seen.held) }
    ensures place { IfOk result (λ bytes. page_bytes * page_of index.now n + length bytes.items ≤ 2 ^ 36) }
    ensures cause { IfErr result (HasCause (D.world disk.old) (D.world disk.new)) }
    ensures free { IfErr result IsFree }
    ensures moves { ReadMoves 1 (D.world disk.old) (D.world disk.new) }
{
    let mut bytes = vec![in alloc; 0; index.block_bytes(n)]?;
    disk.read(PAGE_BYTES as u64 * index.first_page(n), &mut bytes)?;
    Ok(bytes)
}
