//! Laws of the limits and of shared prefixes; the functions do nothing.
ghost use Rattle.std.specs.Prelude.{◌≡◌, ◌*◌, ◌+◌};
ghost use Rattle.key_base.specs.Prefixes.{CloserDecides, RestsDecide, SharedAndRest, RestComparesAsKey};
ghost use Rattle.key_base.specs.Limits.{max_key_bytes, max_bound_bytes, max_value_bytes, max_logged_value_bytes, max_line_bytes, max_input_bytes, piece_bytes, max_range_pairs, page_bytes, min_device_pages, max_device_pages, log_pages, log_bytes, slot_bytes, first_table_page, max_block_entries, max_block_pages, restart_entries, entry_head_bytes, last_epoch, max_tables, max_level, merge_data_pages, max_hash_bits, max_real_bits, max_ratio};

use crate::limits::{
    ENTRY_HEAD_BYTES, FIRST_TABLE_PAGE, LAST_EPOCH, LOG_BYTES, LOG_PAGES, MAX_BLOCK_ENTRIES,
    MAX_BLOCK_PAGES, MAX_BOUND_BYTES, MAX_DEVICE_PAGES, MAX_HASH_BITS, MAX_INPUT_BYTES,
    MAX_KEY_BYTES, MAX_LEVEL, MAX_LINE_BYTES, MAX_LOGGED_VALUE_BYTES, MAX_RANGE_PAIRS, MAX_RATIO,
    MAX_REAL_BITS, MAX_TABLES, MAX_VALUE_BYTES, MERGE_DATA_PAGES, MIN_DEVICE_PAGES, PAGE_BYTES,
    PIECE_BYTES, RESTART_ENTRIES, SLOT_BYTES,
};

/// Law: each constant for code is the limit of that name.
#[tactic(auto, unfolding(crate::specs::Limits::last_epoch))]
pub fn constants_are_limits()
    ensures max_key_bytes { MAX_KEY_BYTES ≡ max_key_bytes }
    ensures max_bound_bytes { MAX_BOUND_BYTES ≡ max_bound_bytes }
    ensures max_value_bytes { MAX_VALUE_BYTES ≡ max_value_bytes }
    ensures max_logged_value_bytes { MAX_LOGGED_VALUE_BYTES ≡ max_logged_value_bytes }
    ensures max_line_bytes { MAX_LINE_BYTES ≡ max_line_bytes }
    ensures max_input_bytes { MAX_INPUT_BYTES ≡ max_input_bytes }
    ensures piece_bytes { PIECE_BYTES ≡ piece_bytes }
    ensures max_range_pairs { MAX_RANGE_PAIRS ≡ max_range_pairs }
    ensures page_bytes { PAGE_BYTES ≡ page_bytes }
    ensures min_device_pages { MIN_DEVICE_PAGES ≡ min_device_pages }
    ensures max_device_pages { MAX_DEVICE_PAGES ≡ max_device_pages }
    ensures log_pages { LOG_PAGES ≡ log_pages }
    ensures log_bytes { LOG_BYTES ≡ log_bytes }
    ensures slot_bytes { SLOT_BYTES ≡ slot_bytes }
    ensures first_table_page { FIRST_TABLE_PAGE ≡ first_table_page }
    ensures max_block_entries { MAX_BLOCK_ENTRIES ≡ max_block_entries }
    ensures entry_head_bytes { ENTRY_HEAD_BYTES ≡ entry_head_bytes }
    ensures max_block_pages { MAX_BLOCK_PAGES ≡ max_block_pages }
    ensures restart_entries { RESTART_ENTRIES ≡ restart_entries }
    ensures last_epoch { LAST_EPOCH ≡ last_epoch }
    ensures max_tables { MAX_TABLES ≡ max_tables }
    ensures max_level { MAX_LEVEL ≡ max_level }
    ensures merge_data_pages { MERGE_DATA_PAGES ≡ merge_data_pages }
    ensures max_hash_bits { MAX_HASH_BITS ≡ max_hash_bits }
    ensures max_real_bits { MAX_REAL_BITS ≡ max_real_bits }
    ensures max_ratio { MAX_RATIO ≡ max_ratio }
{}

/// Law: the bytes of a log area are those of its pages.
pub fn log_area()
    ensures { log_bytes ≡ page_bytes * log_pages }
{}

/// Law: the tables begin behind two slots and two log areas.
pub fn first_table()
    ensures { page_bytes * first_table_page ≡ 2 * slot_bytes + 2 * log_bytes }
{}

/// Law: of three byte strings, the two that have more alike compare alike with the third; where two begin as the third
/// does for a while, their rests decide; and a key is what it shares with the one before and its rest.
pub fn shared_prefixes()
    ensures closer { CloserDecides }
    ensures rests { RestsDecide }
    ensures whole { SharedAndRest }
    ensures spelled { RestComparesAsKey }
{}
