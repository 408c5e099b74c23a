//! Lines and beginnings of lines that fit a small buffer.
ghost use Rattle.std.specs.Prelude.{◌≡◌, ◌≤◌, ◌+◌, ◌++◌, length};
ghost use Rattle.arrayvec.specs.ArrayVec.{array_vec_len};
ghost use Rattle.block_model.specs.Places.{pages_of};
ghost use Rattle.filter_api.specs.Ranges.{row_settings};
ghost use Rattle.store_report.specs.Texts.{settings_words, spaced, store_text, table_head};

use arrayvec::ArrayVec;
use byte_fields::Row;
use filter_api::Settings;

// A word of six bytes, and at most eight numbers of twenty digits, each with a space or the newline behind it.
const LINE_BYTES: usize = 192;

/// A line without keys, or what comes before the keys of one.
pub(crate) type Line = ArrayVec<u8, LINE_BYTES>;

// Adds some bytes; there is room for them.
fn add(line: &mut Line, bytes: &[u8])
    requires { array_vec_len line.old + length bytes.now ≤ 192 }
    ensures { line.new.items ≡ line.old.items ++ bytes.now }
{
    match line.try_extend_from_slice(bytes) {
        Ok(()) => {}
        Err(_) => unreachable!(),
    }
}

// Adds a number and a space.
fn add_spaced(line: &mut Line, number: u64)
    requires { array_vec_len line.old + 21 ≤ 192 }
    ensures bytes { line.new.items ≡ line.old.items ++ spaced number }
    ensures room { array_vec_len line.new ≤ array_vec_len line.old + 21 }
{
    let mut digits = itoa::Buffer::new();
    add(line, digits.format(number).as_bytes());
    add(line, b" ");
}

// Adds how filters are built.
fn add_settings(line: &mut Line, settings: Settings)
    requires { array_vec_len line.old + 62 ≤ 192 }
    ensures bytes { line.new.items ≡ line.old.items ++ settings_words settings }
    ensures room { array_vec_len line.new ≤ array_vec_len line.old + 62 }
{
    add_spaced(line, u64::from(settings.hash_bits));
    add_spaced(line, u64::from(settings.real_bits));
    let mut digits = itoa::Buffer::new();
    add(line, digits.format(settings.ratio).as_bytes());
}

/// What comes before the keys of a table: its level, its first page, its pages, its entries, and how its filter was built.
pub(crate) fn head_of(row: &Row) -> Line
    ensures { result.items ≡ table_head row.now.level row.now.first_page (pages_of row.now) row.now.entries (row_settings row.now) }
{
    let pages = u64::from(row.data_pages)
        + u64::from(row.index_pages)
        + u64::from(row.filter_pages);
    let mut line = ArrayVec::new();
    add(&mut line, b"table ");
    add_spaced(&mut line, u64::from(row.level));
    add_spaced(&mut line, u64::from(row.first_page));
    add_spaced(&mut line, pages);
    add_spaced(&mut line, u64::from(row.entries));
    add_settings(&mut line, Settings::of_row(row));
    add(&mut line, b" ");
    line
}

/// The line of a store: its pages, those that are free and the most of these in one piece, its epoch, the bytes of its log
/// that are in use, and the settings of new tables.
pub fn store_line(
    pages: u64,
    free: u64,
    gap: u64,
    epoch: u64,
    log_bytes: u64,
    settings: Settings,
) -> ArrayVec<u8, LINE_BYTES>
    ensures { result.items ≡ store_text pages free gap epoch log_bytes settings }
{
    let mut line = ArrayVec::new();
    add(&mut line, b"store ");
    add_spaced(&mut line, pages);
    add_spaced(&mut line, free);
    add_spaced(&mut line, gap);
    add_spaced(&mut line, epoch);
    add_spaced(&mut line, log_bytes);
    add_settings(&mut line, settings);
    add(&mut line, b"\n");
    line
}
