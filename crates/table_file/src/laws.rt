//! The laws of tables that are opened, and of tables that are on a device. They are proved and never called.
ghost use Rattle.table_file.specs.Laws.{OpenedStands, StandingBlocks, StandingIsKept, StandingKeys, StandingWalks, WrittenIsShown};

/// A table that was opened from bytes that spell the table of some blocks is the table of these blocks.
pub fn opened_tables_stand()
    ensures { OpenedStands }
{}

/// What is on a device once parts were written shows these parts, without the zero bytes after them.
pub fn written_parts_are_shown()
    ensures { WrittenIsShown }
{}

/// A table that is on a device is read as its blocks, whether a block is read or was kept from an earlier read: what the
/// parts of a [`get`](crate::Table::get) and a walk find are its entries. For a key a block is read exactly where the filter
/// admits it and it lies within the least and the greatest key.
pub fn standing_tables_are_read()
    ensures blocks { StandingBlocks }
    ensures keys { StandingKeys }
    ensures walks { StandingWalks }
{}

/// What is written apart from the pages of a table that is on a device, done or cut short, keeps it there.
pub fn standing_tables_are_kept()
    ensures { StandingIsKept }
{}
