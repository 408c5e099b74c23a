//! What a check of a device says, in the words of the plain program.
use byte_fields::Part;
use disk_mem::MemDisk;
use plain_check::{Checked, Finding, Sizes, What};
use std::alloc::{AllocError, Global};
use std::test::Fail;
use store_check::{Check, CheckError};
use surf_filter::SurfFilter;
use test_kit::disk_of;

/// The filter of the stores.
pub type Succinct = SurfFilter<Global>;

// What is wrong, in those words.
fn plain_what(what: store_check::What) -> What {
    match what {
        store_check::What::OtherSum { kept, seen } => What::OtherSum { kept, seen },
        store_check::What::BrokenRule { rule } => What::BrokenRule { rule },
        store_check::What::WrongKeys => What::WrongKeys,
        store_check::What::WrongCount => What::WrongCount,
        store_check::What::WrongLeaf { number } => What::WrongLeaf {
            number: u64::from(number),
        },
    }
}

fn push(found: &mut Vec<Finding>, part: Part, at: u64, what: What) -> Result<(), AllocError> {
    found.push(Finding { part, at, what })?;
    Ok(())
}

// Asks for one finding more. Whether there was one.
fn ask(check: &mut Check, disk: &mut MemDisk, found: &mut Vec<Finding>) -> Result<bool, Fail> {
    match check.next::<Succinct, MemDisk>(disk)? {
        Some(next) => {
            push(found, next.part, next.at, plain_what(next.what))?;
            Ok(true)
        }
        None => Ok(false),
    }
}

// All that a check finds.
fn all(alloc: Global, check: &mut Check, disk: &mut MemDisk) -> Result<Vec<Finding>, Fail> {
    let mut found = Vec::new(alloc);
    for _ in 0..10_000 {
        if !ask(check, disk, &mut found)? {
            return Ok(found);
        }
    }
    Err(Fail::from("too many findings"))
}

// What a sound store has.
fn sizes(check: &Check, disk: &mut MemDisk) -> Result<Sizes, Fail> {
    let has = check.summary::<Succinct, MemDisk>(disk)?;
    Ok(Sizes {
        tables: has.tables,
        entries: has.entries,
        live: has.live,
        log: has.log,
    })
}

/// What a check says of a device that holds these bytes.
pub fn checked(alloc: Global, bytes: &[u8]) -> Result<Checked, Fail> {
    let mut disk = disk_of(alloc, bytes)?;
    let mut check = match Check::start(alloc, &mut *disk) {
        Ok(check) => Box::new(alloc, check)?,
        Err(CheckError::NotAStore) => return Ok(Checked::NoStore),
        Err(why) => return Err(Fail::from(why)),
    };
    let found = all(alloc, &mut check, &mut disk)?;
    if !found.is_empty() {
        return Ok(Checked::Wrong(found));
    }
    Ok(Checked::Sound(sizes(&check, &mut disk)?))
}
