//! Loads, and what the next run finds of them.
use crate::asserts::{check_same, check_same_at, check_that, check_that_at};
use crate::runs::{
    Ended, base_disk, boxed, calls_of, check, commanded, disk_of, failing, formatted, left_behind,
    lost, opened, outside, ran, served, written,
};
use disk_mem::MemDisk;
use disk_trait::Disk;
use outside::MemOutside;
use std::alloc::Global;
use std::process::Abort;
use std::test::Fail;
use test_runs::{LAST_EPOCH_SUM, four_tables};

const ONE_STEP: &[u8] = b"load steps 1 refused 0 live 1 sum 6c576fac43fd007c\n";

#[test]
fn one_step_of_two_seeds(rt: HostRuntime) -> Result<(), Fail> {
    let alloc = rt.alloc();
    let rows: [(&str, &[u8], &[u8]); 2] = [
        (
            "load --seed 1 --count 1",
            ONE_STEP,
            b"val 7c00fd43ac6f576c\nnone\n",
        ),
        (
            "load --seed=0 --count=1",
            b"load steps 1 refused 0 live 1 sum 14057b7ef767814f\n",
            b"none\nval 4f8167f77e7b0514\n",
        ),
    ];
    for (words, line, found) in rows {
        let end = commanded(alloc, words, base_disk(alloc)?)?;
        check(&rt, &end, 0, line, 0);
        let again = served(alloc, end.disk, b"get 6c576f\nget 14057b\n")?;
        check(&rt, &again, 0, found, 1);
    }
    Ok(())
}

const USAGE: &[u8] =
    b"usage: surfstore PATH format|serve|load|settings|grow|check|fstbuild|fstserve\n";

// Words over a device without a store, the status, and the line that is said.
const WORDS: [(&str, u8, &[u8]); 7] = [
    ("load --seed 1", 2, USAGE),
    ("load --count 1", 2, USAGE),
    ("load --seed 18446744073709551616 --count 1", 2, USAGE),
    ("load --seed 1 --count 1 --count 1", 2, USAGE),
    ("load --seed 1 --count 1", 8, b"not a store\n"),
    ("load --seed 1 --count 0", 8, b"bad settings count\n"),
    ("load --seed 1 --count 1000001", 8, b"bad settings count\n"),
];

// What is out of range is told before any call.
#[test]
fn words_of_no_load(rt: HostRuntime) -> Result<(), Fail> {
    let alloc = rt.alloc();
    for (number, (words, status, line)) in WORDS.iter().copied().enumerate() {
        let end = commanded(alloc, words, disk_of(alloc, b"")?)?;
        check(&rt, &end, status, line, number as u64);
        check_that_at(&rt, &words, number == 4 || end.disk.calls() == 0);
    }
    Ok(())
}

// The line is that of the same steps on std's ordered map, in `line_tests`. The same steps once more leave the same map.
#[test]
fn two_thousand_steps_of_seed_7(rt: HostRuntime) -> Result<(), Fail> {
    let alloc = rt.alloc();
    let mut disk = formatted(alloc, "format --pages 4096 --variant mixed")?;
    let line = b"load steps 2000 refused 0 live 1778 sum ea61496600cf4337\n";
    for _ in 0..2 {
        let end = commanded(alloc, "load --seed 7 --count 2000", disk)?;
        check(&rt, &end, 0, line, 0);
        disk = end.disk;
    }
    let again = served(alloc, disk, b"count - ffffff\n")?;
    check(&rt, &again, 0, b"count 1778\n", 1);
    Ok(())
}

// Puts so many pairs of 65,536 zeros, three to a log area, and one more behind the last three, so that 50 bytes of the log are left.
fn fill(alloc: Global, disk: &mut MemDisk, pairs: u8) -> Result<(), Fail> {
    let mut store = opened(alloc, disk)?;
    let zeros = vec![in alloc; 0; 65_536]?;
    for key in 1..=pairs {
        store.put(disk, &[key], &zeros)?;
    }
    Ok(store.put(disk, b"d", &zeros[..65_450])?)
}

// Two records fit the log, and the flush before the third is refused: the third and the fourth step are counted and passed over.
fn passes_over(
    rt: &impl Abort,
    alloc: Global,
    disk: Box<MemDisk>,
    line: &[u8],
) -> Result<(), Fail> {
    let end = commanded(alloc, "load --seed 1 --count 4", disk)?;
    check(rt, &end, 0, line, 0);
    let again = served(alloc, end.disk, b"get 826886\nget a5fae1\n")?;
    check(rt, &again, 0, b"val 1b1b4a86b3866882\nnone\n", 1);
    Ok(())
}

#[test]
fn steps_without_an_epoch_are_passed_over(rt: HostRuntime) -> Result<(), Fail> {
    let alloc = rt.alloc();
    let mut disk = base_disk(alloc)?;
    disk.write(16, &[0xff; 8])?;
    disk.write(72, &LAST_EPOCH_SUM)?;
    fill(alloc, &mut disk, 3)?;
    let line = b"load steps 4 refused 2 live 6 sum eebff65fca471b97\n";
    passes_over(&rt, alloc, disk, line)
}

// Six tables of 53 pages take 318 of 320. Their merge finds no room either, and is begun anew.
#[test]
fn steps_without_room_are_passed_over(rt: HostRuntime) -> Result<(), Fail> {
    let alloc = rt.alloc();
    let mut disk = base_disk(alloc)?;
    fill(alloc, &mut disk, 21)?;
    let line = b"load steps 4 refused 2 live 24 sum eebff65fca471b97\n";
    passes_over(&rt, alloc, disk, line)
}

// How many calls of the disk an opening makes.
fn opening(alloc: Global, first: &MemDisk) -> Result<u64, Fail> {
    Ok((calls_of(alloc, first, b"")? as u64).min(1_000))
}

const COUNTS: [&[u8]; 5] = [
    b"count 0\n",
    b"count 1\n",
    b"count 2\n",
    b"count 3\n",
    b"count 4\n",
];

// Whether so many pairs are found, or one more where `more` is so.
fn holds(alloc: Global, disk: Box<MemDisk>, pairs: usize, more: bool) -> Result<bool, Fail> {
    let end = served(alloc, disk, b"count - ffffff\n")?;
    let found = end.said.as_slice();
    let pairs = pairs.min(3);
    Ok(found == COUNTS[pairs] || (more && found == COUNTS[pairs + 1]))
}

// Each step makes four calls. As one fails, the steps before it are there, whatever a crash leaves of its writes.
#[test]
fn a_fault_at_a_step_leaves_the_steps_before(rt: HostRuntime) -> Result<(), Fail> {
    let alloc = rt.alloc();
    let first = base_disk(alloc)?;
    let opened = opening(alloc, &first)?;
    for call in 0..12 {
        let disk = failing(alloc, &first, opened.saturating_add(call))?;
        let end = commanded(alloc, "load --seed 1 --count 3", disk)?;
        check(&rt, &end, 4, b"device\n", call);
        let steps = call as usize / 4;
        check_that_at(
            &rt,
            &call,
            holds(alloc, lost(alloc, &end.disk)?, steps, false)?,
        );
        check_that_at(
            &rt,
            &call,
            holds(alloc, written(alloc, &end.disk)?, steps, true)?,
        );
    }
    Ok(())
}

// Behind the opening and the step's four calls each call of the merge slice fails in turn: nothing is said, and the step is there.
#[test]
fn a_fault_in_the_slice_of_a_step_is_not_said(rt: HostRuntime) -> Result<(), Fail> {
    let alloc = rt.alloc();
    let first = four_tables(alloc)?;
    let opened = opening(alloc, &first)?;
    for call in 4..16 {
        let disk = failing(alloc, &first, opened.saturating_add(call))?;
        let end = commanded(alloc, "load --seed 1 --count 1", disk)?;
        check(&rt, &end, 4, b"", call);
        let again = served(alloc, lost(alloc, &end.disk)?, b"count - ffffff\n")?;
        check(&rt, &again, 0, b"count 5\n", call);
    }
    Ok(())
}

#[test]
fn damage_in_the_slice_of_a_step_is_not_said(rt: HostRuntime) -> Result<(), Fail> {
    let alloc = rt.alloc();
    let mut disk = four_tables(alloc)?;
    disk.write(786_440, &[7])?;
    let end = commanded(alloc, "load --seed 1 --count 1", disk)?;
    check(&rt, &end, 5, b"", 0);
    Ok(())
}

// A store with one table of one block, which only the summary reads.
fn one_table(alloc: Global) -> Result<Box<MemDisk>, Fail> {
    left_behind(alloc, base_disk(alloc)?, b"put 61 62\nflush\n")
}

#[test]
fn the_summary_meets_a_fault_and_damage(rt: HostRuntime) -> Result<(), Fail> {
    let alloc = rt.alloc();
    let first = one_table(alloc)?;
    let call = opening(alloc, &first)?.saturating_add(4);
    let failed = commanded(
        alloc,
        "load --seed 1 --count 1",
        failing(alloc, &first, call)?,
    )?;
    check(&rt, &failed, 4, b"device\n", 0);
    let mut damaged = disk_of(alloc, first.bytes())?;
    damaged.write(786_440, &[3])?;
    let told = commanded(alloc, "load --seed 1 --count 1", damaged)?;
    let sums = b"damaged block 786432 sum 587b62ad428b4221 1330a17f9fbb1d44\n";
    check(&rt, &told, 5, sums, 1);
    let whole = commanded(alloc, "load --seed 1 --count 1", first)?;
    let line = b"load steps 1 refused 0 live 2 sum 6c576fac43fd00de\n";
    check(&rt, &whole, 0, line, 2);
    Ok(())
}

// An outside over a new store whose output fails at the say of this number.
fn unsaid(alloc: Global, say: u64) -> Result<MemOutside, Fail> {
    let says = Vec::from_slice(alloc, &[say])?;
    let disk = Box::into_inner(base_disk(alloc)?);
    Ok(MemOutside::new(disk, Vec::new(alloc), Vec::new(alloc), says))
}

// A load of one step over it, ten bytes at a time.
fn cut_off(alloc: Global, say: u64) -> Result<Ended, Fail> {
    let out = unsaid(alloc, say)?.with_pace(10);
    ran(alloc, "load --seed 1 --count 1", boxed(alloc, out)?)
}

#[test]
fn a_line_that_cannot_be_said_ends_with_6(rt: HostRuntime) -> Result<(), Fail> {
    let alloc = rt.alloc();
    for say in 0..6 {
        let end = cut_off(alloc, say)?;
        check_same_at(&rt, &say, &end.status, &6);
        check_same(&rt, &(end.said.len() as u64), &(say * 10));
        check_that(&rt, ONE_STEP.starts_with(end.said.as_slice()));
        let again = served(alloc, lost(alloc, &end.disk)?, b"get 6c576f\n")?;
        check(&rt, &again, 0, b"val 7c00fd43ac6f576c\n", say);
    }
    Ok(())
}

// No input is taken.
#[test]
fn what_waits_to_be_taken_waits_on(rt: HostRuntime) -> Result<(), Fail> {
    let alloc = rt.alloc();
    let out = outside(alloc, base_disk(alloc)?, b"del 6c576f\n")?;
    let end = ran(alloc, "load --seed 1 --count 1", out)?;
    check(&rt, &end, 0, ONE_STEP, 0);
    let again = served(alloc, end.disk, b"get 6c576f\n")?;
    check(&rt, &again, 0, b"val 7c00fd43ac6f576c\n", 1);
    Ok(())
}
