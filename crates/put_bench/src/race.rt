//! The memory table and the map of std behind the same log.
use crate::keys::{numbers, write_key};
use crate::records::Records;
use crate::tables::{Keeper, Ours, Theirs};
use anyhow::{Result, bail};
use bench_kit::{Figure, Least, Options, print_measure};
use gate_log::Log;
use real_outside::FileOutside;
use std::alloc::Global;
use std::io;
use std::time::CpuClock;

// The least time of so many counts.
const ROUNDS: u32 = 6;

/// What is put.
#[derive(Drop)]
pub struct Load {
    numbers: Vec<u64>,
    width: usize,
    value: Vec<u8>,
}

impl Load {
    /// So many different keys, in an order, each with a value.
    pub fn new(alloc: Global, options: Options<'_>) -> Result<Load> {
        let count = options.count as usize;
        Ok(Load {
            numbers: numbers(alloc, options.keys, count, options.seed)?,
            width: options.key_bytes as usize,
            value: vec![in alloc; 7; options.value_bytes as usize]?,
        })
    }
}

// The least times of all rounds with one table.
#[derive(Clone, Copy)]
struct Times {
    put: Least,
    start: Least,
    set: Least,
    get: Least,
}

impl Times {
    fn new() -> Times {
        Times {
            put: Least::new(),
            start: Least::new(),
            set: Least::new(),
            get: Least::new(),
        }
    }
}

/// Prints nanoseconds a key of puts, of a start, and of setting and looking up without a log.
pub fn race(
    rt: &(impl CpuClock + Print),
    alloc: Global,
    disk: &mut FileOutside,
    load: &Load,
) -> Result<()> {
    let mut ours = Times::new();
    let mut theirs = Times::new();
    for _ in 0..ROUNDS {
        round::<Ours>(rt, alloc, disk, load, &mut ours)?;
        round::<Theirs>(rt, alloc, disk, load, &mut theirs)?;
    }
    let count = load.numbers.len();
    print(rt, "put", count, ours.put, theirs.put)?;
    print(rt, "start", count, ours.start, theirs.start)?;
    print(rt, "set", count, ours.set, theirs.set)?;
    print(rt, "get", count, ours.get, theirs.get)?;
    Ok(())
}

fn print(rt: &impl Print, name: &str, count: usize, ours: Least, theirs: Least) -> io::Result<()> {
    let figures = [
        ("keys", Figure::Count(count as u64)),
        ("ns", Figure::Real(ours.of_one(count))),
        ("std_map_ns", Figure::Real(theirs.of_one(count))),
        ("ratio", Figure::Real(ours.over(theirs))),
    ];
    print_measure(rt, "put_bench", name, &figures)
}

// All four with one table.
fn round<T: Keeper>(
    rt: &impl CpuClock,
    alloc: Global,
    disk: &mut FileOutside,
    load: &Load,
    least: &mut Times,
) -> Result<()> {
    let begin = rt.thread_cpu_time()?;
    puts::<T>(alloc, disk, load)?;
    let put = rt.thread_cpu_time()?;
    starts::<T>(alloc, disk)?;
    let start = rt.thread_cpu_time()?;
    let table = sets::<T>(alloc, load)?;
    let set = rt.thread_cpu_time()?;
    let found = gets::<T>(alloc, load, &table)?;
    let get = rt.thread_cpu_time()?;
    if found != load.value.len().saturating_mul(load.numbers.len())
        || table.len() != load.numbers.len()
    {
        bail!("a key was lost");
    }
    least.put.keep_time(put.saturating_sub(begin));
    least.start.keep_time(start.saturating_sub(put));
    least.set.keep_time(set.saturating_sub(start));
    least.get.keep_time(get.saturating_sub(set));
    Ok(())
}

// Puts behind a log that begins anew.
fn puts<T: Keeper>(alloc: Global, disk: &mut FileOutside, load: &Load) -> Result<()> {
    let mut table = T::new(alloc);
    let mut key = Vec::with_capacity(alloc, load.width)?;
    let mut records = Records::start(alloc, disk)?;
    put_all(alloc, disk, load, &mut table, &mut records, &mut key)
}

// Puts each key, made in `key`.
fn put_all<T: Keeper>(
    alloc: Global,
    disk: &mut FileOutside,
    load: &Load,
    table: &mut T,
    records: &mut Records,
    key: &mut Vec<u8>,
) -> Result<()> {
    for i in 0..load.numbers.len() {
        write_key(load.numbers[i], key, load.width)?;
        table.put(alloc, records, disk, key.as_slice(), &load.value)?;
    }
    Ok(())
}

// Replays what was put.
fn starts<T: Keeper>(alloc: Global, disk: &mut FileOutside) -> Result<()> {
    let Ok((_, changes)) = Log::replay(alloc, disk, 0) else {
        bail!("the log cannot be read");
    };
    T::filled(alloc, changes)?;
    Ok(())
}

// The table without the log.
fn sets<T: Keeper>(alloc: Global, load: &Load) -> Result<T> {
    let mut table = T::new(alloc);
    let mut key = Vec::with_capacity(alloc, load.width)?;
    set_all(alloc, load, &mut table, &mut key)?;
    Ok(table)
}

// Sets each key, made in `key`.
fn set_all<T: Keeper>(alloc: Global, load: &Load, table: &mut T, key: &mut Vec<u8>) -> Result<()> {
    for i in 0..load.numbers.len() {
        write_key(load.numbers[i], key, load.width)?;
        table.set(alloc, key.as_slice(), &load.value)?;
    }
    Ok(())
}

// Looks each key up, and answers how many bytes were found.
fn gets<T: Keeper>(alloc: Global, load: &Load, table: &T) -> Result<usize> {
    let mut key = Vec::with_capacity(alloc, load.width)?;
    get_all(load, table, &mut key)
}

// Looks each key up, made in `key`.
fn get_all<T: Keeper>(load: &Load, table: &T, key: &mut Vec<u8>) -> Result<usize> {
    let mut found = 0usize;
    for i in 0..load.numbers.len() {
        write_key(load.numbers[i], key, load.width)?;
        found = found.saturating_add(table.look_up(key.as_slice()));
    }
    Ok(found)
}
