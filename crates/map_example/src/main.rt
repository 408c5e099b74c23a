//! A static map of six words: built from lines, opened, asked and walked. `docs/MAPS.md` goes through it.
#![tactic(auto)]

use anyhow::{Result, bail};
use fst_map::{FstBuilder, FstCursor, FstMap};
use std::alloc::Global;

// A word, a space and what it is in German, by the words.
const LINES: [&[u8]; 6] = [
    b"car Wagen",
    b"card Karte",
    b"care Sorge",
    b"cat Katze",
    b"dog Hund",
    b"door Tor",
];

fn main(rt: HostRuntime) -> Result<()> {
    let bytes = write(rt.alloc())?;
    println!(rt; "{} bytes", bytes.len())?;
    read(&rt, rt.alloc(), bytes.as_slice())
}

// The bytes of the map of the lines, which may go into a file.
fn write(alloc: Global) -> Result<Vec<u8>> {
    let mut builder = Box::new(alloc, FstBuilder::new(alloc))?;
    for line in LINES {
        add_line(&mut builder, line)?;
    }
    let mut bytes = Vec::new(alloc);
    match builder.finish(64, &mut bytes) {
        Ok(()) => Ok(bytes),
        Err(_) => bail!("no map of these"),
    }
}

// Adds the word of a line with what follows it. Words rise from line to line.
fn add_line(builder: &mut FstBuilder, line: &[u8]) -> Result<()> {
    let Some(space) = line.iter().position(|byte| *byte == b' ') else {
        bail!("a line has no space");
    };
    let word = line.get(..space).unwrap_or(line);
    let meaning = line.get(space.saturating_add(1)..).unwrap_or(b"");
    match builder.add(word, meaning) {
        Ok(()) => Ok(()),
        Err(_) => bail!("a word is not above the one before"),
    }
}

// Opens the map, asks it, and goes over it.
fn read(rt: &impl Print, alloc: Global, bytes: &[u8]) -> Result<()> {
    let map = match FstMap::read(alloc, bytes) {
        Ok(map) => Box::new(alloc, map)?,
        Err(_) => bail!("no map"),
    };
    ask(rt, &map)?;
    walk(rt, alloc, &map)
}

// What stands under two words, and how many there are from one to another.
fn ask(rt: &impl Print, map: &FstMap<'_, Global>) -> Result<()> {
    print_value(rt, map, "card")?;
    print_value(rt, map, "ca")?;
    println!(rt;
        "car to cat: {} of {}",
        map.count(b"car", b"cat"),
        map.len()
    )?;
    Ok(())
}

fn print_value(rt: &impl Print, map: &FstMap<'_, Global>, word: &str) -> Result<()> {
    match map.get(word.as_bytes()) {
        Some(value) => println!(rt; "{word}: {}", text(value))?,
        None => println!(rt; "{word} is no key")?,
    }
    Ok(())
}

// From the first word that is not below carp to the last one, and then one back.
fn walk(rt: &impl Print, alloc: Global, map: &FstMap<'_, Global>) -> Result<()> {
    let Some(cursor) = map.start(&alloc, b"carp")? else {
        bail!("no word from carp on");
    };
    let mut cursor = Box::new(alloc, cursor)?;
    for _ in 0..map.len() {
        print_pair(rt, &cursor)?;
        if !cursor.next() {
            break;
        }
    }
    cursor.prev();
    print_pair(rt, &cursor)
}

fn print_pair(rt: &impl Print, cursor: &FstCursor<'_, Global, Global>) -> Result<()> {
    println!(rt; "{} {}", text(cursor.key()), text(cursor.value()))?;
    Ok(())
}

// Bytes as text.
fn text(bytes: &[u8]) -> &str {
    str::from_utf8(bytes).unwrap_or("?")
}
