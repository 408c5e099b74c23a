//! `surfstore PATH WORDS`: a store on the device file at PATH, over standard input and output.
#![tactic(auto)]

use fst_run::FstPrograms;
use outside::say_all;
use real_outside::FileOutside;
use std::alloc::Global;
use std::env;
use std::io::{self, ErrorKind};
use std::process::ExitCode;
use surf_filter::SurfFilter;
use surf_run::run;

const OUTPUT_FAILED: u8 = 6;

const NO_MEMORY: u8 = 7;

// The first word is the path, an empty one where there is no word or it asks for a text; the others go to the top call.
fn main(rt: HostRuntime) -> ExitCode {
    let alloc = rt.alloc();
    let Ok(words) = words_of(&rt) else {
        return ExitCode::from(say_no_memory(rt));
    };
    let mut words = words;
    let path = if words.is_empty() || asks_for_text(&words) {
        String::new(alloc)
    } else {
        words.remove(0)
    };
    let mut out = if reads_alone(&words) {
        FileOutside::reading(rt, path)
    } else {
        FileOutside::at(rt, path)
    };
    ExitCode::from(run::<SurfFilter<Global>, FstPrograms, _>(alloc, words.as_slice(), &mut out))
}

// Whether the first word asks for help or the version, and so names no device.
fn asks_for_text(words: &[String]) -> bool {
    match words.first() {
        Some(word) => matches!(word.as_str(), "--help" | "-h" | "--version" | "-V"),
        None => false,
    }
}

// Whether the words after the path ask for what only reads: then no file is made, and none is written.
fn reads_alone(words: &[String]) -> bool {
    match words.first() {
        Some(word) => matches!(word.as_str(), "check" | "dump" | "fstserve" | "tables"),
        None => false,
    }
}

// The words behind the program's name, or an error where there is no memory for them. Words that are no text are answered
// like no words at all, which are wrong too.
fn words_of(rt: &HostRuntime) -> io::Result<Vec<String>> {
    match env::args(rt) {
        Ok(args) => Ok(args.skip(1).collect(rt.alloc())?),
        Err(error) if error.kind() == ErrorKind::InvalidData => Ok(Vec::new(rt.alloc())),
        Err(error) => Err(error),
    }
}

// Ends a run whose words found no memory as one whose store found none. No device is opened.
fn say_no_memory(rt: HostRuntime) -> u8 {
    let mut out = FileOutside::at(rt, String::new(rt.alloc()));
    match say_all(&mut out, b"memory\n") {
        Ok(()) => NO_MEMORY,
        Err(_) => OUTPUT_FAILED,
    }
}
