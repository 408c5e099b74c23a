//! The options of all benches.
use anyhow::{Result, bail};
use clap::error::ErrorKind;
use clap::{Arg, ArgMatches, Command, Error, value_parser};
use std::alloc::{AllocError, Global};

/// What a bench is to measure, and of what. Each bench says in its help which of them a measure reads.
#[derive(Clone, Copy)]
pub struct Options<'a> {
    /// The name of what is measured.
    pub measure: &'a str,
    /// The path of a device file.
    pub device: &'a str,
    /// The kind of filter: `surf` or `plain`.
    pub filter: &'a str,
    /// The kind of keys, or their order.
    pub keys: &'a str,
    /// How many keys, pairs, bits or labels there are.
    pub count: u64,
    /// The bytes of a key.
    pub key_bytes: u64,
    /// The bytes of a value.
    pub value_bytes: u64,
    /// How many tables of level 0 there are.
    pub tables: u64,
    /// The hash bits of a filter's leaf.
    pub hash_bits: u64,
    /// The real bits of a filter's leaf.
    pub real_bits: u64,
    /// How many times smaller a filter's dense levels are than the others.
    pub ratio: u64,
    /// One bit in so many is set.
    pub one_in: u64,
    /// How many calls are made, or merges.
    pub calls: u64,
    /// What random numbers follow from.
    pub seed: u64,
}

// The options that have a number, their defaults, and what they say, in their order.
const NUMBERS: [(&str, &str, &str); 10] = [
    ("count", "1000", "Keys, pairs, bits or labels"),
    ("key-bytes", "8", "Bytes of a key"),
    ("value-bytes", "8", "Bytes of a value"),
    ("tables", "4", "Tables of level 0"),
    ("hash-bits", "0", "Hash bits of a filter's leaf"),
    ("real-bits", "0", "Real bits of a filter's leaf"),
    (
        "ratio",
        "64",
        "How many times smaller a filter's dense levels are than the others",
    ),
    ("one-in", "2", "One bit in so many is set"),
    ("calls", "1000", "Calls, or merges"),
    ("seed", "1", "What random numbers follow from"),
];

// The options that have a word.
const WORDS: [(&str, &str, &str); 3] = [
    ("device", "device", "Path of the device file"),
    ("filter", "surf", "Kind of filter: surf or plain"),
    (
        "keys",
        "random",
        "Kind of keys, or their order: random, words, rising, falling or inward",
    ),
];

fn word_option<'a>(alloc: Global, name: &'a str, default: &'a str, help: &'a str) -> Arg<'a> {
    Arg::new(alloc, name)
        .long(name)
        .value_name("WORD")
        .default_value(default)
        .help(help)
}

fn number_option<'a>(alloc: Global, name: &'a str, default: &'a str, help: &'a str) -> Arg<'a> {
    Arg::new(alloc, name)
        .long(name)
        .value_name("N")
        .value_parser(value_parser!(u64))
        .default_value(default)
        .help(help)
}

// The command line of a bench.
fn bench_command<'a>(
    alloc: Global,
    name: &'a str,
    about: &'a str,
) -> Result<Command<'a>, AllocError> {
    let measure = Arg::new(alloc, "MEASURE")
        .required(true)
        .help("What is measured");
    let mut command = Command::new(alloc, name)
        .about(about)
        .no_binary_name(true)
        .arg(measure)?;
    for (name, default, help) in WORDS {
        command = command.arg(word_option(alloc, name, default, help))?;
    }
    for (name, default, help) in NUMBERS {
        command = command.arg(number_option(alloc, name, default, help))?;
    }
    Ok(command)
}

// The word of an option.
fn word<'a>(matches: &ArgMatches<'a>, name: &str) -> &'a str {
    matches.get_str(name).unwrap_or("")
}

// The number of an option.
fn number(matches: &ArgMatches<'_>, name: &str) -> u64 {
    matches.get_one::<u64>(name).unwrap_or(0)
}

// The options that matches have. Each has a default, but for the measure, which is required.
fn options_of<'a>(matches: &ArgMatches<'a>) -> Options<'a> {
    Options {
        measure: word(matches, "MEASURE"),
        device: word(matches, "device"),
        filter: word(matches, "filter"),
        keys: word(matches, "keys"),
        count: number(matches, "count"),
        key_bytes: number(matches, "key-bytes"),
        value_bytes: number(matches, "value-bytes"),
        tables: number(matches, "tables"),
        hash_bits: number(matches, "hash-bits"),
        real_bits: number(matches, "real-bits"),
        ratio: number(matches, "ratio"),
        one_in: number(matches, "one-in"),
        calls: number(matches, "calls"),
        seed: number(matches, "seed"),
    }
}

fn parse<'a>(
    alloc: Global,
    name: &'a str,
    about: &'a str,
    words: &'a [String],
) -> Result<ArgMatches<'a>, Error> {
    bench_command(alloc, name, about)?.try_get_matches_from(words)
}

/// The options of the bench of this name, by the words after it. Where the words ask for help it is printed, with what
/// the bench says about itself, and there are no options.
///
/// Fails where the words are no options, with what is wrong of them printed, and where there is no memory.
pub fn read_options<'a>(
    rt: &impl Print,
    alloc: Global,
    name: &'a str,
    about: &'a str,
    words: &'a [String],
) -> Result<Option<Options<'a>>> {
    match parse(alloc, name, about, words) {
        Ok(matches) => Ok(Some(options_of(&matches))),
        Err(error) => {
            print!(rt; "{}", error.to_string(alloc)?)?;
            match error.kind() {
                ErrorKind::DisplayHelp => Ok(None),
                _ => bail!("the words are no options of the bench"),
            }
        }
    }
}
