//! What words ask for.
ghost use Rattle.std.specs.Prelude.{◌≡◌, [], List, map, IfOk, string_bytes};
ghost use Rattle.clap.specs.Faults.{fault_of};
ghost use Rattle.clap.specs.Kinds.{FailsBy};
ghost use Rattle.clap.specs.Matches.{found_of};
ghost use Rattle.clap.specs.Simple.{subcommand_of, subcommand_rows_of};
ghost use Rattle.clap.specs.Values.{kind_of};
ghost use Rattle.clap.specs.Walk.{Text, rows_of};
ghost use Rattle.program_words.specs.Asked.{WordsAsk, ComesOf, IsKnown, load_of, option_number, wanted_of, wanted_settings_of};
ghost use Rattle.program_words.specs.CommandLine.{store_app};

use crate::command_line::store_command;
use crate::load::Load;
use crate::new_store::{NewStore, Wanted};
use crate::wanted_settings::{Variant, WantedSettings};
use clap::error::ErrorKind;
use clap::{ArgMatches, Error};
use filter_api::{Field, Settings};
use std::alloc::Global;

/// What the words ask for.
#[derive(Debug, Drop)]
pub enum Asked {
    /// That a store is made.
    Format(NewStore),
    /// A store, a load or settings whose numbers are out of range, this field first.
    BadSettings(Field),
    /// That lines are answered.
    Serve,
    /// That steps are made that follow from a seed.
    Load(Load),
    /// That new tables get filters by these settings.
    Settings(Settings),
    /// That the store gets so many pages, in range or not: that is seen by the pages that it has.
    Grow(u64),
    /// That the whole store is read, and what is wrong is said.
    Check,
    /// That what each table has is said, and what the store has.
    Tables,
    /// That each pair is said, as the line that puts it.
    Dump,
    /// That a static map is built of lines.
    BuildMap,
    /// That lines are answered by a static map.
    ServeMap,
    /// A text: help, or the version.
    Help(String),
    /// Nothing: clap refuses the words.
    Refused,
    /// There was no memory to find out.
    Memory,
}

// The number of an option.
fn number(matches: &ArgMatches<'_>, name: &str) -> u64
    ensures { result ≡ option_number name.now (rows_of (found_of matches.now)) }
{
    matches.get_one::<u64>(name).unwrap_or(0)
}

// The options of `settings`, which are among those of `format`.
fn wanted_settings(matches: &ArgMatches<'_>) -> WantedSettings
    ensures { result ≡ wanted_settings_of (rows_of (found_of matches.now)) }
{
    WantedSettings {
        variant: Variant::named(matches.get_str("variant").unwrap_or("")),
        hash_bits: number(matches, "hash-bits"),
        real_bits: number(matches, "real-bits"),
        ratio: number(matches, "ratio"),
    }
}

// The options of `format`.
fn wanted(matches: &ArgMatches<'_>) -> Wanted
    ensures { result ≡ wanted_of (rows_of (found_of matches.now)) }
{
    Wanted {
        pages: number(matches, "pages"),
        settings: wanted_settings(matches),
    }
}

// The options of `load`.
fn wanted_load(matches: &ArgMatches<'_>) -> Load
    ensures { result ≡ load_of (rows_of (found_of matches.now)) }
{
    Load {
        seed: number(matches, "seed"),
        count: number(matches, "count"),
    }
}

// The words as the definition has them.
fn parse_words<'a>(alloc: Global, words: &'a [String]) -> Result<ArgMatches<'a>, Error>
    ensures kinds { FailsBy (fault_of store_app (map string_bytes words.now)) result }
    ensures found { IfOk result (λ m. subcommand_rows_of m ≡ subcommand_of store_app (map string_bytes words.now)) }
    ensures known { IfOk result (λ m. IsKnown (subcommand_rows_of m)) }
{
    store_command(alloc)?.try_get_matches_from(words)
}

// What matches come to.
fn asked_by(matches: &ArgMatches<'_>) -> Asked
    requires { IsKnown (subcommand_rows_of matches.now) }
    ensures { (words : List Text) → fault_of store_app words ≡ [] → subcommand_rows_of matches.now ≡ subcommand_of store_app words → WordsAsk words result }
{
    if let Some(options) = matches.subcommand_matches("format") {
        return match wanted(options).checked() {
            Ok(store) => Asked::Format(store),
            Err(field) => Asked::BadSettings(field),
        };
    }
    if let Some(options) = matches.subcommand_matches("load") {
        return match wanted_load(options).checked() {
            Ok(load) => Asked::Load(load),
            Err(field) => Asked::BadSettings(field),
        };
    }
    if let Some(options) = matches.subcommand_matches("settings") {
        return match wanted_settings(options).checked() {
            Ok(settings) => Asked::Settings(settings),
            Err(field) => Asked::BadSettings(field),
        };
    }
    if let Some(options) = matches.subcommand_matches("grow") {
        return Asked::Grow(number(options, "pages"));
    }
    if matches.subcommand_matches("check").is_some() {
        return Asked::Check;
    }
    if matches.subcommand_matches("tables").is_some() {
        return Asked::Tables;
    }
    if matches.subcommand_matches("fstbuild").is_some() {
        return Asked::BuildMap;
    }
    if matches.subcommand_matches("fstserve").is_some() {
        return Asked::ServeMap;
    }
    match matches.subcommand_matches("dump") {
        Some(_) => Asked::Dump,
        None => Asked::Serve,
    }
}

// What an answer without matches comes to.
fn unparsed(alloc: Global, error: Error) -> Asked
    ensures { ComesOf (kind_of error) result }
{
    match error.kind() {
        ErrorKind::OutOfMemory => Asked::Memory,
        ErrorKind::DisplayHelp | ErrorKind::DisplayVersion => match error.to_string(alloc) {
            Ok(text) => Asked::Help(text),
            Err(_) => Asked::Memory,
        },
        _ => Asked::Refused,
    }
}

/// What the words behind the device's path ask for.
///
/// Each answer but want of memory is exactly what clap's specification has of these words and of the definition in
/// `command_line`.
pub fn read_words(alloc: Global, words: &[String]) -> Asked
    ensures { WordsAsk (map string_bytes words.now) result }
{
    match parse_words(alloc, words) {
        Ok(matches) => asked_by(&matches),
        Err(error) => unparsed(alloc, error),
    }
}
