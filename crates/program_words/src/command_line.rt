//! The one definition of the command line.
ghost use Rattle.std.specs.Prelude.{◌≡◌, IfOk, codes, false};
ghost use Rattle.clap.specs.Simple.{app_of, with_rule};
ghost use Rattle.clap.specs.Walk.{rule_of};
ghost use Rattle.clap.specs.declared.builder.command.Command.TheViews.{out-Command as fields_of};
ghost use Rattle.program_words.specs.CommandLine.{check_app, dump_app, format_app, fstbuild_app, fstserve_app, grow_app, load_app, number_rule, option_rule, required, serve_app, settings_app, store_app, tables_app, with_default, with_filter_options, with_number_options, with_pages_option};

use clap::{Arg, Command, value_parser};
use std::alloc::{AllocError, Global};

const ABOUT: &str = "A key-value store on the device file at PATH.";

const FORMAT_ABOUT: &str = "Make an empty store, unless one stands there already";

const SERVE_ABOUT: &str = "Answer the lines of standard input, one reply each";

const LOAD_ABOUT: &str = "Make puts and deletes that follow from a seed, and sum what is there";

const SETTINGS_ABOUT: &str = "Change the filters of new tables; old tables keep theirs";

const GROW_ABOUT: &str = "Give the store more pages, for good";

const CHECK_ABOUT: &str = "Read the whole store, and say what is wrong with it";

const TABLES_ABOUT: &str = "Say what each table has, and what the store has";

const DUMP_ABOUT: &str = "Say each pair, as the line that puts it";

const BUILD_MAP_ABOUT: &str = "Build a static map of lines K V, read only, unless one is there";

const SERVE_MAP_ABOUT: &str = "Answer the lines of standard input by a static map";

// What the prompt answers, behind the help of the program and of `serve`.
const ANSWERS: &str = "\
format: --pages N    pages of 4,096 bytes, 512 to 16,777,216
        --variant W  suffix bits of a filter's leaves: base, hash, real or mixed
        --hash-bits N, --real-bits N  0 to 32, 8 where none is named; base uses
                     neither, hash no real bits, real no hash bits
        --ratio N    0 to 65,535, 64 where none is named. With 0 a large filter
                     may not be built: compact then answers memory each time
load:   --seed S     below 2^64    --count N  steps, 1 to 1,000,000
settings: as format, without --pages; for the tables that are made from then on.
             What is not named takes its default, whatever the store has
grow:   --pages N    how many the store has then: not fewer than now, for good
Example:
  $ surfstore db format --pages 1048576 --variant base
  formatted 1048576
  $ surfstore db serve

Lines of serve. K, V, LO and HI are bytes in hex, and - is no bytes:
  put K V         ok, once the pair is synced      put 61 62
  del K           ok, once that is synced          del 61
  get K           val V, or none                   get 61
  seek LO [HI]    at K V, the first pair from LO, up to HI; or none
  range LO HI N   at K V for each of the first N pairs, then end n
  count LO HI     count n, the pairs from LO to HI
  estimate LO HI  about n, with nothing read
  explain K       tables t admitted a blocks b: what a get of K asks and reads
  flush           ok: what the log has is a table
  compact         ok: the live pairs alone are there, in new tables
  quit            bye
A key has 1 to 1,024 bytes, a value 0 to 1,048,576, LO and HI 0 to 1,024; N is 0
to 1,000,000. As HI, - is the empty key: all pairs are range - ff N, where no
key begins with ff. Words are parted by one space; verbs are in lower case.

Refusals. Nothing has changed, but for device in a put, del, flush or compact:
  bad 1           the line has over 2,100,000 bytes: make it shorter
  bad 2           no verb of these: look at the list above
  bad 3           too few words or too many: one space between, none at the end
  bad 4           a word is neither - nor whole bytes in hex: two digits a byte
  bad 5           N is no number from 0 to 1,000,000 without leading zeros
  limit key n, limit value n    the key, bound or value has n bytes: see above
  limit tables    there are 1,024 tables: compact
  limit epoch     the last epoch: put what range says into a new store
  full need n gap g    n pages in one piece are needed, the largest gap has g:
                  compact; where that is full too, grow the store
  memory          there was none for this line: free some, and send it again
  device          a call of the file failed, and the run ends: mend the cause,
                  start again, and get what was put last
  damaged PART AT ..    what is read is not what was written; the run ends. Of a
                  block: put what range says around it into a new store. Of
                  another part: nothing is read; take a copy of the file

Exit statuses:
  0  all was answered, or done     5  damage was read
  2  wrong words                   6  the output failed
  3  the input failed              7  no memory to begin with
  4  the device failed             8  no store or map there, or one already, or
  9  2^40 bytes of input              settings out of range
 10  limit epoch, of settings and grow: the store is as before
 11  fstbuild: its lines are no map  12  check found what is wrong";

// How large a store is made, behind the help of `format`.
const ROOM: &str = "\
How many pages: format with far more pages than you will need, since a merge
needs its pages in one piece, and a store that is full may stay full until it
grows. The file is only as long as what was written: where the file system keeps
sparse files, take the largest number, 16777216 (64 GiB). On a block device, or
where pages are really bounded, take 192 + 5 * 67 + 3.5 * the pages of the live
pairs, with 5 * 325 in the place of 5 * 67 where values have over 65536 bytes.";

// Which tables get them, behind the help of `settings`.
const NEW_TABLES: &str = "\
An option that is not named takes its default, as in format, whatever the store
has. It says the three numbers: settings HASH-BITS REAL-BITS RATIO. Tables that
are there keep the filters that they have until they are merged; a compact in
serve merges them all. Example:
  $ surfstore db settings --variant hash
  settings 8 0 64";

// What more pages are, behind the help of `grow`.
const MORE_PAGES: &str = "\
N is the number of pages that the store has then, not of those that are added.
The file is not made longer, and the pages are not reserved: on a block device,
or where the file system is full, a later write may fail, which ends that run.
No call takes pages back. Example:
  $ surfstore db grow --pages 2097152
  grown 2097152";

// What a check says, behind the help of `check`.
const FINDINGS: &str = "\
It changes nothing. A line for each thing that is wrong, and then how many:
  finding PART AT sum KEPT SEEN  the part's bytes have another sum than is kept
  finding PART AT rule R         they break rule R of their format
  finding block AT keys          the block has other keys than its index says, or
                                 they are not above those of the block before
  finding index AT count         the table has other entries than its row says
  finding filter AT leaf N       leaf N of the filter is not that of the keys
  findings N                     with status 12
PART is manifest, index, block, filter or log, AT a byte of the file. Where
nothing is wrong, with status 0: the tables, their entries, the pairs that there
are, and the records of the log:
  $ surfstore db check
  clean tables 1 entries 1 live 1 log 0";

// What the lines of tables say, behind the help of `tables`.
const COLUMNS: &str = "\
It changes nothing. A line for each table, those of level 0 first, the newest
before the others, then those of each deeper level by rising keys:
  table LEVEL FIRST PAGES ENTRIES H R RATIO LEAST GREATEST
FIRST is its first page of 4,096 bytes and PAGES how many it has; H, R and RATIO
are the hash bits, the real bits and the ratio of its filter; LEAST and GREATEST
its keys in hex. Then a line for the store:
  store PAGES FREE GAP EPOCH LOG H R RATIO
FREE pages are free, GAP of them in one piece; LOG bytes of the log are in use;
the settings are those of new tables. Example:
  $ surfstore db tables
  store 1048576 1048384 1048384 1 0 0 0 64";

// What a dump says, behind the help of `dump`.
const PAIRS: &str = "\
It changes nothing. A line for each pair, by rising keys:
  put K V
The prompt of another store takes these lines: that is a copy, a way to another
variant or to more pages, and a backup. It is whole only where the dump ends
with 0 and each line is answered ok. At status 4 or 5 the last line is as of
serve. Example, which says nothing more where all pairs are there:
  $ surfstore old dump > pairs && surfstore new serve < pairs | grep -vx ok";

// What a build reads, behind the help of `fstbuild`.
const MAP_LINES: &str = "\
The file at PATH is then a static map and no store. Never build over a file that
a store may be in: of it byte 0 alone is looked at. Lines are K V in hex, V may
be -, and K rises from line to line: LC_ALL=C sort puts lines in lower case so.
It says one line:
  built N               a map of N pairs is there, and lasts
  taken                 byte 0 is 1, of a map or a store: nothing changes, and
                        the status is 8
  bad line N code C     status 11: line N is the first bad one. C is 1 too long,
                        3 not two words, 4 no hex, 7 a key of no byte or over
                        1,024, 8 a value over 65,536, 6 not above the one before
  too many              over 1,000,000 lines: status 11
  too large N           the map would have N bytes, over 2^31: status 11
  no keys               no line: status 11
After status 4 or 6 the map may be there or not: fstserve tells. A map does not
change: build another file, and rename it over the first. Example:
  $ printf '61 01\n6162 02\n' | surfstore words fstbuild
  built 2";

// What a map answers, behind the help of `fstserve`.
const MAP_ANSWERS: &str = "\
It changes nothing. Lines are get, seek, range, count and quit, as of serve; any
other verb is bad 2.
  memory                to a seek or a range, or before the first line: status 7
Before the first line it may also end with
  not a map             no static map is there: status 8
  damaged map P R       its bytes break rule R of their format at P: status 5
Example:
  $ printf 'get 6162\n' | surfstore words fstserve
  val 02";

// An option with a number of its own, which its help calls by a letter.
fn number_option<'a>(alloc: Global, name: &'a str, letter: &'a str, help: &'a str) -> Arg<'a>
    ensures rule { rule_of result ≡ number_rule name.now }
    ensures local { result.global ≡ false }
{
    Arg::new(alloc, name)
        .long(name)
        .value_name(letter)
        .value_parser(value_parser!(u64))
        .help(help)
}

// One that must be there.
fn required_number<'a>(alloc: Global, name: &'a str, letter: &'a str, help: &'a str) -> Arg<'a>
    ensures rule { rule_of result ≡ required (number_rule name.now) }
    ensures local { result.global ≡ false }
{
    number_option(alloc, name, letter, help).required(true)
}

// One that has a number of its own where it is not named.
fn number_with_default<'a>(alloc: Global, name: &'a str, default: &'a str, help: &'a str) -> Arg<'a>
    ensures rule { rule_of result ≡ with_default default.now (number_rule name.now) }
    ensures local { result.global ≡ false }
{
    number_option(alloc, name, "N", help).default_value(default)
}

// The option that names the variant. Any word is one for clap.
fn variant_option<'a>(alloc: Global) -> Arg<'a>
    ensures rule { rule_of result ≡ required (option_rule (codes "variant")) }
    ensures local { result.global ≡ false }
{
    Arg::new(alloc, "variant")
        .long("variant")
        .value_name("WORD")
        .required(true)
        .help("base, hash, real or mixed: which suffix bits the leaves of a filter have")
}

// A command with such a number.
fn with_number<'a>(
    alloc: Global,
    command: Command<'a>,
    name: &'a str,
    default: &'a str,
    help: &'a str,
) -> Result<Command<'a>, AllocError>
    requires { (fields_of command).has_globals ≡ false }
    ensures app { IfOk result (λ c. app_of c ≡ with_rule (app_of command.entry) (with_default default.now (number_rule name.now))) }
    ensures local { IfOk result (λ c. (fields_of c).has_globals ≡ false) }
{
    command.arg(number_with_default(alloc, name, default, help))
}

// A command with the numbers of filters.
fn with_numbers<'a>(alloc: Global, command: Command<'a>) -> Result<Command<'a>, AllocError>
    requires { (fields_of command).has_globals ≡ false }
    ensures app { IfOk result (λ c. app_of c ≡ with_number_options (app_of command.entry)) }
    ensures local { IfOk result (λ c. (fields_of c).has_globals ≡ false) }
{
    let with_hash_bits = with_number(
        alloc,
        command,
        "hash-bits",
        "8",
        "Hash bits of a leaf, 0 to 32; base and real do not use them",
    )?;
    let with_real_bits = with_number(
        alloc,
        with_hash_bits,
        "real-bits",
        "8",
        "Real bits of a leaf, 0 to 32; base and hash do not use them",
    )?;
    with_number(
        alloc,
        with_real_bits,
        "ratio",
        "64",
        "How many times smaller a filter's dense levels are than the others, 0 to 65,535; with 0 a large filter may not be built",
    )
}

// A command with all that may be said of filters.
fn with_filters<'a>(alloc: Global, command: Command<'a>) -> Result<Command<'a>, AllocError>
    requires { (fields_of command).has_globals ≡ false }
    ensures app { IfOk result (λ c. app_of c ≡ with_filter_options (app_of command.entry)) }
    ensures local { IfOk result (λ c. (fields_of c).has_globals ≡ false) }
{
    let with_variant = command.arg(variant_option(alloc))?;
    with_numbers(alloc, with_variant)
}

// A command with the pages of the device, which this text tells.
fn with_pages<'a>(
    alloc: Global,
    command: Command<'a>,
    help: &'a str,
) -> Result<Command<'a>, AllocError>
    requires { (fields_of command).has_globals ≡ false }
    ensures app { IfOk result (λ c. app_of c ≡ with_pages_option (app_of command.entry)) }
    ensures local { IfOk result (λ c. (fields_of c).has_globals ≡ false) }
{
    command.arg(required_number(alloc, "pages", "N", help))
}

fn format_command<'a>(alloc: Global) -> Result<Command<'a>, AllocError>
    ensures app { IfOk result (λ c. app_of c ≡ format_app) }
    ensures local { IfOk result (λ c. (fields_of c).has_globals ≡ false) }
{
    let command = Command::new(alloc, "format")
        .about(FORMAT_ABOUT)
        .after_help(ROOM)
        .override_usage("surfstore PATH format --pages N --variant WORD [OPTIONS]");
    let with_pages = with_pages(
        alloc,
        command,
        "Pages of 4,096 bytes, 512 to 16,777,216, far more than you will need",
    )?;
    with_filters(alloc, with_pages)
}

fn settings_command<'a>(alloc: Global) -> Result<Command<'a>, AllocError>
    ensures app { IfOk result (λ c. app_of c ≡ settings_app) }
    ensures local { IfOk result (λ c. (fields_of c).has_globals ≡ false) }
{
    let command = Command::new(alloc, "settings")
        .about(SETTINGS_ABOUT)
        .after_help(NEW_TABLES)
        .override_usage("surfstore PATH settings --variant WORD [OPTIONS]");
    with_filters(alloc, command)
}

fn grow_command<'a>(alloc: Global) -> Result<Command<'a>, AllocError>
    ensures app { IfOk result (λ c. app_of c ≡ grow_app) }
    ensures local { IfOk result (λ c. (fields_of c).has_globals ≡ false) }
{
    let command = Command::new(alloc, "grow")
        .about(GROW_ABOUT)
        .after_help(MORE_PAGES)
        .override_usage("surfstore PATH grow --pages N");
    with_pages(
        alloc,
        command,
        "Pages of 4,096 bytes that the store has then, not fewer than now, at most 16,777,216",
    )
}

fn serve_command<'a>(alloc: Global) -> Command<'a>
    ensures app { app_of result ≡ serve_app }
    ensures local { (fields_of result).has_globals ≡ false }
{
    Command::new(alloc, "serve")
        .about(SERVE_ABOUT)
        .after_help(ANSWERS)
        .override_usage("surfstore PATH serve")
}

fn check_command<'a>(alloc: Global) -> Command<'a>
    ensures app { app_of result ≡ check_app }
    ensures local { (fields_of result).has_globals ≡ false }
{
    Command::new(alloc, "check")
        .about(CHECK_ABOUT)
        .after_help(FINDINGS)
        .override_usage("surfstore PATH check")
}

fn tables_command<'a>(alloc: Global) -> Command<'a>
    ensures app { app_of result ≡ tables_app }
    ensures local { (fields_of result).has_globals ≡ false }
{
    Command::new(alloc, "tables")
        .about(TABLES_ABOUT)
        .after_help(COLUMNS)
        .override_usage("surfstore PATH tables")
}

fn dump_command<'a>(alloc: Global) -> Command<'a>
    ensures app { app_of result ≡ dump_app }
    ensures local { (fields_of result).has_globals ≡ false }
{
    Command::new(alloc, "dump")
        .about(DUMP_ABOUT)
        .after_help(PAIRS)
        .override_usage("surfstore PATH dump")
}

fn fstbuild_command<'a>(alloc: Global) -> Command<'a>
    ensures app { app_of result ≡ fstbuild_app }
    ensures local { (fields_of result).has_globals ≡ false }
{
    Command::new(alloc, "fstbuild")
        .about(BUILD_MAP_ABOUT)
        .after_help(MAP_LINES)
        .override_usage("surfstore PATH fstbuild")
}

fn fstserve_command<'a>(alloc: Global) -> Command<'a>
    ensures app { app_of result ≡ fstserve_app }
    ensures local { (fields_of result).has_globals ≡ false }
{
    Command::new(alloc, "fstserve")
        .about(SERVE_MAP_ABOUT)
        .after_help(MAP_ANSWERS)
        .override_usage("surfstore PATH fstserve")
}

fn load_command<'a>(alloc: Global) -> Result<Command<'a>, AllocError>
    ensures app { IfOk result (λ c. app_of c ≡ load_app) }
    ensures local { IfOk result (λ c. (fields_of c).has_globals ≡ false) }
{
    let seed = required_number(alloc, "seed", "S", "The number that the steps follow from");
    let count = required_number(
        alloc,
        "count",
        "N",
        "How many steps are made, 1 to 1,000,000",
    );
    let command = Command::new(alloc, "load")
        .about(LOAD_ABOUT)
        .override_usage("surfstore PATH load --seed S --count N");
    let with_seed = command.arg(seed)?;
    with_seed.arg(count)
}

/// The command line behind the device's path.
pub fn store_command<'a>(alloc: Global) -> Result<Command<'a>, AllocError>
    ensures { IfOk result (λ c. app_of c ≡ store_app) }
{
    let command = Command::new(alloc, "surfstore")
        .version("0.1.0")
        .about(ABOUT)
        .after_help(ANSWERS)
        .override_usage("surfstore PATH <COMMAND>")
        .no_binary_name(true)
        .subcommand_required(true)
        .disable_help_subcommand(true);
    let format = format_command(alloc)?;
    let load = load_command(alloc)?;
    let settings = settings_command(alloc)?;
    let grow = grow_command(alloc)?;
    let with_format = command.subcommand(format)?;
    let with_serve = with_format.subcommand(serve_command(alloc))?;
    let with_load = with_serve.subcommand(load)?;
    let with_settings = with_load.subcommand(settings)?;
    let with_grow = with_settings.subcommand(grow)?;
    let with_check = with_grow.subcommand(check_command(alloc))?;
    let with_tables = with_check.subcommand(tables_command(alloc))?;
    let with_dump = with_tables.subcommand(dump_command(alloc))?;
    let with_fstbuild = with_dump.subcommand(fstbuild_command(alloc))?;
    with_fstbuild.subcommand(fstserve_command(alloc))
}
