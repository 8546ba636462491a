//! The words of a command line.
ghost use Rattle.std.specs.Prelude.{◌≡◌, ◌≤◌, IfSome};
ghost use Rattle.rate_tool.specs.Words.{command_of, check_of, demo_of, derive_of, format_of, key_of, list_of, named, number_in, run_of, show_of, store_of, texts, version_in, HasNumbers};
ghost use Rattle.std.specs.Option.{option_or};
ghost use Rattle.register_core.specs.Register.{HasLoops};

use itoa::Buffer;
use model_core::{Format, Name};
use register_core::{MOST_VERSIONS, RunKey};
use std::rc::RcStr;

/// The most loops that a command may ask for.
const MOST_LOOPS: u32 = 2;

/// The most workers that a command may ask for.
const MOST_WORKERS: u32 = 64;

/// A command.
#[derive(Drop)]
pub enum Command {
    /// Derives the beta functions of the source's model file to so many loops, and prints them in this form.
    Derive {
        loops: u32,
        format: Format,
        workers: u32,
    },
    /// Checks the source's model file.
    Check,
    /// Stores the source's model file under a name, and tells its version.
    Store {
        name: Name,
    },
    /// Writes the bytes of a version of a name.
    Show {
        name: Name,
        version: u32,
    },
    /// Writes each name with its number of versions.
    Listing,
    /// Writes the output that is kept under the key, or derives it from the version's bytes with so
    /// many workers, keeps it and writes it.
    Run {
        key: RunKey,
        workers: u32,
    },
    /// Derives the model file of this seed to two loops, and tells how much there is of it.
    Demo {
        seed: u64,
    },
}

/// The number of 64 bits that a word stands for, in decimal digits without a sign or a leading zero.
fn whole_number(word: &str) -> Option<u64>
    ensures { result ≡ number_in 0 18446744073709551615 word.now }
{
    let number = match word.parse::<u64>() {
        Ok(number) => number,
        Err(_) => return None,
    };
    let mut buffer = Buffer::new();
    if word != buffer.format(number) {
        return None;
    }
    Some(number)
}

/// The number from `low` to `high` that a word stands for.
fn number_in(low: u32, high: u32, word: &str) -> Option<u32>
    ensures value { result ≡ number_in low high word.now }
    ensures within { IfSome result (λ n. (low ≤ n) × (n ≤ high)) }
{
    let number = whole_number(word)?;
    if number < u64::from(low) {
        return None;
    }
    if number > u64::from(high) {
        return None;
    }
    Some(number as u32)
}

/// The version that a word stands for.
fn version_in(word: &str) -> Option<u32>
    ensures { result ≡ version_in word.now }
{
    number_in(1, MOST_VERSIONS, word)
}

/// The printed form that a word names.
fn format_of(word: &str) -> Option<Format>
    ensures { result ≡ format_of word.now }
{
    if word == "text" {
        return Some(Format::Text);
    }
    if word == "latex" {
        return Some(Format::Latex);
    }
    if word == "csv" {
        return Some(Format::Csv);
    }
    None
}

/// The name that a word is.
fn named(word: &str) -> Option<Name>
    ensures { result ≡ named word.now }
{
    Name::new(word.as_bytes()).ok()
}

/// The command `derive LOOPS FORMAT WORKERS`.
fn derive_of(word: &str, loops: &str, format: &str, workers: &str) -> Option<Command>
    ensures value { result ≡ derive_of word.now loops.now format.now workers.now }
    ensures numbers { IfSome result HasNumbers }
{
    if word != "derive" {
        return None;
    }
    let loops = number_in(1, MOST_LOOPS, loops)?;
    let workers = number_in(1, MOST_WORKERS, workers)?;
    let format = format_of(format)?;
    Some(Command::Derive {
        loops,
        format,
        workers,
    })
}

/// The command `check`.
fn check_of(word: &str) -> Option<Command>
    ensures value { result ≡ check_of word.now }
    ensures numbers { IfSome result HasNumbers }
{
    if word != "check" {
        return None;
    }
    Some(Command::Check)
}

/// The command `store NAME`.
fn store_of(word: &str, name: &str) -> Option<Command>
    ensures value { result ≡ store_of word.now name.now }
    ensures numbers { IfSome result HasNumbers }
{
    if word != "store" {
        return None;
    }
    let name = named(name)?;
    Some(Command::Store { name })
}

/// The command `show NAME VERSION`.
fn show_of(word: &str, name: &str, version: &str) -> Option<Command>
    ensures value { result ≡ show_of word.now name.now version.now }
    ensures numbers { IfSome result HasNumbers }
{
    if word != "show" {
        return None;
    }
    let name = named(name)?;
    let version = version_in(version)?;
    Some(Command::Show { name, version })
}

/// The command `list`.
fn list_of(word: &str) -> Option<Command>
    ensures value { result ≡ list_of word.now }
    ensures numbers { IfSome result HasNumbers }
{
    if word != "list" {
        return None;
    }
    Some(Command::Listing)
}

/// The key of a run.
fn key_of(name: &str, version: &str, loops: &str, format: &str) -> Option<RunKey>
    ensures value { result ≡ key_of name.now version.now loops.now format.now }
    ensures loops { IfSome result HasLoops }
{
    let name = named(name)?;
    let version = version_in(version)?;
    let loops = number_in(1, MOST_LOOPS, loops)?;
    let format = format_of(format)?;
    Some(RunKey {
        name,
        version,
        loops,
        format,
    })
}

/// The command `run NAME VERSION LOOPS FORMAT WORKERS`.
fn run_of(
    word: &str,
    name: &str,
    version: &str,
    loops: &str,
    format: &str,
    workers: &str,
) -> Option<Command>
    ensures value { result ≡ run_of word.now name.now version.now loops.now format.now workers.now }
    ensures numbers { IfSome result HasNumbers }
{
    if word != "run" {
        return None;
    }
    let key = key_of(name, version, loops, format)?;
    let workers = number_in(1, MOST_WORKERS, workers)?;
    Some(Command::Run { key, workers })
}

/// The command `demo SEED`.
fn demo_of(word: &str, seed: &str) -> Option<Command>
    ensures value { result ≡ demo_of word.now seed.now }
    ensures numbers { IfSome result HasNumbers }
{
    if word != "demo" {
        return None;
    }
    let seed = whole_number(seed)?;
    Some(Command::Demo { seed })
}

/// The command of one word.
fn command_of_one(word: &str) -> Option<Command>
    ensures value { result ≡ option_or (check_of word.now) (list_of word.now) }
    ensures numbers { IfSome result HasNumbers }
{
    match check_of(word) {
        Some(command) => Some(command),
        None => list_of(word),
    }
}

/// The command of two words.
fn command_of_two(word: &str, other: &str) -> Option<Command>
    ensures value { result ≡ option_or (store_of word.now other.now) (demo_of word.now other.now) }
    ensures numbers { IfSome result HasNumbers }
{
    match store_of(word, other) {
        Some(command) => Some(command),
        None => demo_of(word, other),
    }
}

/// The command that the words are. `None` comes exactly where they are no command.
#[tactic(auto, using(crate::proofs::WordCounts::no_command))]
pub fn command_of(words: &[RcStr]) -> Option<Command>
    ensures value { result ≡ command_of (texts words.now) }
    ensures numbers { IfSome result HasNumbers }
{
    match words {
        [word] => command_of_one(word.as_str()),
        [word, other] => command_of_two(word.as_str(), other.as_str()),
        [word, name, version] => show_of(word.as_str(), name.as_str(), version.as_str()),
        [word, loops, format, workers] => derive_of(
            word.as_str(),
            loops.as_str(),
            format.as_str(),
            workers.as_str(),
        ),
        [word, name, version, loops, format, workers] => run_of(
            word.as_str(),
            name.as_str(),
            version.as_str(),
            loops.as_str(),
            format.as_str(),
            workers.as_str(),
        ),
        _ => None,
    }
}
