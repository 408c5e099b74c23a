//! Measures as lines of JSON.
use std::io;
use std::num::nearest_u64_to_f64;

/// A figure of a measure.
#[derive(Clone, Copy)]
pub enum Figure<'a> {
    /// How many of something.
    Count(u64),
    /// A time, a share or a ratio, with six places after the point.
    Real(f64),
    /// A word, which has no quote and no backslash.
    Word(&'a str),
}

/// Prints a measure as one line of JSON: the names of the bench and of what it measured, and then its figures.
pub fn print_measure(
    rt: &impl Print,
    bench: &str,
    measure: &str,
    figures: &[(&str, Figure<'_>)],
) -> io::Result<()> {
    print!(rt; "{{\"bench\":\"{bench}\",\"measure\":\"{measure}\"")?;
    for (name, figure) in figures {
        print_figure(rt, name, *figure)?;
    }
    println!(rt; "}}")
}

fn print_figure(rt: &impl Print, name: &str, figure: Figure<'_>) -> io::Result<()> {
    match figure {
        Figure::Count(count) => print!(rt; ",\"{name}\":{count}"),
        Figure::Real(real) => print!(rt; ",\"{name}\":{real:.6}"),
        Figure::Word(word) => print!(rt; ",\"{name}\":\"{word}\""),
    }
}

/// How many of these there are for each of those, 0 where there is none of those.
pub fn share(these: u64, those: u64) -> f64 {
    nearest_u64_to_f64(these) / nearest_u64_to_f64(those.max(1))
}
