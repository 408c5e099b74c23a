//! Searches for a label and for the set bits beside a place.
ghost use Rattle.std.specs.Prelude.{◌≤◌, ◌<◌, length};

use crate::inputs::random_numbers;
use crate::measures::sparse_bits;
use crate::plain;
use crate::rounds::{Kernel, measure};
use anyhow::{Result, bail};
use bench_kit::{Numbers, boxed};
use bit_words::Bits;
use std::alloc::{AllocError, Global};
use std::time::CpuClock;

// How many nodes are searched.
const NODES: u64 = 1024;

// A label to look for, in the node that begins at a place.
#[derive(Clone, Copy)]
struct Query {
    start: usize,
    label: u8,
}

// The labels of all nodes, `fan_out` each, which rise in each node.
fn random_labels(alloc: Global, fan_out: u64, numbers: &mut Numbers) -> Result<Vec<u8>, AllocError>
    requires { (0 < fan_out) × (fan_out ≤ 256) }
{
    let gap = 256 / fan_out;
    let mut labels = Vec::new(alloc);
    for _ in 0..NODES {
        for i in 0..fan_out {
            let label = i * gap + numbers.draw_to(gap - 1);
            labels.push(label as u8)?;
        }
    }
    Ok(labels)
}

// As many queries of random nodes, half of them for a label that is there and half for any.
fn random_queries(
    alloc: Global,
    labels: &[u8],
    fan_out: u64,
    count: usize,
    numbers: &mut Numbers,
) -> Result<Vec<Query>, AllocError>
    requires { (0 < fan_out) × (fan_out ≤ 256) }
{
    let mut queries = Vec::with_capacity(alloc, count)?;
    for _ in 0..count {
        let start = (numbers.draw_to(NODES - 1) * fan_out) as usize;
        let place = start + numbers.draw_to(fan_out - 1) as usize;
        let any = numbers.draw_to(255) as u8;
        let there = labels.get(place).copied().unwrap_or(any);
        let label = if numbers.draw_to(1) == 0 { there } else { any };
        queries.push(Query { start, label })?;
    }
    Ok(queries)
}

// The kernel, called as the plain loop is.
#[inline(never)]
fn kernel_label(bytes: &[u8], label: u8) -> Option<usize> {
    lane_scan::find_label(bytes, label)
}

// The sum of the places that the kernel finds, `rounds` times over.
#[inline(never)]
fn sum_of_labels(labels: &[u8], fan_out: usize, queries: &[Query], rounds: u64) -> u64 {
    let mut sum = 0u64;
    for _ in 0..rounds {
        for query in queries {
            if let Some(node) = labels.get(query.start..query.start.wrapping_add(fan_out)) {
                sum = sum.wrapping_add(kernel_label(node, query.label).unwrap_or(256) as u64);
            }
        }
    }
    sum
}

// The kernel that searches from place to place in a section.
#[inline(never)]
fn kernel_between(section: &[u8], start: usize, end: usize, label: u8) -> Option<usize>
    requires order { start ≤ end }
    requires there { end ≤ length section.now }
{
    lane_scan::find_label_between(section, start, end, label)
}

// The sum of the places that it finds, each counted from the node's start, `rounds` times over.
#[inline(never)]
fn sum_in_section(labels: &[u8], fan_out: usize, queries: &[Query], rounds: u64) -> u64 {
    let mut sum = 0u64;
    for _ in 0..rounds {
        for query in queries {
            let end = query.start.saturating_add(fan_out);
            if end <= labels.len() {
                let found = kernel_between(labels, query.start, end, query.label);
                let place = found.unwrap_or(query.start.wrapping_add(256));
                sum = sum.wrapping_add(place.wrapping_sub(query.start) as u64);
            }
        }
    }
    sum
}

// The same by the plain loop.
#[inline(never)]
fn sum_of_plain_labels(labels: &[u8], fan_out: usize, queries: &[Query], rounds: u64) -> u64 {
    let mut sum = 0u64;
    for _ in 0..rounds {
        for query in queries {
            if let Some(node) = labels.get(query.start..query.start.wrapping_add(fan_out)) {
                sum = sum.wrapping_add(plain::find_label(node, query.label).unwrap_or(256) as u64);
            }
        }
    }
    sum
}

// How many queries are made, before they are asked again.
const QUERIES: usize = 65536;

// Queries in nodes of `fan_out` labels, `rounds` times over.
#[derive(Clone, Copy)]
struct Labels<'a> {
    labels: &'a [u8],
    fan_out: usize,
    queries: &'a [Query],
    rounds: u64,
    in_section: bool,
}

impl<'a> Kernel for Labels<'a> {
    fn kernel(&self) -> u64 {
        if self.in_section {
            sum_in_section(self.labels, self.fan_out, self.queries, self.rounds)
        } else {
            sum_of_labels(self.labels, self.fan_out, self.queries, self.rounds)
        }
    }

    fn plain(&self) -> u64 {
        sum_of_plain_labels(self.labels, self.fan_out, self.queries, self.rounds)
    }

    fn agree(&self, kernel: u64, plain: u64) -> bool {
        kernel == plain
    }

    fn calls(&self) -> (u64, u64) {
        let calls = self.rounds.saturating_mul(self.queries.len() as u64);
        (calls, calls)
    }
}

/// Measures `find_label` in nodes of `fan_out` labels, or `find_label_between` in one section of all these nodes.
pub fn find_label(
    rt: &(impl Print + CpuClock),
    alloc: Global,
    fan_out: u64,
    calls: u64,
    seed: u64,
    in_section: bool,
) -> Result<()> {
    if fan_out == 0 || fan_out > 256 {
        bail!("a node has 1 to 256 labels");
    }
    let mut numbers = Numbers::new(seed);
    let labels = random_labels(alloc, fan_out, &mut numbers)?;
    let queries = random_queries(alloc, &labels, fan_out, QUERIES, &mut numbers)?;
    let asked = Labels {
        labels: &labels,
        fan_out: fan_out as usize,
        queries: &queries,
        rounds: calls / QUERIES as u64 + 1,
        in_section,
    };
    let name = if in_section {
        "find_in_section"
    } else {
        "find_label"
    };
    measure(rt, name, &asked)
}

// The sum of the set bits around these places: the last at or before each, and the first behind it.
#[inline(never)]
fn sum_of_ranges(bits: &Bits<Global>, places: &[u64]) -> u64 {
    let mut sum = 0u64;
    for place in places {
        let behind = (*place as usize).saturating_add(1);
        let start = bits.last_one_before(behind).unwrap_or(0);
        let end = bits.first_one_from(behind).unwrap_or(0);
        sum = sum.wrapping_add(start as u64).wrapping_add(end as u64);
    }
    sum
}

// The same by the plain loops.
#[inline(never)]
fn sum_of_plain_ranges(words: &[u64], places: &[u64]) -> u64 {
    let mut sum = 0u64;
    for place in places {
        let behind = (*place as usize).saturating_add(1);
        let start = plain::last_one_before(words, behind).unwrap_or(0);
        let end = plain::first_one_from(words, behind).unwrap_or(0);
        sum = sum.wrapping_add(start as u64).wrapping_add(end as u64);
    }
    sum
}

// The set bits around some places.
#[derive(Clone, Copy)]
struct Ranges<'a> {
    bits: &'a Bits<Global>,
    places: &'a [u64],
}

impl<'a> Kernel for Ranges<'a> {
    fn kernel(&self) -> u64 {
        sum_of_ranges(self.bits, self.places)
    }

    fn plain(&self) -> u64 {
        sum_of_plain_ranges(self.bits.words(), self.places)
    }

    fn agree(&self, kernel: u64, plain: u64) -> bool {
        kernel == plain
    }

    fn calls(&self) -> (u64, u64) {
        (self.places.len() as u64, self.places.len() as u64)
    }
}

/// Measures `last_one_before` and `first_one_from`, one after the other, at random places of `size` bits, one in
/// `one_in` of them set.
pub fn node_range(
    rt: &(impl Print + CpuClock),
    alloc: Global,
    size: u64,
    calls: u64,
    seed: u64,
    one_in: u64,
) -> Result<()> {
    let mut numbers = Numbers::new(seed);
    let bits = boxed(alloc, sparse_bits(alloc, size, one_in, &mut numbers)?)?;
    let places = random_numbers(alloc, usize::try_from(calls)?, size, &mut numbers)?;
    let ranges = Ranges {
        bits: &bits,
        places: &places,
    };
    measure(rt, "node_range", &ranges)
}
