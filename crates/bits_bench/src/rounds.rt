//! A kernel and the plain loop beside it, in rounds that take turns.
use anyhow::{Result, bail};
use bench_kit::{Figure, Measured, ROUNDS, Watch, print_measure};
use std::time::CpuClock;

/// A kernel with the calls that are made of it, and the plain loop with its own.
///
/// It borrows what it asks: rounds then own nothing, and are proved once for all kernels.
pub trait Kernel {
    /// Makes the calls of the kernel: the sum of its answers.
    fn kernel(&self) -> u64;
    /// Makes those of the plain loop: the sum of its answers.
    fn plain(&self) -> u64;
    /// Whether both answered the same, of these two sums, at the plain loop's calls.
    fn agree(&self, kernel: u64, plain: u64) -> bool;
    /// How many calls both make, the kernel's first.
    fn calls(&self) -> (u64, u64);
}

/// Measures a kernel, and prints its times and the sum of its answers.
pub fn measure<K: Kernel>(rt: &(impl Print + CpuClock), name: &str, kernel: &K) -> Result<()> {
    let (race, sum) = rounds(rt, kernel)?;
    print(rt, name, &race, sum, None)
}

/// Prints the nanoseconds of a call of a kernel and of the plain loop, the sum of the answers, and one figure more where
/// there is one.
pub fn print(
    rt: &impl Print,
    name: &str,
    race: &Measured,
    sum: u64,
    more: Option<(&str, Figure<'_>)>,
) -> Result<()> {
    let figures = [
        ("ns", Figure::Real(race.call.nanoseconds)),
        ("plain_ns", Figure::Real(race.floor.nanoseconds)),
        ("ratio", Figure::Real(race.floor.over(race.call))),
        ("sum", Figure::Count(sum)),
        more.unwrap_or(("rounds", Figure::Count(u64::from(ROUNDS)))),
    ];
    print_measure(rt, "bits_bench", name, &figures)?;
    Ok(())
}

/// Measures a kernel: its least times, and the sum of its answers over all rounds.
pub fn rounds<K: Kernel>(rt: &impl CpuClock, kernel: &K) -> Result<(Measured, u64)> {
    let mut race = Measured::new();
    let mut sum = 0u64;
    for _ in 0..ROUNDS {
        sum = sum.wrapping_add(round(rt, kernel, &mut race)?);
    }
    Ok((race, sum))
}

// Both once: the sum of the kernel's answers.
fn round<K: Kernel>(rt: &impl CpuClock, kernel: &K, race: &mut Measured) -> Result<u64> {
    let (kernel_calls, plain_calls) = kernel.calls();
    let watch = Watch::start(rt)?;
    let kernel_sum = kernel.kernel();
    let kernel_time = watch.stop_each(rt, kernel_calls)?;
    let watch = Watch::start(rt)?;
    let plain_sum = kernel.plain();
    race.call.keep(kernel_time);
    race.floor.keep(watch.stop_each(rt, plain_calls)?);
    if !kernel.agree(kernel_sum, plain_sum) {
        bail!("the two do not agree");
    }
    Ok(kernel_sum)
}
