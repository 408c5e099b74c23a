//! Stretches of processor time, and the least of some.
use std::io;
use std::num::nearest_u64_to_f64;
use std::time::{CpuClock, Duration};

/// How many rounds a bench has as a rule, of which the least time counts.
pub const ROUNDS: u32 = 5;

/// A stretch of processor time of the thread, which other work on the machine does not lengthen.
#[derive(Clone, Copy)]
pub struct Watch {
    start: Duration,
}

impl Watch {
    /// Begins now.
    pub fn start(rt: &impl CpuClock) -> io::Result<Watch> {
        Ok(Watch {
            start: rt.thread_cpu_time()?,
        })
    }

    /// The time since the start.
    pub fn stop(self, rt: &impl CpuClock) -> io::Result<Duration> {
        Ok(rt.thread_cpu_time()?.saturating_sub(self.start))
    }

    /// Nanoseconds a call, of as many as there were since the start.
    pub fn stop_each(self, rt: &impl CpuClock, calls: u64) -> io::Result<f64> {
        Ok(self.stop(rt)?.as_secs_f64() * 1e9 / nearest_u64_to_f64(calls))
    }
}

/// The least time of several rounds, in nanoseconds: what else the machine does only lengthens one.
#[derive(Clone, Copy)]
pub struct Least {
    pub nanoseconds: f64,
}

impl Least {
    /// More than anything takes.
    pub fn new() -> Least {
        Least { nanoseconds: 1e300 }
    }

    /// Keeps the nanoseconds of a round where they are fewer.
    pub fn keep(&mut self, nanoseconds: f64) {
        if nanoseconds < self.nanoseconds {
            self.nanoseconds = nanoseconds;
        }
    }

    /// Keeps the time of a round where it is less.
    pub fn keep_time(&mut self, time: Duration) {
        self.keep(time.as_secs_f64() * 1e9);
    }

    /// Nanoseconds of one of so many.
    pub fn of_one(&self, count: usize) -> f64 {
        self.nanoseconds / nearest_u64_to_f64(count as u64)
    }

    /// How many million calls a second, where the nanoseconds are of one call.
    pub fn millions(self) -> f64 {
        1e3 / self.nanoseconds
    }

    /// How many times another's time.
    pub fn over(self, other: Least) -> f64 {
        self.nanoseconds / other.nanoseconds
    }
}

/// The least times of some calls, and of their floor: what no code for them can leave out.
#[derive(Clone, Copy)]
pub struct Measured {
    pub call: Least,
    pub floor: Least,
}

impl Measured {
    /// Nothing measured yet.
    pub fn new() -> Measured {
        Measured {
            call: Least::new(),
            floor: Least::new(),
        }
    }

    /// Nanoseconds of one of so many, and of its floor.
    pub fn of_one(&self, count: usize) -> (f64, f64) {
        (self.call.of_one(count), self.floor.of_one(count))
    }
}
