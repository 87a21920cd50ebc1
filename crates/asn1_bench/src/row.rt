//! A piece of work, and how it is timed.

use std::alloc::{AllocError, Global};
use std::time::Instant;

/// What a row says of its work.
#[derive(Clone, Copy)]
pub struct Work {
    /// What is done, in a few words.
    pub name: &'static str,
    /// The number of pieces in a round.
    pub pieces: u64,
    /// The number of octets in a round, or 0 if they are not counted.
    pub octets: u64,
}

/// A piece of work that is done many times in a round.
pub trait Row {
    /// Returns what the work is.
    fn work(&self) -> Work;

    /// Does a round. The result depends on all of the work, so that the compiler cannot leave out
    /// any of it.
    fn round(&mut self, alloc: Global) -> Result<u64, AllocError>;
}

/// Prints a line for the row, if it could be made: the result of its round or, if it is timed, the
/// time of a piece in the best round.
pub fn show<R: Row + Drop>(
    rt: &HostRuntime,
    made: Result<R, AllocError>,
    rounds: u32,
) -> anyhow::Result<()> {
    let mut row = made?;
    let work = row.work();
    if rounds == 0 {
        let answer = row.round(rt.alloc())?;
        println!(rt; "{}: {answer}", work.name)?;
        return Ok(());
    }
    show_time(rt, work, best_of(rt, &mut row, rounds)?)
}

/// Prints a line for work whose best round takes `best` nanoseconds.
fn show_time(rt: &HostRuntime, work: Work, best: u64) -> anyhow::Result<()> {
    // Hundredths of a nanosecond.
    let each = u128::from(best) * 100 / u128::from(work.pieces.max(1));
    println!(rt; "{}: {}.{:02} ns", work.name, each / 100, each % 100)?;
    if work.octets > 0 {
        println!(rt; "    {} octets a second", per_second(work.octets, best))?;
    }
    Ok(())
}

/// Returns the nanoseconds of the shortest of `rounds` rounds, at least 1.
fn best_of<R: Row>(rt: &HostRuntime, row: &mut R, rounds: u32) -> anyhow::Result<u64> {
    let mut best = u64::MAX;
    let mut answers = 0u64;
    for _ in 0..rounds {
        let start = Instant::now(rt)?;
        answers = answers.wrapping_add(row.round(rt.alloc())?);
        let taken = start.elapsed(rt)?.as_nanos();
        best = best.min(u64::try_from(taken).unwrap_or(u64::MAX));
    }
    // The results are used.
    if answers == u64::MAX {
        println!(rt; "all answers together: {answers}")?;
    }
    Ok(best.max(1))
}

/// Returns octets per second, from the octets of some nanoseconds.
fn per_second(octets: u64, nanoseconds: u64) -> u128 {
    u128::from(octets) * 1_000_000_000 / u128::from(nanoseconds.max(1))
}
