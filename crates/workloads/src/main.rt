//! The jobs that users of `simd_cesu8` and `java_text` wait for, as workloads that `bench/run`
//! times.
//!
//! The arguments are the name of a workload, a seed for its inputs and a number of rounds. Each
//! round changes every input, so no call gets the same input twice. The program prints the name and
//! a digest of all results, which must be equal for two builds of the library. The name `every`
//! means all workloads.
#![tactic(auto)]

mod class_files;
mod damaged;
mod digest;
mod dumps;
mod keys;
mod metadata;
mod pool;
mod random;
mod scripts;
mod tags;

use crate::digest::Digest;
use crate::random::Random;
use std::alloc::{AllocError, Global};
use std::io::ErrorKind;
use std::{env, io};

/// The names of the workloads.
const NAMES: [&str; 6] = [
    "class_files",
    "metadata",
    "tags",
    "keys",
    "dumps",
    "damaged",
];

fn main(rt: HostRuntime) -> io::Result<()> {
    let mut words = env::args(&rt)?.skip(1);
    let (Some(name), Some(seed), Some(rounds)) = (words.next(), words.next(), words.next()) else {
        return Err(ErrorKind::InvalidInput.into());
    };
    let (Ok(seed), Ok(rounds)) = (seed.parse::<u32>(), rounds.parse::<u32>()) else {
        return Err(ErrorKind::InvalidInput.into());
    };
    for known in NAMES {
        if name.as_str() == known || name.as_str() == "every" {
            let digest = run(rt.alloc(), known, seed, rounds)?;
            println!(rt; "{known} {digest}")?;
        }
    }
    Ok(())
}

/// Runs a workload, and returns the digest of its results.
fn run(alloc: Global, name: &str, seed: u32, rounds: u32) -> Result<Digest, AllocError> {
    let mut random = Random::new(seed);
    let mut digest = Digest::new();
    match name {
        "class_files" => class_files::run(alloc, &mut random, rounds, &mut digest)?,
        "metadata" => metadata::run(alloc, &mut random, rounds, &mut digest)?,
        "tags" => tags::run(alloc, &mut random, rounds, &mut digest)?,
        "keys" => keys::run(alloc, &mut random, rounds, &mut digest)?,
        "dumps" => dumps::run(alloc, &mut random, rounds, &mut digest)?,
        _ => damaged::run(alloc, &mut random, rounds, &mut digest)?,
    }
    Ok(digest)
}
