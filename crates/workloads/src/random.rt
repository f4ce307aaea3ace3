//! Random numbers from a seed. With other numbers from a seed, the workloads have other inputs, and
//! the lines of bench/costs.txt change.

ghost use Rattle.std.specs.Prelude.{◌<◌, ◌≤◌};

use rand_xoshiro::Xoshiro256PlusPlus;
use rand_xoshiro::rand_core::{Rng, SeedableRng};

/// A generator of random numbers.
#[derive(Drop)]
pub struct Random(Xoshiro256PlusPlus);

impl Random {
    pub fn new(seed: u32) -> Self {
        Random(Xoshiro256PlusPlus::seed_from_u64(u64::from(seed)))
    }

    /// Returns a number below `count`.
    pub fn below(&mut self, count: u32) -> u32
        requires { 0 < count }
        ensures { result < count }
    {
        self.0.next_u32() % count
    }

    /// Returns a number from `least` to `most`.
    pub fn within(&mut self, least: u32, most: u32) -> u32
        requires { (least ≤ most) × (most < 1000000000) }
        ensures { (least ≤ result) × (result ≤ most) }
    {
        least + self.below(most - least + 1)
    }

    /// Returns a number of any order of magnitude: `least` doubled at most `doublings` times, each
    /// number of doublings with the same chance, plus a number below `least`.
    pub fn of_any_size(&mut self, least: u32, doublings: u32) -> u32
        requires { (0 < least) × (least < 65536) × (doublings < 12) }
    {
        let base = least << self.below(doublings + 1);
        base.wrapping_add(self.below(least))
    }

    /// Returns true with a chance of one in `count`.
    pub fn one_in(&mut self, count: u32) -> bool
        requires { 0 < count }
    {
        self.below(count) == 0
    }

    /// Returns a random byte.
    pub fn byte(&mut self) -> u8 {
        (self.0.next_u32() & 0xFF) as u8
    }
}
