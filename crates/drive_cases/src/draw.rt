//! Random numbers, the same at each run.
ghost use Rattle.std.specs.Prelude.{◌^◌, ◌<◌, ◌≤◌, unsigned_abs};

use servo::place::Place;

#[derive(Drop)]
pub(crate) struct Draw {
    pub(crate) state: u64,
}

impl Draw {
    fn next(&mut self) -> u64 {
        self.state = self
            .state
            .wrapping_mul(6364136223846793005)
            .wrapping_add(1442695040888963407);
        let x = (self.state ^ (self.state >> 33)).wrapping_mul(0xff51_afd7_ed55_8ccd);
        x ^ (x >> 33)
    }

    // A plain n here and below: a type that is never 0 would be no plainer at the many calls with a literal.
    pub(crate) fn below(&mut self, n: u64) -> u64
        requires { 1 ≤ n }
        ensures { result < n }
    {
        self.next() % n
    }

    // More often small than large.
    pub(crate) fn small(&mut self, n: u64) -> u64
        requires { 1 ≤ n }
        ensures { result < n }
    {
        let value = self.below(n);
        value >> self.below(24)
    }

    // A size with a sign.
    pub(crate) fn sign(&mut self, size: u64) -> i64
        requires { size < 2 ^ 63 }
    {
        let z = size as i64;
        if self.below(2) == 1 { -z } else { z }
    }

    pub(crate) fn signed(&mut self, n: u64) -> i64
        requires positive { 1 ≤ n }
        requires small { n ≤ 2 ^ 63 }
    {
        let size = self.small(n);
        self.sign(size)
    }

    // A step of at most this size, either way.
    pub(crate) fn step(&mut self, size: u32) -> i64
        ensures { unsigned_abs result ≤ size }
    {
        let n = self.below(2 * u64::from(size) + 1);
        n as i64 - i64::from(size)
    }

    // A place at most this far from x.
    pub(crate) fn near(&mut self, x: Place, size: u32) -> Place {
        Place::new(x.at + self.step(size))
    }
}
