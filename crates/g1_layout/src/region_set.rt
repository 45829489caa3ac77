//! A set of regions.

ghost use Rattle.std.specs.Prelude.{◌<◌, ◌↔◌, ℕ, IsTrue};
ghost use Rattle.g1_layout.specs.Regions.{HasRegion, Gains, Loses};

use crate::region::Region;

/// A set of regions, with one bit for each region that a heap may have: 32 bytes, which are copied
/// freely.
///
/// Each call is a few instructions and takes no memory. Contracts describe a set by `HasRegion`
/// alone.
#[derive(Clone, Copy, Debug)]
pub struct RegionSet {
    words: [u64; 4],
}

impl RegionSet {
    /// An empty set.
    pub fn new() -> RegionSet
        ensures { (r : ℕ) → HasRegion result r → ⊥ }
    {
        RegionSet { words: [0; 4] }
    }

    /// Whether the set has the region.
    #[inline(always)]
    pub fn contains(&self, region: Region) -> bool
        requires { region < 256 }
        ensures { IsTrue result ↔ HasRegion self.now region }
    {
        let number = region.number();
        (self.words[(number / 64) as usize] >> (number % 64)) & 1 != 0
    }

    /// Adds the region.
    #[inline(always)]
    pub fn insert(&mut self, region: Region)
        requires { region < 256 }
        ensures { Gains self.old region self.new }
    {
        let number = region.number();
        let at = (number / 64) as usize;
        self.words[at] = self.words[at] | (1 << (number % 64));
    }

    /// Removes the region.
    #[inline(always)]
    pub fn remove(&mut self, region: Region)
        requires { region < 256 }
        ensures { Loses self.old region self.new }
    {
        let number = region.number();
        let at = (number / 64) as usize;
        self.words[at] = self.words[at] & !(1 << (number % 64));
    }
}
