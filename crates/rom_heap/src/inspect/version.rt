//! Versions of the region. One walk inspects both versions, and is told which chain it goes along. So there
//! is one text of what a link may lead to, and one proof.
ghost use Rattle.std.specs.Prelude.{◌≡◌};
ghost use Rattle.rom_heap.specs.Tests.{number_of};
ghost use Rattle.rom_heap.specs.Walks.{bucket_walk};

use crate::inspect::walk::Walk;

/// A version of the region.
#[derive(Clone, Copy, Debug, PartialEq, Eq)]
pub enum Version {
    /// Version 1, in which the map's keys had no stamps and a bucket's keys stood in any order.
    Old,
    /// Version 2, which is this one.
    Now,
}

impl Version {
    /// The number that stands in a region's root.
    pub fn number(self) -> u64
        ensures { result ≡ number_of self }
    {
        match self {
            Version::Old => 1,
            Version::Now => 2,
        }
    }

    /// The walk along the chain of the bucket with that number.
    pub fn bucket(self, number: u64) -> Walk
        ensures { result ≡ bucket_walk self number }
    {
        match self {
            Version::Old => Walk::OldBucket(number),
            Version::Now => Walk::Bucket(number),
        }
    }
}
