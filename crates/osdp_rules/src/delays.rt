//! How long the answers of a run took, by a fixed number of buckets: no memory grows.

ghost use Rattle.std.specs.Prelude.{◌≡◌, ◌<◌};
ghost use Rattle.osdp_rules.specs.Delays.{bucket_of, counted, delays_after, delays_finding, greater, is_full, lesser, median, most, new_delays, nth_from};

use crate::finding::Finding;
use crate::findings::prompt_finding;

/// How long the answers of a run took, in milliseconds.
#[derive(Clone, Copy)]
pub struct Delays {
    /// How many took so many milliseconds; in the last bucket stand those that took 1000 or more.
    pub counts: [u32; 1001],
    /// How many there are.
    pub total: u32,
    /// The shortest.
    pub least: Option<u64>,
    /// The longest.
    pub greatest: Option<u64>,
}

/// The bucket of a delay.
fn bucket_of(delay: u64) -> usize
    ensures { result ≡ bucket_of delay }
{
    if delay < 1000 { delay as usize } else { 1000 }
}

/// The shorter one.
fn lesser(least: Option<u64>, delay: u64) -> Option<u64>
    ensures { result ≡ lesser least delay }
{
    match least {
        None => Some(delay),
        Some(least) => {
            if delay < least {
                Some(delay)
            } else {
                Some(least)
            }
        }
    }
}

/// The longer one.
fn greater(greatest: Option<u64>, delay: u64) -> Option<u64>
    ensures { result ≡ greater greatest delay }
{
    match greatest {
        None => Some(delay),
        Some(greatest) => {
            if greatest < delay {
                Some(delay)
            } else {
                Some(greatest)
            }
        }
    }
}

/// Whether no more is counted.
fn is_full(total: u32, count: u32) -> bool
    ensures { result ≡ is_full total count }
{
    total == u32::MAX || count == u32::MAX
}

/// The bucket of the n-th answer in the order of their times.
fn nth_least(counts: &[u32; 1001], n: u64) -> Option<usize>
    ensures { result ≡ nth_from 0 n counts.now }
{
    let mut left = &counts[..];
    let mut bucket: usize = 0;
    let mut needed = n;
    'buckets: while let Some((count, others)) = left.split_first() {
        let count = u64::from(*count);
        if needed <= count {
            return Some(bucket);
        }
        needed -= count;
        bucket += 1;
        left = others;
    }
    None
}

impl Delays {
    /// No answer yet.
    pub fn new() -> Delays
        ensures { result ≡ new_delays }
    {
        Delays {
            counts: [0; 1001],
            total: 0,
            least: None,
            greatest: None,
        }
    }

    /// One more in a bucket that has so many.
    fn counted(&mut self, bucket: usize, count: u32)
        requires { bucket < 1001 }
        ensures { self.new ≡ counted bucket count self.old }
    {
        if !is_full(self.total, count) {
            self.counts[bucket] = count + 1;
            self.total += 1;
        }
    }

    /// One answer more, which began so many milliseconds after its packet.
    pub fn add(&mut self, delay: u64)
        ensures { self.new ≡ delays_after delay self.old }
    {
        let bucket = bucket_of(delay);
        self.least = lesser(self.least, delay);
        self.greatest = greater(self.greatest, delay);
        self.counted(bucket, self.counts[bucket]);
    }

    /// Half of the answers began after no more milliseconds; 1000 stands for all that took longer too.
    pub fn median(&self) -> Option<usize>
        ensures { result ≡ median self.now }
    {
        nth_least(&self.counts, (u64::from(self.total) + 1) / 2)
    }

    /// 95 of 100 began after no more milliseconds; 1000 stands for all that took longer too.
    pub fn most(&self) -> Option<usize>
        ensures { result ≡ most self.now }
    {
        nth_least(&self.counts, (u64::from(self.total) * 95 + 99) / 100)
    }

    /// What the run shows of the 200 ms: its slowest answer decides.
    pub fn finding(&self) -> Finding
        ensures { result ≡ delays_finding self.now }
    {
        match self.greatest {
            None => Finding::Nothing,
            Some(delay) => prompt_finding(delay),
        }
    }
}
