//! Binary search in numbers that do not decrease.

ghost use Rattle.std.specs.List.Sorted.{IsNonDecreasing};
ghost use Rattle.mp4_samples.specs.Search.{IsCountAtMost};

/// Returns how many of `numbers` are at most `limit`.
pub fn count_at_most(numbers: &[u32], limit: u32) -> usize
    requires { IsNonDecreasing numbers.now }
    ensures { IsCountAtMost numbers.now limit result }
{
    numbers.partition_point(|number| *number <= limit)
}

/// Returns how many of `numbers`, which have 64 bits, are at most `limit`.
pub fn long_count_at_most(numbers: &[u64], limit: u64) -> usize
    requires { IsNonDecreasing numbers.now }
    ensures { IsCountAtMost numbers.now limit result }
{
    numbers.partition_point(|number| *number <= limit)
}
