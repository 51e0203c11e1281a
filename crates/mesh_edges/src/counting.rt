//! The number of things with a property, as a definition that contracts cite.
//!
//! A number counts things with a property if they stand in a list, each once, of that length (`AreSoMany`). A loop that counts by a
//! test keeps that for all numbers that it has passed.
ghost use Rattle.std.specs.Prelude.{◌≡◌, ◌<◌, ◌+◌, ◌-◌, ◌^◌, if◌then◌else◌};

/// Returns a count, one more if something is to be counted.
pub fn next_count(count: usize, hit: bool) -> usize
    requires { count < 2 ^ 64 - 1 }
    ensures { result ≡ count + (if hit then 1 else 0) }
{
    if hit { count + 1 } else { count }
}
