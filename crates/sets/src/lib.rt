// Sets of small numbers as 32-bit masks: k is in a set where digit k of its mask is 1.
// Every function takes every mask and every number; a number of 32 or more is in no set.
#![tactic(auto)]

ghost use Rattle.std.specs.Prelude.{◌≡◌};
ghost use Rattle.sets.specs.Set.{has, is_empty, with, without, union, minus, overlap, first, all_but, size};

// Is k in m?
#[tactic(auto, using(crate::specs::Laws::has_outside), unfolding(crate::specs::Set::has))]
pub fn has(m: u32, k: usize) -> bool
    ensures { result ≡ has m k }
{
    if k < 32 { (m >> k) % 2 == 1 } else { false }
}

// Is nothing in m?
pub fn is_empty(m: u32) -> bool
    ensures { result ≡ is_empty m }
{
    m == 0
}

// The set m with k put in. A k of 32 or more can't be put in, and m stays.
pub fn with(m: u32, k: usize) -> u32
    ensures { result ≡ with m k }
{
    if k < 32 { m | (1 << k) } else { m }
}

// The set m with k taken out. A k that is not in m leaves m as it is.
pub fn without(m: u32, k: usize) -> u32
    ensures { result ≡ without m k }
{
    if k < 32 { minus(m, 1 << k) } else { m }
}

// What is in a, in b, or in both.
pub fn union(a: u32, b: u32) -> u32
    ensures { result ≡ union a b }
{
    a | b
}

// What is in a and not in b. It is empty exactly where a is a part of b.
pub fn minus(a: u32, b: u32) -> u32
    ensures { result ≡ minus a b }
{
    a & !b
}

// Is anything in both a and b?
pub fn overlap(a: u32, b: u32) -> bool
    ensures { result ≡ overlap a b }
{
    a & b != 0
}

// The n numbers from 0 to n - 1. An n of 32 or more gives all that a set can hold.
pub fn first(n: usize) -> u32
    ensures { result ≡ first n }
{
    if n < 32 { (1 << n) - 1 } else { u32::MAX }
}

// The n numbers from 0 to n - 1 but k: everyone else, seen from k.
pub fn all_but(n: usize, k: usize) -> u32
    ensures { result ≡ all_but n k }
{
    without(first(n), k)
}

// How many numbers are in m.
pub fn count(m: u32) -> u32
    ensures { result ≡ size m }
{
    m.count_ones()
}
