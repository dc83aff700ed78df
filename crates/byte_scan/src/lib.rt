//! Plain scans over bytes: the first byte of a set, and how many bytes are a given one.
//!
//! No model: contracts see each argument as the list of its bytes. Each call equals its plain definition for every
//! length, takes no memory and is linear in `hay` (`first_of` times the length of the set). 32 bytes are looked at in one step,
//! as the lanes of a vector, and what is left behind the last 32 one by one.
#![tactic(auto)]

ghost use Rattle.std.specs.Prelude.{◌≡◌, ◌==◌, ◌+◌, ◌≤◌, length, drop, position, count_by};
ghost use Rattle.std.specs.List.{list_any, position_or_len};
ghost use Rattle.std.specs.Simd.Lanes.{chunk};

use std::simd::prelude::*;

/// How many bytes are looked at in one step.
const LANES: usize = 32;

/// How many of 32 bytes stand before the first one like this, or 32.
fn before(lanes: u8x32, byte: u8) -> usize
    requires { length lanes ≡ 32 }
    ensures { result ≡ position_or_len (λ b. byte == b) lanes }
{
    let marks = lanes.simd_eq(u8x32::splat(byte)).to_bitmask();
    if marks == 0 {
        LANES
    } else {
        marks.trailing_zeros() as usize
    }
}

/// How many of the 32 bytes from a place on stand before the first one of a set, or 32.
fn before_any(hay: &[u8], at: usize, set: &[u8]) -> usize
    requires { at + 32 ≤ length hay.now }
    ensures { result ≡ position_or_len (λ b. list_any (λ c. c == b) set.now) (chunk at 32 hay.now) }
{
    let lanes = u8x32::from_slice(&hay[at..]);
    let mut least = LANES;
    for byte in set {
        least = least.min(before(lanes, *byte));
    }
    least
}

/// How many bytes from a place on stand before the first one of a set, looked at one by one, where there is one.
fn first_from(hay: &[u8], at: usize, set: &[u8]) -> Option<usize>
    requires { at ≤ length hay.now }
    ensures { result ≡ position (λ b. list_any (λ c. c == b) set.now) (drop at hay.now) }
{
    let (_, rest) = hay.split_at(at);
    match set {
        [only] => first_place(rest, *only),
        _ => rest.iter().position(|b| set.contains(b)),
    }
}

/// The first place of one byte: the common case, without a loop over the set.
fn first_place(rest: &[u8], byte: u8) -> Option<usize>
    ensures { result ≡ position (λ b. byte == b) rest.now }
{
    rest.iter().position(|b| byte == *b)
}

/// The least place (counted in bytes from 0) in `hay` whose byte is in `set`, or none.
pub fn first_of(hay: &[u8], set: &[u8]) -> Option<usize>
    ensures { result ≡ position (λ b. list_any (λ c. c == b) set.now) hay.now }
{
    let mut at = 0;
    while hay.len() - at >= LANES {
        let free = before_any(hay, at, set);
        if free < LANES {
            return Some(at + free);
        }
        at += LANES;
    }
    match first_from(hay, at, set) {
        Some(place) => Some(at + place),
        None => None,
    }
}

/// How many of the 32 bytes from a place on are this byte.
fn count_in(hay: &[u8], at: usize, byte: u8) -> usize
    requires { at + 32 ≤ length hay.now }
    ensures { result ≡ count_by (λ b. b == byte) (chunk at 32 hay.now) }
{
    let lanes = u8x32::from_slice(&hay[at..]);
    let marks = lanes.simd_eq(u8x32::splat(byte)).to_bitmask();
    marks.count_ones() as usize
}

/// How many bytes from a place on are this byte, looked at one by one.
fn count_from(hay: &[u8], at: usize, byte: u8) -> usize
    requires { at ≤ length hay.now }
    ensures { result ≡ count_by (λ b. b == byte) (drop at hay.now) }
{
    hay[at..].iter().filter(|b| **b == byte).count()
}

/// How many bytes of `hay` are this byte.
pub fn count_of(hay: &[u8], byte: u8) -> usize
    ensures { result ≡ count_by (λ b. b == byte) hay.now }
{
    let mut at = 0;
    let mut total = 0;
    while hay.len() - at >= LANES {
        total += count_in(hay, at, byte);
        at += LANES;
    }
    total + count_from(hay, at, byte)
}
