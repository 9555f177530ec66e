// The state by value, its test, and the state that each call leaves.
ghost use Rattle.std.specs.Prelude.{◌≡◌, ◌<◌, replicate};
ghost use Rattle.refusals.specs.Refusal.{fault_of};
ghost use Rattle.bands.specs.State.{band_of, with_band, all_stale, all_empty, fair, fair_at, state_fault, clean as is_clean, loaded, changed, replaced};

use crate::band::{Band, cover};
use refusals::refusal::Refusal;
use std::array;

/// A band for each of tensors 0 to 16.
#[derive(Clone, Copy, Debug, PartialEq, Eq)]
pub struct State {
    pub bands: [Band; 17],
}

/// The rows of tensors 0 to count; the numbers past these say nothing. Nothing is allocated, so they stand in an array of the most.
#[derive(Clone, Copy)]
pub struct Tensors {
    pub count: usize,
    pub rows: [u16; 17],
}

// What follows are free functions: edits of crate clew put another of the same name in the place of some of them.

/// The band of tensor t.
pub fn band_of(s: State, t: usize) -> Band
    requires { t < 17 }
    ensures { result ≡ band_of s t }
{
    s.bands[t]
}

/// The state with another band for tensor t.
pub fn with_band(mut s: State, t: usize, b: Band) -> State
    requires { t < 17 }
    ensures { result ≡ with_band s t b }
{
    s.bands[t] = b;
    s
}

// The same band for each tensor.
fn all_bands(b: Band) -> State
    ensures { result.bands ≡ replicate 17 b }
{
    State { bands: [b; 17] }
}

/// The state of a refused load: test 5 refuses it for every network.
pub fn all_stale() -> State
    ensures { result ≡ all_stale }
{
    all_bands(Band { first: 1, end: 0 })
}

/// Every band empty: what an update leaves.
pub fn all_empty() -> State
    ensures { result ≡ all_empty }
{
    all_bands(Band::EMPTY)
}

// The test of a band whose tensor the network has.
fn is_fair(rows: u16, b: Band) -> bool
    ensures { result ≡ fair rows b }
{
    b.first <= b.end && b.end <= rows && (b.first < b.end || b.end == 0)
}

// The test of tensor t's band, which is empty where the network lacks the tensor.
fn is_fair_at(s: State, n: Tensors, t: usize) -> bool
    requires { t < 17 }
    ensures { result ≡ fair_at s n t }
{
    let b = s.bands[t];
    if t <= n.count {
        is_fair(n.rows[t], b)
    } else {
        b == Band::EMPTY
    }
}

/// Test 5, of all the bands.
pub fn state_fault(s: State, n: Tensors) -> Result<(), Refusal>
    ensures { fault_of result ≡ state_fault s n }
{
    if (0..17).all(|t| is_fair_at(s, n, t)) {
        Ok(())
    } else {
        Err(Refusal::BadBands)
    }
}

/// Whether every band is empty.
pub fn clean(s: State) -> bool
    ensures { result ≡ is_clean s }
{
    s.bands.iter().all(|b| b.is_empty())
}

/// Every existing tensor's band covers all its rows, the others are empty.
pub fn after_load(n: Tensors) -> State
    ensures { result ≡ loaded n }
{
    State {
        bands: array::from_fn(|t| {
            if t <= n.count {
                Band {
                    first: 0,
                    end: n.rows[t],
                }
            } else {
                Band::EMPTY
            }
        }),
    }
}

/// Band 0 becomes the smallest band covering the old one and the rows from first up to end.
pub fn after_change(s: State, first: u16, end: u16) -> State
    ensures { result ≡ changed s first end }
{
    with_band(s, 0, cover(band_of(s, 0), Band { first, end }))
}

/// Band k covers the whole tensor.
pub fn after_replace(s: State, k: usize, rows: u16) -> State
    requires { k < 17 }
    ensures { result ≡ replaced s k rows }
{
    let whole = Band {
        first: 0,
        end: rows,
    };
    with_band(s, k, whole)
}
