// What a band of a layer's input reaches, and one layer's growth.
ghost use Rattle.std.specs.Prelude.{◌≡◌, ◌≤◌, ◌<◌};
ghost use Rattle.numbers.specs.Limits.{tensor_most};
ghost use Rattle.bands.specs.Reach.{reached_band};
ghost use Rattle.bands.specs.Grow.{grow_one};
ghost use Rattle.bands.specs.State.{band_of};

use crate::band::{Band, cover};
use crate::state::{State, band_of, with_band};
use numbers::stride::strides_in;

/// How a layer hangs on its inputs: its second input (its first where it has one), and the rows of its window.
#[derive(Clone, Copy, Debug, PartialEq, Eq)]
pub struct Link {
    pub other: usize,
    pub before: u16,
    pub kernel: u16,
    pub stride: u16,
    pub rows: u16,
}

/// The smallest band covering the layer's rows that the band b of an input reaches, by two quotients.
#[tactic(auto, using(crate::proofs::Reached::reaches), unfolding(crate::proofs::Reached::divided))]
pub fn reached(b: Band, y: Link) -> Band
    // No ghost field of `Link` says this: a layer of any network has one, also a full layer of an input with no rows, whose kernel is 0.
    requires { (b.end ≤ tensor_most) × (y.before ≤ 256) × (0 < y.kernel) × (0 < y.stride) × (y.stride ≤ 4) }
    ensures { result ≡ reached_band b y }
{
    if b.is_empty() {
        return Band::EMPTY;
    }
    let stride = usize::from(y.stride);
    let from = (b.first + y.before + y.stride).saturating_sub(y.kernel);
    let first = strides_in(usize::from(from), stride) as u16;
    let last = strides_in(usize::from(b.end + y.before - 1), stride) as u16;
    let end = y.rows.min(last + 1);
    if first < end {
        Band { first, end }
    } else {
        Band::EMPTY
    }
}

/// The band of layer m's tensor grows by what the bands of its inputs reach.
#[tactic(auto, unfolding(crate::specs::Grow::grow_one))]
pub fn grow_one(s: State, y: Link, m: usize) -> State
    requires tensors { (m < 16) × (y.other ≤ m) × ((band_of s m).end ≤ tensor_most) × ((band_of s y.other).end ≤ tensor_most) }
    requires window { (y.before ≤ 256) × (0 < y.kernel) × (0 < y.stride) × (y.stride ≤ 4) }
    ensures { result ≡ grow_one s y m }
{
    let first = reached(band_of(s, m), y);
    let second = reached(band_of(s, y.other), y);
    let own = band_of(s, m + 1);
    with_band(s, m + 1, cover(own, cover(first, second)))
}
