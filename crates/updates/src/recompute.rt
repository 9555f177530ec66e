// The rows of the grown bands, recomputed layer after layer.
ghost use Rattle.std.specs.Prelude.{◌≡◌, suc, ◌≤◌, ◌<◌, length};
ghost use Rattle.numbers.specs.Asked.{window_most};
ghost use Rattle.network.specs.Network.{tensor_of, place_of, zero_of};
ghost use Rattle.fields.specs.Shape.{row_bytes};
ghost use Rattle.bands.specs.State.{band_of};
ghost use Rattle.bands.specs.Grow.{grow_one};
ghost use Rattle.checks.specs.Tensors.{link_of};
ghost use Rattle.updates.specs.Asked.{CanRecompute, BandsWithin};
ghost use Rattle.updates.specs.Recompute.{redone, bytes_in, updated_to, count_to};

use bands::reach::grow_one;
use bands::state::{State, band_of};
use checks::tensors::link_of;
use layers::row::put_rows;
use layers::source::Source;
use layers::stored::Stored;
use network::net::Network;
use numbers::limits::WINDOW_MOST;

// What one layer's step answers: the bands grown so far, and the bytes recomputed.
#[derive(Clone, Copy)]
struct Step {
    state: State,
    count: u32,
}

// Tensor t as an input.
fn source(n: &Network, t: usize) -> Source
    requires { t ≤ 16 }
    ensures from { result.from ≡ place_of n.now t }
    ensures zero { result.zero ≡ zero_of n.now t }
{
    Source {
        from: n.place(t),
        zero: n.zero_point(t),
    }
}

// One layer's step: its band grows, and the rows in it are recomputed.
fn recompute_layer(
    n: &Network,
    stored: Stored<'_>,
    area: &mut [u8],
    patch: &mut [u8],
    s: State,
    m: usize,
) -> Step
    requires can_recompute { CanRecompute stored.file.now n.now stored.sums.now (length area.old) }
    requires bands_within { BandsWithin n.now s }
    requires m_lt_count { (m < n.now.count) × (window_most ≤ length patch.old) }
    ensures state_value { result.state ≡ grow_one s (link_of n.now m) m }
    ensures count_value { result.count ≡ bytes_in (band_of result.state (suc m)) (tensor_of n.now (suc m)).rows (row_bytes (tensor_of n.now (suc m))) }
    ensures area_after { area.new ≡ redone n.now stored.entry.file.now stored.entry.sums.now m (band_of result.state (suc m)) area.old }
{
    let y = n.layer(m);
    let link = link_of(n, m);
    let state = grow_one(s, link, m);
    let band = band_of(state, m + 1);
    let first = usize::from(band.first);
    let end = usize::from(band.end);
    put_rows(
        y,
        stored,
        &mut area[..n.area],
        patch,
        source(n, m),
        source(n, link.other),
        first..end,
    );
    Step {
        state,
        count: ((end - first) * (y.output.columns * y.output.channels)) as u32,
    }
}

// All layers in order, from the bands of the state s. The answer is the bytes recomputed. That the network is the file's stays a
// clause: callers may pass any two of which it holds.
pub fn recompute(file: &[u8], n: &Network, sums: &[u32], area: &mut [u8], s: State) -> u32
    requires can_recompute { CanRecompute file.now n.now sums.now (length area.old) }
    requires bands_within { BandsWithin n.now s }
    ensures value { result ≡ count_to n.now s n.now.count }
    ensures area_after { area.new ≡ updated_to n.now file.now sums.now s n.now.count area.old }
{
    let stored = Stored { file, sums };
    let mut patch = [0u8; WINDOW_MOST];
    let mut state = s;
    let mut count = 0;
    for m in 0..n.count {
        let step = recompute_layer(n, stored, area, &mut patch, state, m);
        state = step.state;
        count += step.count;
    }
    count
}
