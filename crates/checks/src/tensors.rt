// What the bands need of a network.
ghost use Rattle.std.specs.Prelude.{◌≡◌, ℕ, ◌≤◌, ◌<◌};
ghost use Rattle.numbers.specs.Limits.{tensor_most};
ghost use Rattle.network.specs.Network.{layer_of, tensor_of};
ghost use Rattle.checks.specs.Tensors.{tensors_of, frame_link, link_of};

use bands::reach::Link;
use bands::state::Tensors;
use network::net::Network;
use records::frame::Frame;
use records::layer::Kind;
use std::array;

// The rows of each tensor.
pub fn tensors_of(n: &Network) -> Tensors
    requires { (t : ℕ) → (tensor_of n.now t).rows ≤ tensor_most }
    ensures { result ≡ tensors_of n.now }
{
    Tensors {
        count: n.count,
        rows: array::from_fn(|t| n.tensor(t).rows as u16),
    }
}

// How a windowed layer m, which makes so many rows, hangs on its input.
fn frame_link(f: Frame, m: usize, rows: u16) -> Link
    ensures { result ≡ frame_link f m rows }
{
    Link {
        other: m,
        before: u16::from(f.padding),
        kernel: u16::from(f.height),
        stride: u16::from(f.stride),
        rows,
    }
}

// How layer m hangs on its inputs.
pub fn link_of(n: &Network, m: usize) -> Link
    requires { (m < 16) × ((layer_of n.now m).input.rows ≤ tensor_most) × ((layer_of n.now m).output.rows ≤ tensor_most) }
    ensures { result ≡ link_of n.now m }
{
    let y = n.layer(m);
    let rows = y.output.rows as u16;
    match y.kind {
        Kind::Conv(c) => frame_link(c.frame, m, rows),
        Kind::Full(_) => Link {
            other: m,
            before: 0,
            kernel: y.input.rows as u16,
            stride: 1,
            rows,
        },
        Kind::Add(a) => Link {
            other: usize::from(a.other),
            before: 0,
            kernel: 1,
            stride: 1,
            rows,
        },
    }
}
