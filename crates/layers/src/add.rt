// One row of an add.
ghost use Rattle.std.specs.Prelude.{◌≡◌, ◌+◌, ◌*◌, ◌<◌, length};
ghost use Rattle.fields.specs.Shape.{row_bytes};
ghost use Rattle.records.specs.Asked.{AddOk};
ghost use Rattle.lists.specs.Lists.{pasted};
ghost use Rattle.layers.specs.Add.{add_byte, add_row};
ghost use Rattle.layers.specs.Asked.{AddReady, Placed};
ghost use Rattle.layers.specs.Row.{tensor_at};

use crate::source::Source;
use crate::start::row_start;
use numbers::addition::{offset_of, summed_of};
use numbers::finish::finish;
use records::add::Add;
use records::layer::Layer;

// The output byte of q, with zero-point z, and r, with zero-point zr.
fn add_byte(a: Add, z: u8, zr: u8, q: u8, r: u8) -> u8
    requires { AddOk a }
    ensures { result ≡ add_byte a z zr q r }
{
    let first = offset_of(q, z, a.first);
    let second = offset_of(r, zr, a.second);
    finish(summed_of(first, second, a.third), a.zero, a.low, a.high)
}

// Row i of an add of the tensors that stand in the area, to its place.
pub fn add_row(y: Layer, a: Add, area: &mut [u8], first: Source, second: Source, i: usize)
    requires ready { AddReady y a }
    requires first { Placed y (length area.old) first.from }
    requires second { Placed y (length area.old) second.from }
    requires row { i < y.output.rows }
    ensures { area.new ≡ pasted area.old (y.place + i * row_bytes y.output) (add_row a first.zero second.zero (row_bytes y.output) (tensor_at area.old first.from y.input) (tensor_at area.old second.from y.input) i) }
{
    let q = row_start(first.from, y.input, i);
    let r = row_start(second.from, y.input, i);
    let at = row_start(y.place, y.output, i);
    for k in 0..y.output.columns * y.output.channels {
        area[at + k] = add_byte(a, first.zero, second.zero, area[q + k], area[r + k]);
    }
}
