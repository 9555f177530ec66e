// One row of a convolution.
ghost use Rattle.std.specs.Prelude.{◌≡◌, ◌+◌, ◌*◌, ◌≤◌, ◌<◌, length};
ghost use Rattle.numbers.specs.Limits.{file_most};
ghost use Rattle.numbers.specs.Asked.{window_most};
ghost use Rattle.fields.specs.Shape.{row_bytes};
ghost use Rattle.lists.specs.Lists.{pasted, part};
ghost use Rattle.windows.specs.Asked.{SmallWindow, size_of, window_bytes};
ghost use Rattle.windows.specs.Window.{window_of};
ghost use Rattle.layers.specs.Asked.{OutputsReady, ConvRowReady};
ghost use Rattle.layers.specs.Outputs.{outputs_of};
ghost use Rattle.layers.specs.Conv.{window_for, conv_outputs, conv_row};
ghost use Rattle.layers.specs.Row.{tensor_at};

use crate::outputs::{Outputs, outputs_for};
use crate::source::Source;
use crate::start::row_start;
use crate::stored::Stored;
use records::conv::Conv;
use records::layer::Layer;
use windows::window::Window;

// The window of a frame over the layer's input.
fn window_for(y: Layer, c: Conv, z: u8) -> Window
    ensures { result ≡ window_for y.input c.frame z }
{
    Window {
        rows: y.input.rows,
        columns: y.input.columns,
        channels: y.input.channels,
        zero: z,
        height: usize::from(c.frame.height),
        width: usize::from(c.frame.width),
        top: usize::from(c.frame.padding),
        left: usize::from(c.frame.padding),
    }
}

// What the filters need.
fn conv_outputs(y: Layer, c: Conv, z: u8) -> Outputs
    requires { y.start ≤ file_most }
    ensures { result ≡ conv_outputs y c z }
{
    outputs_for(y, usize::from(c.filters), c.weighing, z)
}

// The outputs at the window from row p, column q of the padded tensor that stands in area from `from`, to area from at.
// What the patch holds afterwards is not said.
fn conv_place(
    w: Window,
    o: Outputs,
    stored: Stored<'_>,
    area: &mut [u8],
    patch: &mut [u8],
    from: usize,
    at: usize,
    p: usize,
    q: usize,
)
    requires small { SmallWindow w }
    requires ready { OutputsReady o (window_bytes w) stored.file.now stored.sums.now }
    requires tensor { from + size_of w ≤ length area.old }
    requires room { at + o.count ≤ length area.old }
    requires column { q ≤ w.columns + w.left }
    requires row { p ≤ 131072 }
    requires patch_room { window_bytes w ≤ length patch.old }
    ensures { area.new ≡ pasted area.old at (outputs_of o stored.entry.file.now stored.entry.sums.now (window_of w (part area.old from (size_of w)) p q)) }
{
    let n = w.height * w.width * w.channels;
    let size = w.rows * w.columns * w.channels;
    w.gather(&area[from..from + size], patch, p, q);
    o.put_outputs(stored, &patch[..n], area, at);
}

// Row i, place after place. It stays apart from `plain_row`: it gathers each window, and shares all else.
fn gathered_row(
    y: Layer,
    c: Conv,
    stored: Stored<'_>,
    area: &mut [u8],
    patch: &mut [u8],
    source: Source,
    i: usize,
)
    requires ready { ConvRowReady y c stored.file.now stored.sums.now (length area.old) source.from i }
    requires patch_room { window_most ≤ length patch.old }
    ensures { area.new ≡ pasted area.old (y.place + i * row_bytes y.output) (conv_row y c source.zero stored.entry.file.now stored.entry.sums.now (tensor_at area.old source.from y.input) i) }
{
    let w = window_for(y, c, source.zero);
    let o = conv_outputs(y, c, source.zero);
    let stride = usize::from(c.frame.stride);
    let at = row_start(y.place, y.output, i);
    for j in 0..y.output.columns {
        conv_place(
            w,
            o,
            stored,
            area,
            patch,
            source.from,
            at + j * o.count,
            i * stride,
            j * stride,
        );
    }
}

// Row i of a kernel of one cell with stride 1 and no padding: every window stands in the area as it is.
fn plain_row(y: Layer, c: Conv, stored: Stored<'_>, area: &mut [u8], source: Source, i: usize)
    requires ready { ConvRowReady y c stored.file.now stored.sums.now (length area.old) source.from i }
    requires plain { (c.frame.height ≡ 1) × (c.frame.width ≡ 1) × (c.frame.stride ≡ 1) }
    ensures { area.new ≡ pasted area.old (y.place + i * row_bytes y.output) (conv_row y c source.zero stored.entry.file.now stored.entry.sums.now (tensor_at area.old source.from y.input) i) }
{
    let o = conv_outputs(y, c, source.zero);
    let n = y.input.channels;
    let start = row_start(source.from, y.input, i);
    let at = row_start(y.place, y.output, i);
    for j in 0..y.output.columns {
        o.put_within(stored, area, start + j * n, n, at + j * o.count);
    }
}

// Row i of a convolution of the tensor that stands in the area, to its place.
pub fn conv_row(
    y: Layer,
    c: Conv,
    stored: Stored<'_>,
    area: &mut [u8],
    patch: &mut [u8],
    source: Source,
    i: usize,
)
    requires ready { ConvRowReady y c stored.file.now stored.sums.now (length area.old) source.from i }
    requires patch_room { window_most ≤ length patch.old }
    ensures { area.new ≡ pasted area.old (y.place + i * row_bytes y.output) (conv_row y c source.zero stored.entry.file.now stored.entry.sums.now (tensor_at area.old source.from y.input) i) }
{
    if c.frame.height == 1 && c.frame.width == 1 && c.frame.stride == 1 {
        plain_row(y, c, stored, area, source, i);
    } else {
        gathered_row(y, c, stored, area, patch, source, i);
    }
}
