// A row, and several rows, of a layer of any kind.
ghost use Rattle.std.specs.Prelude.{◌≡◌, ◌+◌, ◌-◌, ◌*◌, ◌≤◌, ◌<◌, length};
ghost use Rattle.numbers.specs.Asked.{window_most};
ghost use Rattle.fields.specs.Shape.{row_bytes};
ghost use Rattle.lists.specs.Lists.{pasted, joined};
ghost use Rattle.layers.specs.Asked.{Ready};
ghost use Rattle.layers.specs.Row.{row_of, tensor_at};

use crate::add::add_row;
use crate::conv::conv_row;
use crate::full::full_row;
use crate::source::Source;
use crate::stored::Stored;
use records::layer::{Kind, Layer};
use std::ops::Range;

// Row i of the layer y, of the first tensor and, where y is an add, of the second. The patch is room for one window.
// What is asked stays in clauses: it binds a layer, lent slices and places together, and no type of one of them could hold it.
pub fn put_row(
    y: Layer,
    stored: Stored<'_>,
    area: &mut [u8],
    patch: &mut [u8],
    first: Source,
    second: Source,
    i: usize,
)
    requires ready { Ready y stored.file.now stored.sums.now (length area.old) first.from second.from }
    requires row { i < y.output.rows }
    requires patch_room { window_most ≤ length patch.old }
    ensures { area.new ≡ pasted area.old (y.place + i * row_bytes y.output) (row_of y first.zero second.zero stored.entry.file.now stored.entry.sums.now (tensor_at area.old first.from y.input) (tensor_at area.old second.from y.input) i) }
{
    match y.kind {
        Kind::Conv(c) => conv_row(y, c, stored, area, patch, first, i),
        Kind::Full(f) => full_row(y, f, stored, area, first),
        Kind::Add(a) => add_row(y, a, area, first, second, i),
    }
}

// Those rows, one after another.
pub fn put_rows(
    y: Layer,
    stored: Stored<'_>,
    area: &mut [u8],
    patch: &mut [u8],
    first: Source,
    second: Source,
    rows: Range<usize>,
)
    requires ready { Ready y stored.file.now stored.sums.now (length area.old) first.from second.from }
    requires order { rows.start ≤ rows.end }
    requires rows { rows.end ≤ y.output.rows }
    requires patch_room { window_most ≤ length patch.old }
    ensures { area.new ≡ pasted area.old (y.place + rows.start * row_bytes y.output) (joined (rows.end - rows.start) (λ k. row_of y first.zero second.zero stored.entry.file.now stored.entry.sums.now (tensor_at area.old first.from y.input) (tensor_at area.old second.from y.input) (rows.start + k))) }
{
    for i in rows {
        put_row(y, stored, area, patch, first, second, i);
    }
}
