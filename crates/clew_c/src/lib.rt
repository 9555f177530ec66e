// The calls over plain numbers and slices, as C and Rust make them. Crate clew_export hands these out under the same names, and
// include/clew.h declares them.
#![tactic(auto)]

ghost use Rattle.std.specs.Prelude.{◌≡◌};
ghost use Rattle.clew.specs.Calls.{load_of, change_of, replace_of, update_of, read_of};
ghost use Rattle.clew.specs.Sizes.{sizes_of};
ghost use Rattle.clew_c.specs.Flat.{sizes_told, state_of, told, replace_told, update_told, read_told};

mod flat;

use flat::{numbers_of, state_of};

// Sizes: the picture's bytes, the stored sums, the area's bytes and a reading's bytes; all 0 where the file is refused.
#[tactic(auto, using(clew::proofs::Sized::sizes_small))]
pub fn clew_sizes(net: &[u8], sizes: &mut [u32; 4]) -> u8
    ensures { (result, sizes.new) ≡ sizes_told (sizes_of net.now) }
{
    let z = clew::sizes(net);
    *sizes = [
        z.picture as u32,
        z.sums as u32,
        z.area as u32,
        z.reading as u32,
    ];
    z.number
}

// Load: the sums are filled, and every row is stale.
pub fn clew_load(net: &[u8], sums: &mut [u32], area: &[u8], state: &mut [u16; 34]) -> u8
    ensures { (result, sums.new, state.new) ≡ told (load_of net.now sums.old area.now) }
{
    let o = clew::load(net, sums, area);
    *state = numbers_of(o.state);
    o.number
}

// Change rows: rows of the picture are written, and are stale.
pub fn clew_change_rows(
    net: &[u8],
    sums: &[u32],
    area: &mut [u8],
    state: &mut [u16; 34],
    first: usize,
    count: usize,
    rows: &[u8],
) -> u8
    ensures { (result, area.new, state.new) ≡ told (change_of net.now sums.now area.old (state_of state.old) first count rows.now) }
{
    let o = clew::change_rows(net, sums, area, state_of(state), first, count, rows);
    *state = numbers_of(o.state);
    o.number
}

// Replace layer: a record and its sums are written, and its tensor is stale.
pub fn clew_replace_layer(
    net: &mut [u8],
    sums: &mut [u32],
    area: &[u8],
    state: &mut [u16; 34],
    layer: usize,
    new: &[u8],
) -> u8
    ensures { (result, net.new, sums.new, state.new) ≡ replace_told (replace_of net.old sums.old area.now (state_of state.old) layer new.now) }
{
    let o = clew::replace_layer(net, sums, area, state_of(state), layer, new);
    *state = numbers_of(o.state);
    o.number
}

// Update: what follows from stale rows is recomputed, and counted.
pub fn clew_update(
    net: &[u8],
    sums: &[u32],
    area: &mut [u8],
    state: &mut [u16; 34],
    count: &mut u32,
) -> u8
    ensures { (result, area.new, state.new, count.new) ≡ update_told (update_of net.now sums.now area.old (state_of state.old)) }
{
    let o = clew::update(net, sums, area, state_of(state));
    *state = numbers_of(o.state);
    *count = o.count;
    o.number
}

// Read: the last tensor is copied.
pub fn clew_read(net: &[u8], sums: &[u32], area: &[u8], state: &[u16; 34], out: &mut [u8]) -> u8
    ensures { (result, out.new) ≡ read_told (read_of net.now sums.now area.now (state_of state.now) out.old) }
{
    clew::read(net, sums, area, state_of(state), out).number
}
