// The calls of crate clew_c for C and Rust, with its clauses: `tools/archive` makes the library of them, and include/clew.h declares them.
#![tactic(auto)]

ghost use Rattle.std.specs.Prelude.{◌≡◌};
ghost use Rattle.clew.specs.Calls.{load_of, change_of, replace_of, update_of, read_of};
ghost use Rattle.clew.specs.Sizes.{sizes_of};
ghost use Rattle.clew_c.specs.Flat.{sizes_told, state_of, told, replace_told, update_told, read_told};

// Sizes: the picture's bytes, the stored sums, the area's bytes and a reading's bytes; all 0 where the file is refused.
#[unsafe(no_mangle)]
pub extern "C" fn clew_sizes(net: &[u8], sizes: &mut [u32; 4]) -> u8
    ensures { (result, sizes.new) ≡ sizes_told (sizes_of net.now) }
{
    clew_c::clew_sizes(net, sizes)
}

// Load: the sums are filled, and every row is stale.
#[unsafe(no_mangle)]
pub extern "C" fn clew_load(net: &[u8], sums: &mut [u32], area: &[u8], state: &mut [u16; 34]) -> u8
    ensures { (result, sums.new, state.new) ≡ told (load_of net.now sums.old area.now) }
{
    clew_c::clew_load(net, sums, area, state)
}

// Change rows: rows of the picture are written, and are stale.
#[unsafe(no_mangle)]
pub extern "C" fn clew_change_rows(
    net: &[u8],
    sums: &[u32],
    area: &mut [u8],
    state: &mut [u16; 34],
    first: usize,
    count: usize,
    rows: &[u8],
) -> u8
    ensures { (result, area.new, state.new) ≡ told (change_of net.now sums.now area.old (state_of state.old) first count rows.now) }
{
    clew_c::clew_change_rows(net, sums, area, state, first, count, rows)
}

// Replace layer: a record and its sums are written, and its tensor is stale.
#[unsafe(no_mangle)]
pub extern "C" fn clew_replace_layer(
    net: &mut [u8],
    sums: &mut [u32],
    area: &[u8],
    state: &mut [u16; 34],
    layer: usize,
    new: &[u8],
) -> u8
    ensures { (result, net.new, sums.new, state.new) ≡ replace_told (replace_of net.old sums.old area.now (state_of state.old) layer new.now) }
{
    clew_c::clew_replace_layer(net, sums, area, state, layer, new)
}

// Update: what follows from stale rows is recomputed, and counted.
#[unsafe(no_mangle)]
pub extern "C" fn clew_update(
    net: &[u8],
    sums: &[u32],
    area: &mut [u8],
    state: &mut [u16; 34],
    count: &mut u32,
) -> u8
    ensures { (result, area.new, state.new, count.new) ≡ update_told (update_of net.now sums.now area.old (state_of state.old)) }
{
    clew_c::clew_update(net, sums, area, state, count)
}

// Read: the last tensor is copied.
#[unsafe(no_mangle)]
pub extern "C" fn clew_read(
    net: &[u8],
    sums: &[u32],
    area: &[u8],
    state: &[u16; 34],
    out: &mut [u8],
) -> u8
    ensures { (result, out.new) ≡ read_told (read_of net.now sums.now area.now (state_of state.now) out.old) }
{
    clew_c::clew_read(net, sums, area, state, out)
}
