// The sums of a network, into the sum store.
ghost use Rattle.std.specs.Prelude.{◌≡◌, ◌≤◌, length};
ghost use Rattle.network.specs.Taken.{Taken};
ghost use Rattle.lists.specs.Lists.{pasted};
ghost use Rattle.updates.specs.Recompute.{network_sums};

use layers::sums::put_sums;
use network::net::Network;

// The true sums of all layers, to the front of the store.
pub fn fill_sums(file: &[u8], n: &Network, sums: &mut [u32])
    requires taken { Taken file.now n.now }
    requires store_in_bounds { n.now.store ≤ length sums.old }
    ensures { sums.new ≡ pasted sums.old 0 (network_sums n.now file.now) }
{
    for m in 0..n.count {
        put_sums(n.layer(m), file, sums);
    }
}
