//! Addresses in order, and the least of them from one on.

ghost use Rattle.std.specs.Prelude.{◌≡◌};
ghost use Rattle.std.specs.List.Sorted.{IsNonDecreasing};
ghost use Rattle.line_index.specs.Lines.{least_from};
ghost use Rattle.line_index.specs.Order.{IsInOrder};

/// The same addresses in order.
pub fn in_order(mut addresses: Vec<u32>) -> Vec<u32>
    ensures { IsInOrder addresses.items result.items }
{
    addresses.sort_unstable();
    addresses
}

/// The least address from one on, by a binary search.
pub fn least_from(addresses: &[u32], start: u64) -> Option<u32>
    requires { IsNonDecreasing addresses.now }
    ensures { result ≡ least_from start addresses.now }
{
    let place = addresses.partition_point(|address| u64::from(*address) < start);
    if place < addresses.len() {
        Some(addresses[place])
    } else {
        None
    }
}
