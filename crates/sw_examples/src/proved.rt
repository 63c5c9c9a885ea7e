//! A function over a map, with a contract of its own.
ghost use Rattle.std.specs.Prelude.{◌≡◌};
ghost use Rattle.std.specs.Int.{bytes_high_first};
ghost use Rattle.std.specs.FinMap.{remove};
ghost use Rattle.sw_table.specs.Entries.{entries};

use sw_flat::FlatMap;
use sw_probe::Fnv1a;

/// Takes two articles out of stock; all others stay as they are.
pub fn withdraw(stock: &mut FlatMap<u64, u64, Fnv1a>, one: u64, other: u64)
    ensures { entries (bytes_high_first 8) stock.new ≡
        remove (remove (entries (bytes_high_first 8) stock.old) (bytes_high_first 8 one))
        (bytes_high_first 8 other) }
{
    stock.erase(&one);
    stock.erase(&other);
}
