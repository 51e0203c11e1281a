//! Numbers by which cells and facets are sorted: of 32 bits each, put side by side, so that they rise where the numbers do in turn.

ghost use Rattle.std.specs.Prelude.{◌≡◌};
ghost use Rattle.cell_net.specs.Gathered.{row_key, facet_key as facet_key_of};

/// A number that is the greater the later a cell's four numbers stand in ascending order.
pub fn cell_key(cell: [u32; 4]) -> u128
    ensures { result ≡ row_key cell }
{
    let [a, b, c, d] = cell;
    let first = u64::from(a) * 4_294_967_296 + u64::from(b);
    let last = u64::from(c) * 4_294_967_296 + u64::from(d);
    u128::from(first) * 18_446_744_073_709_551_616 + u128::from(last)
}

/// A number that is the greater the later a facet's three numbers stand in ascending order.
pub fn facet_key(facet: [u32; 3]) -> u128
    ensures { result ≡ facet_key_of facet }
{
    let [a, b, c] = facet;
    let last = u64::from(b) * 4_294_967_296 + u64::from(c);
    u128::from(a) * 18_446_744_073_709_551_616 + u128::from(last)
}
