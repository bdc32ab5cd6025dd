// How a batch is cut into blocks of queries.
ghost use Rattle.std.specs.Prelude.{◌+◌, ◌≤◌, ◌<◌};

// How many queries from `from` on make a block: 20, or those that are left.
pub fn block_size(from: usize, n: usize) -> usize
    requires { from < n }
    ensures { (0 < result) × (result ≤ 20) × (from + result ≤ n) }
{
    (n - from).min(20)
}
