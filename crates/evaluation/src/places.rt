// Where the entries of a batch stand: coordinates and parts of gradients, axis after axis.
ghost use Rattle.std.specs.Prelude.{◌≡◌, ◌+◌, ◌*◌, ◌≤◌, ◌<◌, length, get_or};
ghost use Rattle.std.specs.Float.{nan};
ghost use Rattle.shape.specs.Cells.{put};
ghost use Rattle.evaluation.specs.Axes.{query};

// Query i of n: an array of four, zeros for axes not in use.
pub fn query(xs: &[f64], n: usize, i: usize, count: usize) -> [f64; 4]
    requires { (count ≤ 4) × (i < n) × (count * n ≤ length xs.now) }
    ensures { result ≡ query count xs.now n i }
{
    let mut x = [0.0f64; 4];
    // counted: the coordinates stand n apart, and no slice has them side by side
    for a in 0..count {
        x[a] = xs[a * n + i];
    }
    x
}

// The parts of entry i of n: part k at k n + i.
pub fn put_parts(parts: [f64; 4], count: usize, n: usize, i: usize, out: &mut [f64])
    requires { (count ≤ 4) × (i < n) × (count * n ≤ length out.old) }
    ensures { out.new ≡ put (λ k. k * n + i) (λ k. get_or parts k nan) count out.old }
{
    for (k, part) in parts[..count].iter().enumerate() {
        out[k * n + i] = *part;
    }
}
