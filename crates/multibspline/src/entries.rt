// The entries of a line among the cells of a map.
ghost use Rattle.std.specs.Prelude.{◌≡◌, ℕ, ◌-◌, ◌<◌, length, set};
ghost use Rattle.shape.specs.Cells.{on_line};
ghost use Rattle.shape.specs.Line.{LineInside};
ghost use Rattle.multibspline.specs.Records.{samples};

use shape::Line;

// The place of entry i of a line of n, within `len`.
pub fn place(base: usize, stride: usize, n: usize, i: usize, len: usize) -> usize
    requires { (i < n) × (on_line base stride (n - 1) < len) }
    ensures { (result ≡ on_line base stride i) × (result < len) }
{
    base + i * stride
}

// Entry i.
pub fn entry(along: Line, i: usize, coeffs: &[f64]) -> f64
    requires { (i < along.n) × LineInside along (length coeffs.now) }
    ensures { result ≡ samples along coeffs.now i }
{
    let p = place(along.base, along.stride, along.n, i, coeffs.len());
    coeffs[p]
}

// Entry i is set.
pub fn set_entry(along: Line, i: usize, v: f64, coeffs: &mut [f64])
    requires { (i < along.n) × LineInside along (length coeffs.old) }
    ensures { coeffs.new ≡ set coeffs.old (on_line along.base along.stride i) v }
{
    let p = place(along.base, along.stride, along.n, i, coeffs.len());
    coeffs[p] = v;
}

// The samples are copied. `copy_from_slice` is slower: it calls the C library's `memcpy`, which costs a fit of 65,536 points a
// tenth of its time on the machine that it was measured on. By number: of `zip` a turn knows its pair and not where that stands.
pub fn copy(vals: &[f64], coeffs: &mut [f64])
    requires { length vals.now ≡ length coeffs.old }
    ensures { coeffs.new ≡ vals.now }
{
    for (i, cell) in coeffs.iter_mut().enumerate() {
        *cell = vals[i];
    }
}
