// The tables of partial sums of the gradient. Part k is the sum with axis k's weights replaced by its slopes, so that the sums
// over the axes before k are those of the value. They are worked out once for all parts, and no bit can change by that.
ghost use Rattle.std.specs.Prelude.{◌≡◌, ℕ, [], ◌+◌, ◌*◌, ◌<◌, ◌≤◌, List, Float, length, get_or};
ghost use Rattle.std.specs.Float.{binary64};
ghost use Rattle.interp_math.specs.Table.{table_of, across as across_of};

use crate::table::across;

// Row k of four tables, one for each neighbour along an axis.
#[inline(always)]
fn rows_at(tables: &[[[f64; 4]; 4]; 4], k: usize) -> [[f64; 4]; 4]
    requires { k < 4 }
    ensures { result ≡ table_of tables.now k }
{
    [tables[0][k], tables[1][k], tables[2][k], tables[3][k]]
}

// From the rows over a axes at four neighbours along axis a the rows over one axis more.
#[inline(always)]
pub fn parts_over(
    a: usize,
    weights: &[[f64; 4]; 4],
    slopes: &[[f64; 4]; 4],
    tables: &[[[f64; 4]; 4]; 4],
) -> [[f64; 4]; 4]
    requires { a < 3 }
    ensures earlier { (k : ℕ) → k < a → get_or result k [] ≡ across_of binary64 (get_or weights.now a []) (table_of tables.now k) }
    ensures own { get_or result a [] ≡ across_of binary64 (get_or slopes.now a []) (table_of tables.now a) }
    ensures value { get_or result (a + 1) [] ≡ across_of binary64 (get_or weights.now a []) (table_of tables.now a) }
{
    let mut parts = [[0.0f64; 4]; 4];
    // k is the row of four tables beside `parts`: an iterator over `parts` would have to count it too
    for k in 0..a {
        parts[k] = across(&weights[a], &rows_at(tables, k));
    }
    let value = rows_at(tables, a);
    parts[a] = across(&slopes[a], &value);
    parts[a + 1] = across(&weights[a], &value);
    parts
}
