// The table of partial sums, filled level by level. The last axis has stride 1, so that the sums at four neighbours along it
// are worked out together: a row of the table holds four sums side by side, and four rows make those over one axis more. Each
// sum is added up by its own operations, in the order of its definition. Strides and weights have an entry for each axis; those
// of the axes summed over are looked at.
ghost use Rattle.std.specs.Prelude.{◌≡◌, ℕ, suc, [], ◌+◌, ◌*◌, ◌<◌, ◌≤◌, length, get_or};
ghost use Rattle.std.specs.Float.{binary64};
ghost use Rattle.interp_math.specs.Sum.{dot4};
ghost use Rattle.interp_math.specs.Table.{PartLanes, lanes, strides_over, column, turned, across as across_of};

use crate::slopes::parts_over;
use std::marker::PhantomData;

// Four coefficients side by side.
pub fn neighbours(coeffs: &[f64], at: usize) -> [f64; 4]
    requires { at + 3 < length coeffs.now }
    ensures { result ≡ lanes binary64 coeffs.now [] [] 0 at }
{
    [coeffs[at], coeffs[at + 1], coeffs[at + 2], coeffs[at + 3]]
}

// The four-term sum of column q, by the operations of `dot4` in their order.
fn column_sum(w: &[f64; 4], table: &[[f64; 4]; 4], q: usize) -> f64
    requires { q < 4 }
    ensures { result ≡ dot4 binary64 w.now (column table.now q) }
{
    w[1] * table[1][q] + w[0] * table[0][q] + (w[3] * table[3][q] + w[2] * table[2][q])
}

// The four-term sum of each column. The compiler works the four out together; each has its own operations, so that no bit can
// change.
pub fn across(w: &[f64; 4], table: &[[f64; 4]; 4]) -> [f64; 4]
    ensures { result ≡ across_of binary64 w.now table.now }
{
    [
        column_sum(w, table, 0),
        column_sum(w, table, 1),
        column_sum(w, table, 2),
        column_sum(w, table, 3),
    ]
}

// Entry q of each of four rows.
fn pick(table: &[[f64; 4]; 4], q: usize) -> [f64; 4]
    requires { q < 4 }
    ensures { result ≡ column table.now q }
{
    [table[0][q], table[1][q], table[2][q], table[3][q]]
}

// A table turned round. The sums of a value take the weights so, by neighbour and then by axis: where the four weights of an axis
// stand side by side, the compiler loads two at once and mixes the lanes of two rows to fit.
pub fn turn(table: &[[f64; 4]; 4]) -> [[f64; 4]; 4]
    ensures { result ≡ turned table.now }
{
    [
        pick(table, 0),
        pick(table, 1),
        pick(table, 2),
        pick(table, 3),
    ]
}

// The sums over the first axes, so many as the type says: a type, so that the compiler knows the number and keeps the rows in
// registers. `at` is a place among all coefficients, as the strides are: a part from there on would be the same numbers with a
// second length.
pub trait Sums {
    ghost axes: { ℕ };

    fn axes() -> usize
        requires { axes < 4 }
        ensures { result ≡ axes };

    // at four neighbours along the last axis, side by side
    fn sums(coeffs: &[f64], strides: &[usize; 4], weights: &[[f64; 4]; 4], at: usize) -> [f64; 4]
        requires few { axes < 4 }
        requires within { at + 3 * strides_over strides.now axes + 3 < length coeffs.now }
        ensures { result ≡ lanes binary64 coeffs.now strides.now (turned weights.now) axes at };

    // the same of the parts of the gradient: row k is part k's, for each of these axes, and the row after them the value's
    fn parts(
        coeffs: &[f64],
        strides: &[usize; 4],
        weights: &[[f64; 4]; 4],
        slopes: &[[f64; 4]; 4],
        at: usize,
    ) -> [[f64; 4]; 4]
        requires few { (axes < 4) × (length weights.now ≡ 4) }
        requires within { at + 3 * strides_over strides.now axes + 3 < length coeffs.now }
        ensures { PartLanes binary64 coeffs.now strides.now weights.now slopes.now axes at result };
}

pub struct NoAxis;

// over one axis more than S
pub struct OneMore<S>(PhantomData<S>);

impl Sums for NoAxis {
    ghost axes = { 0 };

    fn axes() -> usize {
        0
    }

    fn sums(coeffs: &[f64], strides: &[usize; 4], weights: &[[f64; 4]; 4], at: usize) -> [f64; 4] {
        neighbours(coeffs, at)
    }

    #[inline(always)]
    fn parts(
        coeffs: &[f64],
        strides: &[usize; 4],
        weights: &[[f64; 4]; 4],
        slopes: &[[f64; 4]; 4],
        at: usize,
    ) -> [[f64; 4]; 4] {
        [neighbours(coeffs, at), [0.0; 4], [0.0; 4], [0.0; 4]]
    }
}

// The parts are compiled into their caller: out of it their tables are written out, and a gradient takes half as long again.
impl<S: Sums> Sums for OneMore<S> {
    ghost axes = { suc S.axes };

    fn axes() -> usize {
        S::axes() + 1
    }

    fn sums(coeffs: &[f64], strides: &[usize; 4], weights: &[[f64; 4]; 4], at: usize) -> [f64; 4] {
        let a = S::axes();
        let mut table = [[0.0f64; 4]; 4];
        for (p, sums) in table.iter_mut().enumerate() {
            *sums = S::sums(coeffs, strides, weights, at + p * strides[a]);
        }
        across(&pick(weights, a), &table)
    }

    #[inline(always)]
    fn parts(
        coeffs: &[f64],
        strides: &[usize; 4],
        weights: &[[f64; 4]; 4],
        slopes: &[[f64; 4]; 4],
        at: usize,
    ) -> [[f64; 4]; 4] {
        let a = S::axes();
        let mut tables = [[[0.0f64; 4]; 4]; 4];
        for (p, parts) in tables.iter_mut().enumerate() {
            *parts = S::parts(coeffs, strides, weights, slopes, at + p * strides[a]);
        }
        parts_over(a, weights, slopes, &tables)
    }
}
