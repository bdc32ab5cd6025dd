// One axis of a block of queries, in stages: the places of the coordinates, then the rows of a table, the weights or the slopes.
// Each is one loop over the queries, so that the processor works on several at once; every query goes through its own operations in
// their order, so that no bit can change.
ghost use Rattle.std.specs.Prelude.{◌≡◌, ℕ, [], ◌+◌, ◌*◌, ◌≤◌, ◌<◌, length, get_or, set, Float};
ghost use Rattle.std.specs.Float.{nan};
ghost use Rattle.shape.specs.Checks.{most_points};
ghost use Rattle.evaluation.specs.Axis.{OneAxis};
ghost use Rattle.evaluation.specs.Stages.{no_spot, Placed, Weighs, Slopes};
ghost use Rattle.evaluation.specs.declared.stages.Spot.{Spot};

use crate::axis::Axis;

// A query of a block: by the axes that have been looked at the first coefficient that counts, the weights and the slopes, a row an
// axis.
#[derive(Clone, Copy)]
pub struct Spot {
    pub first: usize,
    pub weights: [[f64; 4]; 4],
    pub slopes: [[f64; 4]; 4],
}

impl Spot {
    // As a buffer is filled before its first block.
    pub fn blank() -> Spot
        ensures { (length result.weights ≡ 4) × (length result.slopes ≡ 4) }
    {
        Spot {
            first: 0,
            weights: [[0.0; 4]; 4],
            slopes: [[0.0; 4]; 4],
        }
    }
}

// The places of the queries with the coordinates xs, up to the first that has none: how many come before it. By number, since three
// lists stand side by side here, of which two are written.
pub fn put_places<A: Axis>(
    axis: A,
    stride: usize,
    xs: &[f64],
    places: &mut [A::Place],
    spots: &mut [Spot],
) -> usize
    requires enough { (length xs.now ≤ length places.old) × (length xs.now ≤ length spots.old) }
    requires small { ((A.view axis).points * stride ≤ most_points) × ((k : ℕ) → k < length xs.now → (get_or spots.old k no_spot).first ≤ most_points) }
    ensures placed { Placed (A.view axis) stride xs.now spots.old result spots.new }
    ensures kept { (k : ℕ) (none : A.Place) → k < result → A.Kept axis (get_or xs.now k nan) (get_or places.new k none) }
    ensures rest { (k : ℕ) → result ≤ k → get_or spots.new k no_spot ≡ get_or spots.old k no_spot }
{
    for (k, x) in xs.iter().enumerate() {
        match axis.place(*x) {
            Some((origin, place)) => {
                places[k] = place;
                spots[k].first += origin * stride;
            }
            None => return k,
        }
    }
    xs.len()
}

// Row a of a table.
fn put_row(table: &mut [[f64; 4]; 4], a: usize, row: [f64; 4])
    requires { a < 4 }
    ensures { (table.new ≡ set table.old a row) × (length table.new ≡ 4) }
{
    table[a] = row;
}

// One of the two tables of a spot.
pub trait Table {
    // row a is worked out from a coordinate; what else the spot has stays
    ghost Puts: { OneAxis → ℕ → Float → Spot → Spot → Type 0 };

    // Row a, by a place that was found.
    fn put<A: Axis>(axis: A, a: usize, place: A::Place, x: f64, spot: &mut Spot)
        requires { (a < 4) × A.Kept axis x place }
        ensures { Puts (A.view axis) a x spot.old spot.new };
}

// The weights.
pub struct WeightTable;

// The slopes.
pub struct SlopeTable;

// Each is compiled into the loop over the queries.
impl Table for WeightTable {
    ghost Puts = { Weighs };

    #[inline(always)]
    fn put<A: Axis>(axis: A, a: usize, place: A::Place, x: f64, spot: &mut Spot) {
        put_row(&mut spot.weights, a, axis.weights(place, x));
    }
}

impl Table for SlopeTable {
    ghost Puts = { Slopes };

    #[inline(always)]
    fn put<A: Axis>(axis: A, a: usize, place: A::Place, x: f64, spot: &mut Spot) {
        put_row(&mut spot.slopes, a, axis.slopes(place, x));
    }
}

// Their rows a of a table, by the places.
pub fn put_rows<T: Table, A: Axis>(
    axis: A,
    a: usize,
    xs: &[f64],
    places: &[A::Place],
    spots: &mut [Spot],
)
    requires enough { (a < 4) × (length xs.now ≤ length places.now) × (length xs.now ≤ length spots.old) }
    requires kept { (k : ℕ) (none : A.Place) → k < length xs.now → A.Kept axis (get_or xs.now k nan) (get_or places.now k none) }
    ensures puts { (k : ℕ) → k < length xs.now → T.Puts (A.view axis) a (get_or xs.now k nan) (get_or spots.old k no_spot) (get_or spots.new k no_spot) }
    ensures rest { (k : ℕ) → length xs.now ≤ k → get_or spots.new k no_spot ≡ get_or spots.old k no_spot }
{
    for (k, x) in xs.iter().enumerate() {
        T::put(axis, a, places[k], *x, &mut spots[k]);
    }
}
