// A record's map: building it, its two batches, and its queries by themselves.
ghost use Rattle.std.specs.Prelude.{◌≡◌, true, ◌≤◌, length};
ghost use Rattle.oracle_match.specs.Batches.{BatchLeft};

use crate::map::{Map, Rectilinear, Regular};
use crate::ones::ask_all;
use crate::record::{Queries, Record, is_answered};
use oracle_list::{Filling, array_of, filled, number_at, read_cells, size_at};
use oracle_match::{BatchPlace, batch_agrees};
use oracle_run::Grid;
use shape::{Refusal, answer_number};

// Runs a batch on an output of the length that the record asks for: whether it answers and leaves what the record expects.
fn is_run_right<F: Fn(&mut [f64]) -> Result<(), Refusal>>(
    text: &[u8],
    place: BatchPlace,
    run: F,
    out: &mut [f64],
) -> bool
    requires callable { F.IsAlwaysCallable run }
    requires few { length out.old ≤ 1024 }
    ensures { result ≡ true → BatchLeft text.now place.at place.first place.count place.n out.new }
{
    let answer = run(out);
    batch_agrees(text, place, answer_number(answer), out)
}

// The same on a fresh output; word `size` has its length.
fn is_batch_right<F: Fn(&mut [f64]) -> Result<(), Refusal>>(
    text: &[u8],
    size: usize,
    place: BatchPlace,
    run: F,
) -> bool
    requires { F.IsAlwaysCallable run }
{
    let m = size_at(text, size);
    if m > 1024 {
        return false;
    }
    let mut out = filled(Filling::output());
    is_run_right(text, place, run, &mut out[..m])
}

// Whether there are as many coordinates as values on each of up to four axes.
fn agrees(count: u64, coords: u64, values: u64) -> bool {
    count <= 4 && values <= 1024 && coords == count * values
}

// Whether building the map answers as the record tells: it accepts a map whose queries are looked at, and refuses another with
// the record's number. A mismatch may be of the number of coordinates, which building does not see, but only where it does not go
// with the number of values.
fn is_built_right(text: &[u8], built: u64) -> bool {
    let wanted = number_at(text, 13);
    if is_answered(text) {
        return built == 0;
    }
    let may_be_coords = wanted == Refusal::DimensionMismatch.number()
        && !agrees(number_at(text, 2), number_at(text, 10), number_at(text, 11));
    built == wanted || (may_be_coords && built == 0)
}

// A map that has been built with this answer.
fn is_map_right<M: Map>(
    text: &[u8],
    queries: Queries,
    built: Result<(), Refusal>,
    map: &M,
    xs: &[f64],
) -> bool {
    let first = queries.first;
    let n = queries.n;
    let values = BatchPlace {
        at: 13,
        first: first + n,
        count: 1,
        n,
    };
    let gradients = BatchPlace {
        at: 15,
        first: first + n + n,
        count: queries.count,
        n,
    };
    is_built_right(text, answer_number(built))
        && is_batch_right(text, 11, values, |out| map.values(xs, out))
        && is_batch_right(text, 12, gradients, |out| map.gradients(xs, out))
        && ask_all(text, queries, map, xs)
}

// Whether all is as a record expects of these queries.
pub fn replay(record: Record<'_>, queries: Queries) -> bool {
    let Record { text, grid, sizes } = record;
    let end = sizes.floats();
    let mut floats: [f64; 3072] = array_of(0.0);
    read_cells(text, 17, &mut floats[..end]);
    let floats = &floats[..end];
    let m = sizes.grid + sizes.coeffs;
    let knots = &floats[..sizes.grid];
    let coeffs = &floats[sizes.grid..m];
    let xs = &floats[m..];
    match grid {
        Grid::Regular => {
            let (built, map) = Regular::of(text, knots, coeffs);
            is_map_right(text, queries, built, &map, xs)
        }
        Grid::Rectilinear => {
            let (built, map) = Rectilinear::of(text, knots, coeffs);
            is_map_right(text, queries, built, &map, xs)
        }
    }
}
