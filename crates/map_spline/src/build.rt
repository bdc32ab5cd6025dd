// The map of the first three lines.
ghost use Rattle.std.specs.Prelude.{◌≡◌, true, false, ◌≤◌, ◌*◌, length, take, drop};
ghost use Rattle.knots.specs.Joined.{total};
ghost use Rattle.evaluation.specs.Axes.{query};
ghost use Rattle.map_fields.specs.Records.{head_of};
ghost use Rattle.map_spline.specs.Surface.{row_length, made_number, made_surface, Lent, RegularMade, RectilinearMade, Makes};

use map_fields::FirstLine;
use rectilinear_map::MultiBsplineRectilinear;
use regular_map::MultiBsplineRegular;
use shape::{Refusal, Shape};

// A map on either grid.
#[derive(Clone, Copy)]
pub enum Map {
    Regular(MultiBsplineRegular),
    Rectilinear(MultiBsplineRectilinear),
}

// The starts: the first half of the row, which is as long as two numbers an axis.
fn starts_of(row: &[f64], count: usize) -> [f64; 4]
    requires { (count ≤ 4) × (length row.now ≡ 2 * count) }
    ensures { result ≡ query count (take count row.now) 1 0 }
{
    evaluation::query(&row[..count], 1, 0, count)
}

// The steps: the other half.
fn steps_of(row: &[f64], count: usize) -> [f64; 4]
    requires { (count ≤ 4) × (length row.now ≡ 2 * count) }
    ensures { result ≡ query count (drop count row.now) 1 0 }
{
    evaluation::query(&row[count..], 1, 0, count)
}

// Room for the lines of a map of up to 512 points. Its contract has the length alone, so that no proof above sees the zeros.
fn workspace() -> [f64; 1024]
    ensures { 1024 ≡ length result }
{
    [0.0; 1024]
}

// One function a grid: each hands its record's building other parts of the row. A trait over the two would have these two bodies as
// its instances, and nothing that is written once over it.
fn make_regular(
    line: FirstLine,
    row: &[f64],
    samples: &[f64],
    coeffs: &mut [f64],
) -> Result<Map, Refusal>
    requires { Lent line.count line.dims (2 * line.count) (length row.now) (length samples.now) (length coeffs.old) 1024 }
    ensures { RegularMade (head_of line) row.now samples.now (made_number result) (made_surface true result row.now coeffs.new) }
{
    let mut scratch = workspace();
    let count = line.count;
    let dims = line.dims;
    let starts = starts_of(row, count);
    let steps = steps_of(row, count);
    let map = MultiBsplineRegular::from_values_with_workspace(
        Shape { count, dims },
        starts,
        steps,
        samples,
        coeffs,
        &mut scratch,
        line.linear,
    )?;
    Ok(Map::Regular(map))
}

fn make_rectilinear(
    line: FirstLine,
    row: &[f64],
    samples: &[f64],
    coeffs: &mut [f64],
) -> Result<Map, Refusal>
    requires { Lent line.count line.dims (total (take line.count line.dims)) (length row.now) (length samples.now) (length coeffs.old) 1024 }
    ensures { RectilinearMade (head_of line) row.now samples.now coeffs.old (made_number result) (made_surface false result row.now coeffs.new) }
{
    let mut scratch = workspace();
    let count = line.count;
    let dims = line.dims;
    let map = MultiBsplineRectilinear::from_values_with_workspace(
        Shape { count, dims },
        row,
        samples,
        coeffs,
        &mut scratch,
        line.linear,
    )?;
    Ok(Map::Rectilinear(map))
}

// Fits the samples and builds the map; the buffers have the lengths that the shape wants.
pub fn make(
    line: FirstLine,
    row: &[f64],
    samples: &[f64],
    coeffs: &mut [f64],
) -> Result<Map, Refusal>
    requires { Lent line.count line.dims (row_length (head_of line)) (length row.now) (length samples.now) (length coeffs.old) 1024 }
    ensures { Makes (head_of line) row.now samples.now coeffs.old (made_number result) (made_surface line.regular result row.now coeffs.new) }
{
    if line.regular {
        make_regular(line, row, samples, coeffs)
    } else {
        make_rectilinear(line, row, samples, coeffs)
    }
}
