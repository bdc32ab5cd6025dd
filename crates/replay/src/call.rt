// The call under test, and what it leaves.
use crate::record::Sizes;
use oracle_list::{Filling, array_of, filled, read_cells};
use oracle_run::{Grid, shape_of};
use shape::answer_number;

// The fit, on the shape of a record. The number of its answer.
fn fit(
    text: &[u8],
    grid: Grid,
    knots: &[f64],
    samples: &[f64],
    coeffs: &mut [f64],
    scratch: &mut [f64],
) -> u64 {
    let shape = shape_of(text);
    answer_number(match grid {
        Grid::Regular => regular::coefficients(shape, samples, coeffs, scratch),
        Grid::Rectilinear => rectilinear::coefficients(shape, knots, samples, coeffs, scratch),
    })
}

// A record of these sizes: whether answer and buffers are as it expects.
pub fn replay(text: &[u8], grid: Grid, sizes: Sizes) -> bool {
    let end = sizes.knots + sizes.samples;
    let mut floats: [f64; 2560] = array_of(0.0);
    read_cells(text, 13, &mut floats[..end]);
    let floats = &floats[..end];
    let knots = &floats[..sizes.knots];
    let samples = &floats[sizes.knots..];
    let mut coeffs = filled(Filling::output());
    let mut scratch = filled(Filling::scratch());
    let coeffs = &mut coeffs[..sizes.coeffs];
    let scratch = &mut scratch[..sizes.scratch];
    let answer = fit(text, grid, knots, samples, coeffs, scratch);
    oracle_match::fit_agrees(text, answer, 13 + end, coeffs, scratch)
}
