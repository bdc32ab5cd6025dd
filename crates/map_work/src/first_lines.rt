// The first three lines, and the whole: a function for each definition of specs/Program.antt, in the same order of reading.
ghost use Rattle.std.specs.Prelude.{◌≡◌, ◌++◌, ◌+◌, ◌*◌, ◌≤◌, ◌<◌, length, take, MatchOption, MatchResult};
ghost use Rattle.shape.specs.Shape.{size};
ghost use Rattle.shape.specs.Checks.{first_refusal, limit_checks};
ghost use Rattle.shape.specs.Refusal.{refusal_number};
ghost use Rattle.map_fields.specs.Fields.{room_of};
ghost use Rattle.map_fields.specs.Records.{head_of};
ghost use Rattle.map_print.specs.Print.{Wrote, unreadable_line};
ghost use Rattle.map_spline.specs.Surface.{row_length};
ghost use Rattle.map_work.specs.Program.{fitted, third, second, first, program};
ghost use Rattle.map_work.specs.Steps.{Ready, Kept, Shaped, from_shape};

use crate::queries::run;
use map_fields::{FirstLine, Lines};
use map_print::Page;
use map_spline::FittedMap;
use shape::{Refusal, Shape};

// Line 1, where its shape is accepted within the program's limit.
#[derive(Clone, Copy)]
struct ShapedLine {
    line: FirstLine,
    ghost shaped: { Shaped line },
}

impl ShapedLine {
    // How many floats line 2 has.
    fn row_len(self) -> usize
        ensures floats { result ≡ row_length (head_of self.line) }
        ensures few { result ≤ 512 }
    {
        let line = self.line;
        if line.regular {
            return 2 * line.count;
        }
        knots::grid_len(line.count, line.dims)
    }

    // How many line 3 has.
    fn points(self) -> usize
        ensures { result ≡ size (head_of self.line).dims }
    {
        let dims = self.line.dims;
        let shape = Shape {
            count: self.line.count,
            dims,
        };
        shape.coeff_storage_len()
    }
}

// The map, and the queries. That there is room for what is still to print is a fact of the lines left and the page together; no
// struct has the two, so here and below it is required of both.
fn fitted<const N: usize>(
    lines: Lines<'_>,
    shaped: ShapedLine,
    row: &[f64],
    samples: &[f64],
    page: &mut Page<N>,
)
    requires lengths { (length row.now ≡ row_length (head_of shaped.line)) × (length samples.now ≡ size (head_of shaped.line).dims) }
    requires ready { Ready lines shaped.line.count (length page.old + 4) N }
    ensures { Wrote page.old (fitted (head_of shaped.line) row.now samples.now lines.entry) page.new }
{
    let line = shaped.line;
    let n = samples.len();
    let mut coeffs = [0.0f64; 512];
    let coeffs = &mut coeffs[..n];
    match map_spline::make(line, row, samples, coeffs) {
        Ok(map) => {
            page.put_map(0);
            run(lines, line.count, &FittedMap { map, row, coeffs }, page);
        }
        Err(refusal) => page.put_map(refusal.number()),
    }
}

// From line 3 on: as many samples as the map has points.
fn third<const N: usize>(mut lines: Lines<'_>, shaped: ShapedLine, row: &[f64], page: &mut Page<N>)
    requires row_length { length row.now ≡ row_length (head_of shaped.line) }
    requires ready { Ready lines shaped.line.count (length page.old + 4) N }
    ensures { Wrote page.old (third (head_of shaped.line) row.now lines.entry) page.new }
{
    let n = shaped.points();
    let mut samples = [0.0f64; 512];
    let samples = &mut samples[..n];
    match map_fields::read_row(&mut lines, samples) {
        Some(()) => fitted(lines, shaped, row, samples, page),
        None => page.put_unreadable(3),
    }
}

// From line 2 on.
fn second<const N: usize>(mut lines: Lines<'_>, shaped: ShapedLine, page: &mut Page<N>)
    requires { Ready lines shaped.line.count (length page.old + 4) N }
    ensures { Wrote page.old (second (head_of shaped.line) lines.entry) page.new }
{
    let n = shaped.row_len();
    let mut row = [0.0f64; 512];
    let row = &mut row[..n];
    match map_fields::read_row(&mut lines, row) {
        Some(()) => third(lines, shaped, row, page),
        None => page.put_unreadable(2),
    }
}

// Whether the shape is accepted, within the program's limit. That an array of four has four entries is known where it is a
// parameter, and so handed on.
fn check_shape(count: usize, dims: [usize; 4]) -> Result<(), Refusal>
    ensures value { MatchResult result (λ accepted. first_refusal (limit_checks 512 count (take count dims)) ≡ 0)
        (λ refusal. first_refusal (limit_checks 512 count (take count dims)) ≡ refusal_number refusal) }
    ensures dims_len { length dims ≡ 4 }
{
    let shape = Shape { count, dims };
    shape.check()?;
    if shape.coeff_storage_len() > 512 {
        return Err(Refusal::TooManyPoints);
    }
    Ok(())
}

// The map's shape is refused, or line 2 is read.
fn shaped<const N: usize>(lines: Lines<'_>, line: FirstLine, page: &mut Page<N>)
    requires { (room_of lines ≤ 32769) × (length page.old + 3 * room_of lines + 132 ≤ N) }
    ensures { Wrote page.old (from_shape (head_of line) line.count lines.entry) page.new }
{
    match check_shape(line.count, line.dims) {
        Ok(()) => second(lines, ShapedLine { line }, page),
        Err(refusal) => page.put_map(refusal.number()),
    }
}

// What line 1 says, where there is one and it can be read.
fn first_line(lines: &mut Lines<'_>) -> Option<FirstLine>
    ensures { MatchOption result (first lines.old ≡ unreadable_line 1)
        (λ line. (first lines.old ≡ from_shape (head_of line) line.count lines.new) × (room_of lines.new < room_of lines.old)) }
{
    map_fields::read_head(lines.next()?)
}

// The work on what was read: what is printed stands on the page, and what stood there before does not. `spare` is what a further
// read got; where it got anything, the input is too long.
pub fn work_on<const N: usize>(input: &[u8], spare: &[u8], page: &mut Page<N>)
    requires { Kept (length input.now) (length spare.now) × (98440 ≤ N) }
    ensures { page.new ≡ program (input.now ++ spare.now) }
{
    page.clear();
    let is_too_long = spare.len() > 0;
    if is_too_long {
        page.put_unreadable(0);
        return;
    }
    let mut lines = Lines::new(input);
    match first_line(&mut lines) {
        Some(line) => shaped(lines, line, page),
        None => page.put_unreadable(1),
    }
}
