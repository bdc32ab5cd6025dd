// The queries of the map program.
ghost use Rattle.std.specs.Prelude.{◌≡◌, ◌<◌, ◌≤◌, ◌+◌, length};
ghost use Rattle.map_print.specs.Print.{Wrote};
ghost use Rattle.map_spline.specs.Surface.{surface_in, asked_outside};
ghost use Rattle.map_work.specs.Program.{one_if, answer, queries};
ghost use Rattle.map_work.specs.Steps.{Ready, Asked};

use map_fields::Lines;
use map_print::Page;
use map_spline::FittedMap;

fn bump(n: u64, b: bool) -> u64
    requires { n < 40000 }
    ensures { result ≡ n + one_if b }
{
    if b { n + 1 } else { n }
}

// Asks a query, and prints what it answers; whether it counts as outside.
fn answer<const N: usize>(map: &FittedMap<'_>, x: &[f64], page: &mut Page<N>) -> bool
    requires { (length x.now ≡ (surface_in map.now).spline.axes) × (length x.now ≤ 4) × (length page.old + 89 ≤ N) }
    ensures text { Wrote page.old (answer (surface_in map.now) x.now) page.new }
    ensures side { result ≡ asked_outside (surface_in map.now) x.now }
{
    match map.ask(x) {
        Ok(reply) => {
            page.put_values(reply.value, &reply.parts[..x.len()]);
            reply.outside
        }
        Err(refusal) => {
            page.put_refusal(refusal.number());
            false
        }
    }
}

// One query line, of `count` floats: whether the query counts as outside, where the line can be read.
fn ask_line<const N: usize>(
    line: &[u8],
    count: usize,
    map: &FittedMap<'_>,
    page: &mut Page<N>,
) -> Option<bool>
    requires { (count ≡ (surface_in map.now).spline.axes) × (count ≤ 4) × (length page.old + 89 ≤ N) }
    ensures { Asked line.now (surface_in map.now) page.old result page.new }
{
    let mut x = [0.0f64; 4];
    let x = &mut x[..count];
    map_fields::read_floats(line, x)?;
    Some(answer(map, x, page))
}

// The queries, and the last line.
pub fn run<const N: usize>(lines: Lines<'_>, count: usize, map: &FittedMap<'_>, page: &mut Page<N>)
    requires { Ready lines count (length page.old) N × (count ≡ (surface_in map.now).spline.axes) }
    ensures { Wrote page.old (queries (surface_in map.now) 0 0 lines.entry) page.new }
{
    let mut asked: u64 = 0;
    let mut outside: u64 = 0;
    for line in lines {
        match ask_line(line, count, map, page) {
            Some(side) => {
                asked += 1;
                outside = bump(outside, side);
            }
            None => {
                page.put_unreadable(asked + 4);
                return;
            }
        }
    }
    page.put_totals(asked, outside);
}
