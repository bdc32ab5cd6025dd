// Cells of float buffers against one another and against the words of a record. Only this file makes a float of a word.
ghost use Rattle.std.specs.Prelude.{◌≡◌, true, ℕ, ◌+◌, ◌<◌, ◌≤◌, length, get_or};
ghost use Rattle.std.specs.Float.{nan};
ghost use Rattle.oracle_list.specs.Agree.{test_of, float_at, CellAgrees, CellsAgree};
ghost use Rattle.oracle_list.specs.Cells.{same_cells, is_near};

use crate::words::{number_at, word};
use float_text::{float_of, same_bits};

// Whether two lists of cells have the same bits, any NaN for any NaN.
pub fn same_cells(a: &[f64], b: &[f64]) -> bool
    ensures { result ≡ same_cells a.now b.now }
{
    a.len() == b.len() && a.iter().zip(b).all(|(x, y)| same_bits(*x, *y))
}

// What a cell has to pass with the float of its word: the same bits, any NaN for any NaN; or no further away than a tolerance.
// No `Option` of a tolerance: to be the same is a test too, not the lack of one.
#[derive(Clone, Copy)]
pub enum Test {
    Same,
    Near(f64),
}

// Whether x is no further than the tolerance from y. A NaN is near nothing.
#[tactic(auto, unfolding(crate::specs::Cells::is_near))]
fn is_near(tolerance: f64, x: f64, y: f64) -> bool
    ensures { result ≡ is_near tolerance x y }
{
    let d = x - y;
    d <= tolerance && -tolerance <= d
}

impl Test {
    fn passes(self, x: f64, y: f64) -> bool
        ensures { result ≡ test_of self x y }
    {
        match self {
            Test::Same => same_bits(x, y),
            Test::Near(tolerance) => is_near(tolerance, x, y),
        }
    }
}

// Whether a cell passes with word i.
pub fn cell_agrees(test: Test, text: &[u8], i: usize, x: f64) -> bool
    ensures { result ≡ true → CellAgrees (test_of test) text.now i x }
{
    match word(text, i) {
        Some(bits) => test.passes(x, float_of(bits)),
        None => false,
    }
}

// Whether each cell passes with its word, of the words from word `first` on.
pub fn cells_agree(test: Test, text: &[u8], first: usize, cells: &[f64]) -> bool
    requires { (first ≤ 65536) × (length cells.now ≤ 65536) }
    ensures { result ≡ true → CellsAgree (test_of test) text.now first cells.now }
{
    for (i, x) in cells.iter().enumerate() {
        if !cell_agrees(test, text, first + i, *x) {
            return false;
        }
    }
    true
}

// Word i as a float.
pub fn float_at(text: &[u8], i: usize) -> f64
    ensures { result ≡ float_at text.now i }
{
    float_of(number_at(text, i))
}

// The words from word `first` on, as many as there are cells.
pub fn read_cells(text: &[u8], first: usize, cells: &mut [f64])
    requires { (first ≤ 65536) × (length cells.old ≤ 65536) }
    ensures { (i : ℕ) → i < length cells.new → get_or cells.new i nan ≡ float_at text.now (first + i) }
{
    for (i, cell) in cells.iter_mut().enumerate() {
        *cell = float_at(text, first + i);
    }
}
