// What a batch answered and wrote, against its record, and what it left against what was there before.
ghost use Rattle.std.specs.Prelude.{◌≡◌, true, ℕ, ◌+◌, ◌%◌, ◌≤◌, ◌<◌, length, get_or};
ghost use Rattle.oracle_list.specs.Cells.{half, one};
ghost use Rattle.oracle_list.specs.Words.{IsNumber};
ghost use Rattle.oracle_match.specs.Batches.{WrittenOr, CellOf, BatchLeft, BatchWritten};

use oracle_list::{Filling, Test, is_filled, size_at};

// Whether a cell is as word i, where j is below `written`, and as `before` where it is not.
pub fn is_written_or(text: &[u8], i: usize, j: usize, written: usize, before: f64, x: f64) -> bool
    ensures { result ≡ true → WrittenOr text.now i j written before x }
{
    if j < written {
        return oracle_list::cell_agrees(Test::Same, text, i, x);
    }
    float_text::same_bits(x, before)
}

// Each cell, of n to an axis: the first `written` of each axis against their words, the others against what they held before.
fn are_written_or(text: &[u8], first: usize, n: usize, written: usize, cells: &[f64]) -> bool
    requires { (0 < n) × (first ≤ 8192) × (length cells.now ≤ 8192) }
    ensures { result ≡ true → (i : ℕ) → i < length cells.now → CellOf text.now first n written half one cells.now i }
{
    let filling = Filling::output();
    let mut before = filling.first;
    let step = filling.step;
    for (i, x) in cells.iter().enumerate() {
        if !is_written_or(text, first + i, i % n, written, before, *x) {
            return false;
        }
        before += step;
    }
    true
}

// Where the words of a batch stand in its record: word `at` is its answer, and the word after it how many queries' cells it wrote;
// the words of its output, n queries on `count` axes, start at word `first`.
#[derive(Clone, Copy)]
pub struct BatchPlace {
    pub at: usize,
    pub first: usize,
    pub count: usize,
    pub n: usize,
    ghost near_answer: { at ≤ 64 },
    ghost near_output: { first ≤ 8192 },
    ghost few_axes: { count ≤ 4 },
    ghost few_queries: { n ≤ 1024 },
}

// The output of a batch that wrote the cells of so many queries.
fn written_agree(text: &[u8], place: BatchPlace, written: usize, cells: &[f64]) -> bool
    requires { length cells.now ≤ 8192 }
    ensures { result ≡ true → BatchWritten text.now place.first place.count place.n written cells.now }
{
    let n = place.n;
    if n == 0 {
        return false;
    }
    cells.len() == place.count * n && are_written_or(text, place.first, n, written, cells)
}

// What a batch left.
fn output_agrees(text: &[u8], place: BatchPlace, cells: &[f64]) -> bool
    requires { length cells.now ≤ 8192 }
    ensures { result ≡ true → BatchLeft text.now place.at place.first place.count place.n cells.now }
{
    let written = size_at(text, place.at + 1);
    if written == 0 {
        return is_filled(Filling::output(), cells);
    }
    written_agree(text, place, written, cells)
}

// A batch: its answer, by the number that stands in the list, and its output.
pub fn batch_agrees(text: &[u8], place: BatchPlace, answer: u64, cells: &[f64]) -> bool
    requires { length cells.now ≤ 8192 }
    ensures number { result ≡ true → IsNumber text.now place.at answer }
    ensures batch_left { result ≡ true → BatchLeft text.now place.at place.first place.count place.n cells.now }
{
    oracle_list::is_number(text, place.at, answer) && output_agrees(text, place, cells)
}
