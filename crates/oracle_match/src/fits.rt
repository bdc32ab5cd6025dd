// What a fit answered and left, against its record.
ghost use Rattle.std.specs.Prelude.{◌≡◌, true, ◌≤◌, length};
ghost use Rattle.oracle_list.specs.Words.{IsNumber};
ghost use Rattle.oracle_match.specs.Fits.{is_untouched, FitLeft};

use oracle_list::{Filling, Test, cells_agree, float_at, is_filled, is_number, number_at};

// Whether a refused call left both buffers as they were.
#[tactic(auto, unfolding(crate::specs::Fits::is_untouched))]
fn is_untouched(coeffs: &[f64], scratch: &[f64]) -> bool
    ensures { result ≡ is_untouched coeffs.now scratch.now }
{
    is_filled(Filling::output(), coeffs) && is_filled(Filling::scratch(), scratch)
}

// The buffers after a call with this answer: as before it where it is a refusal; near those of a published figure, whose
// scratch is not compared; else the same to the bit, coefficients from word `first` on, and scratch after them.
fn left_agrees(text: &[u8], answer: u64, first: usize, coeffs: &[f64], scratch: &[f64]) -> bool
    requires { (first ≤ 8192) × (length coeffs.now ≤ 2048) × (length scratch.now ≤ 2048) }
    ensures { result ≡ true → FitLeft text.now answer first coeffs.now scratch.now }
{
    if answer != 0 {
        return is_untouched(coeffs, scratch);
    }
    // 3 is the kind of a published figure, as the definition has it
    if number_at(text, 0) == 3 {
        return cells_agree(Test::Near(float_at(text, 12)), text, first, coeffs);
    }
    cells_agree(Test::Same, text, first, coeffs)
        && cells_agree(Test::Same, text, first + coeffs.len(), scratch)
}

// A fit: its answer, by the number that stands in the list, and what it left, from word `first` on.
pub fn fit_agrees(text: &[u8], answer: u64, first: usize, coeffs: &[f64], scratch: &[f64]) -> bool
    requires { (first ≤ 8192) × (length coeffs.now ≤ 2048) × (length scratch.now ≤ 2048) }
    ensures number { result ≡ true → IsNumber text.now 11 answer }
    ensures fit_left { result ≡ true → FitLeft text.now answer first coeffs.now scratch.now }
{
    is_number(text, 11, answer) && left_agrees(text, answer, first, coeffs, scratch)
}
