// What a list of line calls answered and left, against its record, and what a refused call left against what was there before.
ghost use Rattle.std.specs.Prelude.{◌≡◌, true, ◌≤◌, length};
ghost use Rattle.oracle_match.specs.Lists.{Kept, ListLeft};

use oracle_list::{Filling, Test, bytes_agree, cells_agree, is_filled, same_cells};

// Whether a refused call left all that it was lent as it was: coefficients and ledger as they were kept, and scratch as filled.
pub fn is_kept(coeffs: &[f64], kept: &[f64], ledger: &[u8], saved: &[u8], scratch: &[f64]) -> bool
    ensures { result ≡ true → Kept coeffs.now kept.now ledger.now saved.now scratch.now }
{
    same_cells(coeffs, kept) && ledger == saved && is_filled(Filling::scratch(), scratch)
}

// A list: its answers, coefficients and ledger, from word `first` on.
pub fn list_agrees(text: &[u8], first: usize, told: &[u8], coeffs: &[f64], ledger: &[u8]) -> bool
    requires { (first ≤ 8192) × (length told.now ≤ 512) × (length coeffs.now ≤ 1024) × (length ledger.now ≤ 1024) }
    ensures { result ≡ true → ListLeft text.now first told.now coeffs.now ledger.now }
{
    let second = first + told.len() * 4;
    let third = second + coeffs.len();
    bytes_agree(text, first + 3, 4, told)
        && cells_agree(Test::Same, text, second, coeffs)
        && bytes_agree(text, third, 1, ledger)
}
