// The ledger: whether a line is due, 1 more in each of its bytes. No floats here.
ghost use Rattle.std.specs.Prelude.{◌≡◌, [], ◌∷◌, ◌<◌, length, take, set};
ghost use Rattle.shape.specs.Shape.{size};
ghost use Rattle.shape.specs.Cells.{on_line, line, write_line};
ghost use Rattle.shape.specs.Checks.{refuse, first_refusal};
ghost use Rattle.shape.specs.Line.{LineInside};
ghost use Rattle.shape.specs.Refusal.{answer_number};
ghost use Rattle.shape.specs.Below.{any_below};
ghost use Rattle.book.specs.LineCall.{byte_above, byte_below, one_more};
ghost use Rattle.ledger.specs.Bytes.{EachByte, each, DueLooked};

use multibspline::place;
use shape::{Axes, Line, Refusal};

// The byte of entry i of a line.
fn byte(found: Line, i: usize, ledger: &[u8]) -> usize
    requires { (i < found.n) × LineInside found (length ledger.now) }
    ensures { result ≡ line 0 found.base found.stride ledger.now i }
{
    let p = place(found.base, found.stride, found.n, i, ledger.len());
    ledger[p] as usize
}

// Refuses with 8 a line of an axis that is solved already, some byte on it above the axis's number, and with 9 one that is not
// due, some below. A line that is due is gone over once.
fn check_bytes(axis: usize, found: Line, ledger: &[u8]) -> Result<(), Refusal>
    requires { LineInside found (length ledger.now) }
    ensures { answer_number result ≡ first_refusal (refuse 8 (any_below (byte_above axis found.base found.stride ledger.now) found.n) ∷ refuse 9 (any_below (byte_below axis found.base found.stride ledger.now) found.n) ∷ []) }
{
    if (0..found.n).all(|i| byte(found, i, ledger) == axis) {
        return Ok(());
    }
    if (0..found.n).any(|i| axis < byte(found, i, ledger)) {
        return Err(Refusal::AlreadySolved);
    }
    Err(Refusal::NotDue)
}

// A line that is due, or why it is not: 7 where there is no such axis or line, then 8 and 9.
pub fn find_due(axes: Axes, axis: usize, line: usize, ledger: &[u8]) -> Result<Line, Refusal>
    requires { length ledger.now ≡ size (take axes.count axes.dims) }
    ensures { DueLooked (take axes.count axes.dims) axis line ledger.now result }
{
    let Some(found) = axes.line(axis, line) else {
        return Err(Refusal::NoSuchLine);
    };
    check_bytes(axis, found, ledger)?;
    Ok(found)
}

// The byte of entry i of a line is set.
fn set_byte(found: Line, i: usize, v: u8, ledger: &mut [u8])
    requires { (i < found.n) × LineInside found (length ledger.old) }
    ensures { ledger.new ≡ set ledger.old (on_line found.base found.stride i) v }
{
    let p = place(found.base, found.stride, found.n, i, ledger.len());
    ledger[p] = v;
}

// 1 more in each byte of a line of an axis that is due. Each of them is the axis's number, so that none is read: where they
// fall on the same lines of the cache, reading and writing them by turns takes twice as long as writing them.
pub fn bump_line(axis: usize, found: Line, ledger: &mut [u8])
    requires { (axis < 4) × LineInside found (length ledger.old) × EachByte axis found ledger.old }
    ensures { ledger.new ≡ write_line found.base found.stride (one_more found.base found.stride ledger.old) found.n ledger.old }
{
    let next = (axis + 1) as u8;
    // The number says a cell at a stride.
    for i in 0..found.n {
        set_byte(found, i, next, ledger);
    }
}
