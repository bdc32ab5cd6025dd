// A group of lines side by side, called lanes, and one operation on a row of them.
ghost use Rattle.std.specs.Prelude.{◌≡◌, ◌≢◌, ℕ, ◌+◌, ◌*◌, ◌<◌, length, set};
ghost use Rattle.shape.specs.Cells.{on_line};
ghost use Rattle.multibspline.specs.Thomas.{at};
ghost use Rattle.lanes.specs.Lanes.{Beside, swept};
ghost use Rattle.lanes.specs.Groups.{group_of, LanesIn, row_start, turned};

use lines::Turn;

// How far apart the cells of a row are. A type says which it is, so that adjacent cells are known to be adjacent when the loop
// over them is compiled.
pub trait Gap: Copy {
    ghost cells: { Self → ℕ };

    fn cells(self) -> usize
        ensures { result ≡ cells self };
}

#[derive(Clone, Copy)]
pub struct Adjacent;

impl Gap for Adjacent {
    ghost cells = { λ gap. 1 };

    fn cells(self) -> usize {
        1
    }
}

#[derive(Clone, Copy)]
pub struct Apart {
    pub by: usize,
}

impl Gap for Apart {
    ghost cells = { λ gap. gap.by };

    fn cells(self) -> usize {
        self.by
    }
}

// The lines from line `first` on, `count` of them, of an axis of n points that are `stride` apart.
#[derive(Clone, Copy)]
pub struct Group<G> {
    pub n: usize,
    pub stride: usize,
    pub first: usize,
    pub count: usize,
    pub gap: G,
}

fn turn_cell<T: Turn>(turn: T, p: usize, q: usize, cells: &mut [f64])
    requires { (p < length cells.old) × (q < length cells.old) }
    ensures { cells.new ≡ set cells.old p (T.op turn (at cells.old p) (at cells.old q)) }
{
    cells[p] = turn.of(cells[p], cells[q]);
}

// Each cell of the row from p on, with the cell of the row from q on that is beside it.
fn sweep<T: Turn, G: Gap>(turn: T, p: usize, q: usize, gap: G, count: usize, cells: &mut [f64])
    requires { Beside p q (G.cells gap) count (length cells.old) }
    ensures { cells.new ≡ swept (T.op turn) p q (G.cells gap) count cells.old }
{
    let apart = gap.cells();
    // By number, since both rows are in one slice and change as they go: `iter_mut` could lend one of them alone.
    for j in 0..count {
        turn_cell(turn, p + j * apart, q + j * apart, cells);
    }
}

// Where row i begins.
fn row_at<G: Gap>(group: Group<G>, i: usize, len: usize) -> usize
    requires { row_start (group_of G.cells group) i < len }
    ensures { result ≡ row_start (group_of G.cells group) i }
{
    group.first * group.n + i * group.stride
}

// Row i, with row k beside it.
pub fn turn_row<T: Turn, G: Gap>(turn: T, group: Group<G>, i: usize, k: usize, coeffs: &mut [f64])
    requires rows { (i < group.n) × (k < group.n) × (i ≢ k) }
    requires lanes { LanesIn (group_of G.cells group) (length coeffs.old) }
    ensures { coeffs.new ≡ turned (T.op turn) (group_of G.cells group) i k coeffs.old }
{
    let p = row_at(group, i, coeffs.len());
    let q = row_at(group, k, coeffs.len());
    sweep(turn, p, q, group.gap, group.count, coeffs);
}
