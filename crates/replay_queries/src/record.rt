// One record of the list: whether it can be read, and what it counts as. Each list has kinds, sizes and counts of its own.
ghost use Rattle.std.specs.Prelude.{◌≡◌, ◌+◌, ◌≤◌};

use crate::batch;
use oracle_list::number_at;
use oracle_run::{Grid, Replayed, Unreadable, check_words, length_at};
use shape::Refusal;

// The kind of a record: its grid. Of each grid there are two numbers, with the Rust's answers and with some that only the papers
// define.
#[derive(Clone, Copy)]
struct Kind {
    grid: Grid,
}

impl TryFrom<u64> for Kind {
    type Error = Unreadable;

    fn try_from(number: u64) -> Result<Kind, Unreadable> {
        let grid = match number {
            4 | 5 => Grid::Regular,
            8 | 9 => Grid::Rectilinear,
            _ => return Err(Unreadable),
        };
        Ok(Kind { grid })
    }
}

// Whether a batch with this answer looks at its queries: it is accepted, or stopped by one of them.
fn is_begun(answer: u64) -> bool {
    answer == 0 || answer == Refusal::Unrepresentable.number()
}

// Whether one of the two batches does.
pub fn is_answered(text: &[u8]) -> bool {
    is_begun(number_at(text, 13)) || is_begun(number_at(text, 15))
}

// The lengths of a record's grid, coefficients and coordinates.
#[derive(Clone, Copy)]
pub struct Sizes {
    pub grid: usize,
    pub coeffs: usize,
    pub coords: usize,
    ghost few_floats: { grid ≤ 1024 },
    ghost few_coeffs: { coeffs ≤ 1024 },
    ghost few_coords: { coords ≤ 1024 },
}

impl Sizes {
    fn of(text: &[u8]) -> Result<Sizes, Unreadable> {
        let grid = length_at(text, 8, 1024)?;
        let coeffs = length_at(text, 9, 1024)?;
        let coords = length_at(text, 10, 1024)?;
        Ok(Sizes {
            grid,
            coeffs,
            coords,
        })
    }

    // All of them.
    pub fn floats(self) -> usize
        ensures sum { result ≡ self.grid + self.coeffs + self.coords }
        ensures few { result ≤ 3072 }
    {
        self.grid + self.coeffs + self.coords
    }
}

// The n queries of a record, on `count` axes: from word `first` on it has what is expected of them.
#[derive(Clone, Copy)]
pub struct Queries {
    pub first: usize,
    pub count: usize,
    pub n: usize,
    ghost near: { first ≤ 4096 },
    ghost few_axes: { count ≤ 4 },
    ghost few_queries: { n ≤ 1024 },
}

impl Queries {
    // Those of a record that is refused as a whole.
    fn none(sizes: Sizes) -> Queries {
        Queries {
            first: 17 + sizes.floats(),
            count: 0,
            n: 0,
        }
    }

    // Those of any other record.
    fn of(text: &[u8], sizes: Sizes) -> Result<Queries, Unreadable> {
        let count = length_at(text, 2, 4)?;
        if count == 0 {
            return Err(Unreadable);
        }
        Ok(Queries {
            first: 17 + sizes.floats(),
            count,
            n: sizes.coords / count,
        })
    }
}

// A record that has been read as far as its lengths.
#[derive(Clone, Copy)]
pub struct Record<'a> {
    pub text: &'a [u8],
    pub grid: Grid,
    pub sizes: Sizes,
}

// A record whose queries are answered, one by one.
fn replay_map(record: Record<'_>) -> Result<Replayed, Unreadable> {
    let queries = Queries::of(record.text, record.sizes)?;
    let n = queries.n;
    check_words(record.text, queries.first + n + n + record.sizes.coords)?;
    Ok(Replayed {
        counts: [1, n as u64, 0],
        is_same: batch::replay(record, queries),
    })
}

// A record that is refused as a whole: no query is answered.
fn replay_refusal(record: Record<'_>) -> Result<Replayed, Unreadable> {
    let queries = Queries::none(record.sizes);
    check_words(record.text, queries.first)?;
    Ok(Replayed {
        counts: [0, 0, 1],
        is_same: batch::replay(record, queries),
    })
}

pub fn replay(text: &[u8]) -> Result<Replayed, Unreadable> {
    let Kind { grid } = Kind::try_from(number_at(text, 0))?;
    let flag = number_at(text, 7);
    let sizes = Sizes::of(text)?;
    if flag > 1 || (grid == Grid::Regular && sizes.grid != 8) {
        return Err(Unreadable);
    }
    let record = Record { text, grid, sizes };
    if is_answered(text) {
        replay_map(record)
    } else {
        replay_refusal(record)
    }
}
