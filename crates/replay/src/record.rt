// One record of the list: whether it can be read, and what it counts as.
ghost use Rattle.std.specs.Prelude.{◌≤◌};

use crate::call;
use oracle_list::number_at;
use oracle_run::{Grid, Replayed, Unreadable, check_words, length_at};

// Whose answer a record has: the Rust's, a refusal that only the papers define, or a published figure.
#[derive(Clone, Copy, PartialEq, Eq)]
enum Source {
    Rust,
    Papers,
    Published,
}

// The kind of a record.
#[derive(Clone, Copy)]
struct Kind {
    grid: Grid,
    source: Source,
}

impl TryFrom<u64> for Kind {
    type Error = Unreadable;

    fn try_from(number: u64) -> Result<Kind, Unreadable> {
        let (grid, source) = match number {
            1 => (Grid::Regular, Source::Rust),
            2 => (Grid::Regular, Source::Papers),
            3 => (Grid::Regular, Source::Published),
            6 => (Grid::Rectilinear, Source::Rust),
            7 => (Grid::Rectilinear, Source::Papers),
            _ => return Err(Unreadable),
        };
        Ok(Kind { grid, source })
    }
}

impl Kind {
    // Whether a record of this kind may have this many knots and this answer.
    fn may_have(self, knots: usize, answer: u64) -> bool {
        let knots_fit = self.grid == Grid::Rectilinear || knots == 0;
        knots_fit
            && match self.source {
                Source::Rust => true,
                Source::Papers => answer != 0,
                Source::Published => answer == 0,
            }
    }
}

// The lengths of a record's knots, samples, coefficients and scratch.
#[derive(Clone, Copy)]
pub struct Sizes {
    pub knots: usize,
    pub samples: usize,
    pub coeffs: usize,
    pub scratch: usize,
    ghost few_knots: { knots ≤ 512 },
    ghost few_samples: { samples ≤ 2048 },
    ghost few_coeffs: { coeffs ≤ 2048 },
    ghost short_scratch: { scratch ≤ 512 },
}

impl Sizes {
    fn of(text: &[u8]) -> Result<Sizes, Unreadable> {
        let knots = length_at(text, 7, 512)?;
        let samples = length_at(text, 8, 2048)?;
        let coeffs = length_at(text, 9, 2048)?;
        let scratch = length_at(text, 10, 512)?;
        Ok(Sizes {
            knots,
            samples,
            coeffs,
            scratch,
        })
    }

    // How many words a record with this answer has: the buffers after the call only where it is accepted.
    fn words(self, answer: u64) -> usize {
        let head = 13 + self.knots + self.samples;
        if answer == 0 {
            head + self.coeffs + self.scratch
        } else {
            head
        }
    }
}

// The counts of the program: fits, refused calls, published figures.
fn counts(source: Source, answer: u64) -> [u64; 3] {
    if answer != 0 {
        [0, 1, 0]
    } else if source == Source::Published {
        [0, 0, 1]
    } else {
        [1, 0, 0]
    }
}

pub fn replay(text: &[u8]) -> Result<Replayed, Unreadable> {
    let kind = Kind::try_from(number_at(text, 0))?;
    let answer = number_at(text, 11);
    let sizes = Sizes::of(text)?;
    if !kind.may_have(sizes.knots, answer) {
        return Err(Unreadable);
    }
    check_words(text, sizes.words(answer))?;
    Ok(Replayed {
        counts: counts(kind.source, answer),
        is_same: call::replay(text, kind.grid, sizes),
    })
}
