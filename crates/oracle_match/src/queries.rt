// What a query by itself answered, against its record.
ghost use Rattle.std.specs.Prelude.{◌≡◌, true, ◌+◌, ◌≤◌};
ghost use Rattle.oracle_match.specs.Queries.{Sloped, QueryAnswered};

use crate::batches::is_written_or;
use oracle_list::{Test, cell_agrees, is_number};

// The gradient of a query: the part of axis k against word `at + k * n`, and 0 for an axis that is not in use.
fn parts_agree(text: &[u8], at: usize, n: usize, count: usize, parts: [f64; 4]) -> bool
    requires { (at ≤ 65536) × (n ≤ 1024) }
    ensures { result ≡ true → Sloped text.now at n count parts }
{
    for (k, x) in parts.iter().enumerate() {
        if !is_written_or(text, at + k * n, k, count, 0.0, *x) {
            return false;
        }
    }
    true
}

// Where the words of a query stand, which is one of n, on `count` axes: those of its value and its gradient are n apart, from word
// `at` on.
#[derive(Clone, Copy)]
pub struct QueryPlace {
    pub at: usize,
    pub n: usize,
    pub count: usize,
    ghost near: { at ≤ 16384 },
    ghost few_queries: { n ≤ 1024 },
}

// A query: the numbers of both its answers against word `at`, its value against the word n further on, its gradient from the word
// n further on. A refusal's number and a 0 stand beside one another here, as they do in the list.
pub fn query_agrees(
    text: &[u8],
    place: QueryPlace,
    valued: (u64, f64),
    sloped: (u64, [f64; 4]),
) -> bool
    ensures { result ≡ true → QueryAnswered text.now place.at place.n place.count valued.0 valued.1 sloped.0 sloped.1 }
{
    let second = place.at + place.n;
    is_number(text, place.at, valued.0)
        && is_number(text, place.at, sloped.0)
        && cell_agrees(Test::Same, text, second, valued.1)
        && parts_agree(text, second + place.n, place.n, place.count, sloped.1)
}
