// The queries of a record by themselves. A query's coordinates stand n apart in one list, as in a batch, so that n goes with the
// list.
ghost use Rattle.std.specs.Prelude.{◌≡◌, ◌<◌, ◌≤◌, length};

use crate::map::{Map, float_of};
use crate::record::Queries;
use oracle_match::{QueryPlace, query_agrees};
use shape::Refusal;
use std::array;

// The number of a refusal, 0 where there is none, beside what is answered: the list has the two so, and zeros where there is
// nothing.
fn with_number<T: Copy>(answer: Result<T, Refusal>, none: T) -> (u64, T) {
    match answer {
        Ok(x) => (0, x),
        Err(refusal) => (refusal.number(), none),
    }
}

// The coordinates of query i of n, axis after axis; 0 for an axis that has none.
fn point(xs: &[f64], n: usize, i: usize) -> [f64; 4]
    requires { (n ≤ 1024) × (i ≤ 1024) }
    ensures { 4 ≡ length result }
{
    array::from_fn(|k| float_of(xs, i + k * n))
}

// Query i: its value and its gradient.
fn ask<M: Map>(text: &[u8], queries: Queries, i: usize, map: &M, xs: &[f64]) -> bool
    requires { i < queries.n }
{
    let n = queries.n;
    let x = point(xs, n, i);
    let x = &x[..queries.count];
    let place = QueryPlace {
        at: queries.first + i,
        n,
        count: queries.count,
    };
    let valued = with_number(map.value(x), 0.0);
    let sloped = with_number(map.gradient(x), [0.0; 4]);
    query_agrees(text, place, valued, sloped)
}

// Every query.
pub fn ask_all<M: Map>(text: &[u8], queries: Queries, map: &M, xs: &[f64]) -> bool {
    (0..queries.n).all(|i| ask(text, queries, i, map, xs))
}
