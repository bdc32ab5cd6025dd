// Entries for axes not in use made blank.
ghost use Rattle.std.specs.Prelude.{◌≡◌, cond, ltb};
ghost use Rattle.evaluation.specs.Axes.{in_use};

// An entry, or the blank one where its axis is not in use.
fn used<T: Copy>(count: usize, a: usize, x: T, blank: T) -> T
    ensures { result ≡ cond (ltb a count) x blank }
{
    if a < count {
        return x;
    }
    blank
}

// Lengths and floats alike, an entry an axis.
pub fn used_of<T: Copy>(count: usize, xs: [T; 4], blank: T) -> [T; 4]
    ensures { (none : T) → result ≡ in_use none blank count xs }
{
    [
        used(count, 0, xs[0], blank),
        used(count, 1, xs[1], blank),
        used(count, 2, xs[2], blank),
        used(count, 3, xs[3], blank),
    ]
}
