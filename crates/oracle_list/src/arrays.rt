// Fixed buffers. No contract gives a list of what a large one holds, so that no proof above sees thousands of zeros.
ghost use Rattle.std.specs.Prelude.{◌≡◌, ◌≤◌, length, take};

// A buffer whose every item is `x`.
pub fn array_of<T: Copy, const N: usize>(x: T) -> [T; N]
    ensures { N ≡ length result }
{
    [x; N]
}

// What a buffer holds, and `rest` after it.
pub fn copy_of<T: Copy, const N: usize>(items: &[T], rest: T) -> [T; N]
    requires { length items.now ≤ N }
    ensures size { N ≡ length result }
    ensures front { take (length items.now) result ≡ items.now }
{
    let mut copy = array_of(rest);
    copy[..items.len()].copy_from_slice(items);
    copy
}
