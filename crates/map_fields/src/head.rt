// Line 1.
ghost use Rattle.std.specs.Prelude.{◌≡◌, ◌||◌, true, false, None, drop, set, MatchOption};
ghost use Rattle.map_fields.specs.Fields.{fields};
ghost use Rattle.map_fields.specs.Head.{decimal_in, decimals_of, is_byte, are_counted, head_in, Kept, HeadRead};

use crate::parts::Fields;

// The number of a text of 1 to 8 decimal digits.
#[tactic(auto, unfolding(crate::specs::Head::decimal_in))]
fn decimal(text: &[u8]) -> Option<u64>
    ensures { result ≡ decimal_in text.now }
{
    match text.len() {
        1..=8 => float_text::read_digits(text, 10),
        _ => None,
    }
}

// Puts an entry where there is room for it.
fn store(entries: &mut [usize], k: usize, v: usize)
    ensures { entries.new ≡ set entries.old k v }
{
    if k < entries.len() {
        entries[k] = v;
    }
}

// Whether a field is the one byte `yes`, where it is that or the one byte `no`.
fn either(field: &[u8], yes: u8, no: u8) -> Option<bool>
    ensures { MatchOption result (is_byte yes field.now || is_byte no field.now ≡ false)
        (λ r. (is_byte yes field.now || is_byte no field.now ≡ true) × (r ≡ is_byte yes field.now)) }
{
    let [b] = field else { return None };
    if *b == yes {
        Some(true)
    } else if *b == no {
        Some(false)
    } else {
        None
    }
}

// The axis count and as many lengths, of which the first four are kept, zeros where there are fewer.
#[derive(Clone, Copy)]
struct Lengths {
    count: usize,
    dims: [usize; 4],
}

fn read_lengths(mut fields: Fields<'_>) -> Option<Lengths>
    ensures { MatchOption result (are_counted fields.entry ≡ false) (λ l. (are_counted fields.entry ≡ true) × Kept (decimals_of (drop 1 fields.entry)) l.count l.dims) }
{
    let count = decimal(fields.next()?)? as usize;
    let mut dims = [0usize; 4];
    // as many as were counted, which may be more than are kept: an iterator over `dims` would leave the others unread
    for k in 0..count {
        store(&mut dims, k, decimal(fields.next()?)? as usize);
    }
    match fields.next() {
        Some(_) => None,
        None => Some(Lengths { count, dims }),
    }
}

// Line 1: the grid, the flag, the axis count and the first four lengths.
#[derive(Clone, Copy)]
pub struct FirstLine {
    pub regular: bool,
    pub linear: bool,
    pub count: usize,
    pub dims: [usize; 4],
}

// What line 1 says, where it can be read.
pub fn read_head(line: &[u8]) -> Option<FirstLine>
    ensures { MatchOption result (head_in (fields line.now) ≡ None) (HeadRead (fields line.now)) }
{
    let mut fields = Fields::new(line);
    let regular = either(fields.next()?, b'E', b'R')?;
    let linear = either(fields.next()?, b'1', b'0')?;
    let Lengths { count, dims } = read_lengths(fields)?;
    Some(FirstLine {
        regular,
        linear,
        count,
        dims,
    })
}
