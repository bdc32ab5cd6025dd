// Floats and 64-bit numbers as text: 16 lower-case hexadecimal digits, the highest first. A float is written as its bits
// (IEEE 754 binary64). Every NaN is read as the one NaN, which is written 7ff8000000000000.
//
// `at` is where the caller is in its text: the contracts say what stands before and behind it too, which a slice from it on can't.
#![tactic(auto)]

ghost use Rattle.std.specs.Prelude.{◌≡◌, ◌+◌, ◌*◌, ◌/◌, ◌<◌, ◌≤◌, ◌^◌, leb, is_ok, length};
ghost use Rattle.std.proofs.Math.Seq.{paste};
ghost use Rattle.std.specs.Float.{binary64};
ghost use Rattle.std.specs.Float.Ieee.{of_bits, to_bits};
ghost use Rattle.float_text.specs.Digits.{digit_of, letter_of, number_from, digits_of};
ghost use Rattle.float_text.specs.Bits.{bits_in, bits_text, float_in, float_text, same_bits, Written};

// The value of a digit, 0 to 9 and a to f; 16 of any other byte, a number that no base has, so that one test refuses both a byte
// that is no digit and a digit that the base lacks, as `None` could not.
#[tactic(auto, unfolding(crate::specs::Digits::digit_of))]
fn digit(b: u8) -> u64
    ensures { result ≡ digit_of b }
{
    match b {
        b'0'..=b'9' => (b - b'0') as u64,
        b'a'..=b'f' => (b - b'a' + 10) as u64,
        _ => 16,
    }
}

// The byte of a digit. `char::from_digit` gives it as a character that may not be there, which would have to be turned into a byte.
#[tactic(auto, unfolding(crate::specs::Digits::letter_of))]
fn letter(d: u64) -> u8
    requires { d < 16 }
    ensures { result ≡ letter_of d }
{
    if d < 10 {
        b'0' + d as u8
    } else {
        b'a' - 10 + d as u8
    }
}

// The number that digits to a base stand for.
pub fn read_digits(text: &[u8], base: u64) -> Option<u64>
    requires { base ^ length text.now ≤ 2 ^ 64 }
    ensures { result ≡ number_from base 0 text.now }
{
    let mut n: u64 = 0;
    for b in text {
        let d = digit(*b);
        if d >= base {
            return None;
        }
        n = n * base + d;
    }
    Some(n)
}

// The 64 bits of a text of 16 digits; any other text is unreadable.
#[tactic(auto, unfolding(crate::specs::Bits::bits_in))]
pub fn read_bits(text: &[u8]) -> Option<u64>
    ensures { result ≡ bits_in text.now }
{
    if text.len() != 16 {
        return None;
    }
    read_digits(text, 16)
}

// The float of a text of 16 digits.
#[tactic(auto, unfolding(crate::specs::Bits::float_in))]
pub fn read_float(text: &[u8]) -> Option<f64>
    ensures { result ≡ float_in text.now }
{
    read_bits(text).map(float_of)
}

// The lowest digits of a number to a base, as many as `out` holds; `unit` is the weight of the highest. Into the caller's bytes
// and to any base, where `{:016x}` writes to a base that stands in the format.
pub fn put_digits(n: u64, base: u64, unit: u64, out: &mut [u8])
    requires { (0 < base) × (base ≤ 16) × (n < base ^ length out.old) × (unit ≡ base ^ length out.old / base) }
    ensures { out.new ≡ digits_of base (length out.old) n }
{
    let mut left = n;
    let mut weight = unit;
    for place in out.iter_mut() {
        *place = letter(left / weight);
        left = left % weight;
        weight = weight / base;
    }
}

// Whether `out` has 16 bytes from `at` on.
fn has_room(at: usize, out: &[u8]) -> bool
    ensures { result ≡ leb (at + 16) (length out.now) }
{
    out.len() >= 16 && at <= out.len() - 16
}

// The buffer ends before the text would.
#[derive(Clone, Copy, Debug, PartialEq, Eq)]
pub struct NoRoom;

// Writes 64 bits as 16 digits into `out` from `at` on. Where there is no room `out` stays as it was. The place is handed beside
// the buffer, so that one past its end is refused here, where the caller's slice from there on would fail.
pub fn write_bits(bits: u64, at: usize, out: &mut [u8]) -> Result<(), NoRoom>
    ensures { Written (bits_text bits) at out.old (is_ok result) out.new }
{
    if !has_room(at, out) {
        return Err(NoRoom);
    }
    put_digits(bits, 16, 0x1000000000000000, &mut out[at..at + 16]);
    Ok(())
}

// Writes a float's bits likewise.
#[tactic(auto, unfolding(crate::specs::Bits::float_text))]
pub fn write_float(x: f64, at: usize, out: &mut [u8]) -> Result<(), NoRoom>
    ensures { Written (float_text x) at out.old (is_ok result) out.new }
{
    write_bits(bits_of(x), at, out)
}

// The float of a bit pattern; every NaN's is the one NaN.
pub fn float_of(bits: u64) -> f64
    ensures { result ≡ of_bits binary64 bits }
{
    if bits % 0x8000000000000000 > 0x7ff0000000000000 {
        return 0.0 / 0.0;
    }
    f64::from_bits(bits)
}

// The bit pattern of a float; 7ff8000000000000 of the NaN.
pub fn bits_of(x: f64) -> u64
    ensures { result ≡ to_bits binary64 x }
{
    if x != x {
        return 0x7ff8000000000000;
    }
    f64::to_bits(x)
}

// Whether two floats have the same bits, any NaN for any NaN; so zeros of different signs differ, and a NaN is the same as itself.
#[tactic(auto, unfolding(crate::specs::Bits::same_bits))]
pub fn same_bits(x: f64, y: f64) -> bool
    ensures { result ≡ same_bits x y }
{
    bits_of(x) == bits_of(y)
}
