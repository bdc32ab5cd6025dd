// A record of a list: reading it, whether it is whole, and the shape among its words.
ghost use Rattle.std.specs.Prelude.{◌≡◌, [], ◌∷◌, ◌/◌, ◌≤◌, ◌↔◌, length, IfOk, IfSome, IsOk};
ghost use Rattle.std.specs.Result.{OkIff};
ghost use Rattle.oracle_list.specs.Words.{number_at};

use full_reads::read_full;
use oracle_list::{are_words, number_at, size_at};
use shape::Shape;
use std::fs::File;

// A record that cannot be read, or has not the words that its lengths say.
#[derive(Clone, Copy, Debug)]
pub struct Unreadable;

// The grid that a record is on.
#[derive(Clone, Copy, PartialEq, Eq)]
pub enum Grid {
    Regular,
    Rectilinear,
}

// Reads the rest of a record behind its first two words: how many bytes it has.
fn read_words(list: &mut File, text: &mut [u8]) -> Result<usize, Unreadable>
    requires { 34 ≤ length text.old }
    ensures { IfOk result (λ n. n ≤ length text.new) }
{
    let count = number_at(text, 1);
    if count > 3584 {
        return Err(Unreadable);
    }
    let n = 34 + count as usize * 17;
    if n > text.len() || read_full(list, &mut text[34..n]) < n - 34 || !are_words(&text[..n]) {
        return Err(Unreadable);
    }
    Ok(n)
}

// Reads the next record into `text`: its kind, how many words follow, and those, at most 3584 and no more than `text` holds. None
// where the list has no more.
pub fn read_record<'a>(list: &mut File, text: &'a mut [u8]) -> Result<Option<&'a [u8]>, Unreadable>
    ensures { IfOk result (λ o. IfSome o (λ read. length read.now ≤ length text.old)) }
{
    if text.len() < 34 {
        return Err(Unreadable);
    }
    match read_full(list, &mut text[..34]) {
        0 => Ok(None),
        34 => {
            let n = read_words(list, text)?;
            Ok(Some(&text[..n]))
        }
        _ => Err(Unreadable),
    }
}

// That a record has as many words as its lengths say.
pub fn check_words(text: &[u8], words: usize) -> Result<(), Unreadable>
    ensures { IsOk result ↔ (length text.now / 17 ≡ words) }
{
    if text.len() / 17 == words {
        Ok(())
    } else {
        Err(Unreadable)
    }
}

// Word i as a length that is no more than `most`.
pub fn length_at(text: &[u8], i: usize, most: usize) -> Result<usize, Unreadable>
    ensures { OkIff result (number_at text.now i ≤ most) (number_at text.now i) }
{
    let n = size_at(text, i);
    if n <= most { Ok(n) } else { Err(Unreadable) }
}

// The shape: an axis count from word 2 on, and four lengths.
pub fn shape_of(text: &[u8]) -> Shape
    ensures count_value { result.count ≡ number_at text.now 2 }
    ensures dims_value { result.dims ≡ number_at text.now 3 ∷ number_at text.now 4 ∷ number_at text.now 5 ∷ number_at text.now 6 ∷ [] }
{
    let dims = [
        size_at(text, 3),
        size_at(text, 4),
        size_at(text, 5),
        size_at(text, 6),
    ];
    Shape {
        count: size_at(text, 2),
        dims,
    }
}
