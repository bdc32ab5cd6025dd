// One case of the list: a line with four numbers and a name, then an input, then what the map program must print for it.
ghost use Rattle.std.specs.Prelude.{◌≡◌, ◌+◌, ◌≤◌, length};

use crate::compare::is_printed;
use full_reads::read_full;
use oracle_list::number_at;
use oracle_run::{Replayed, Stop, Unreadable, length_at};
use std::fs::File;
use std::io;

// The kind of a case: the last line that is printed is a T, an M or an X.
#[derive(Clone, Copy)]
enum Kind {
    T,
    M,
    X,
}

impl TryFrom<u64> for Kind {
    type Error = Unreadable;

    fn try_from(number: u64) -> Result<Kind, Unreadable> {
        match number {
            12 => Ok(Kind::T),
            13 => Ok(Kind::M),
            14 => Ok(Kind::X),
            _ => Err(Unreadable),
        }
    }
}

impl Kind {
    // The counts of the program are by kind.
    fn counts(self) -> [u64; 3] {
        match self {
            Kind::T => [1, 0, 0],
            Kind::M => [0, 1, 0],
            Kind::X => [0, 0, 1],
        }
    }
}

// The lengths of a case's name, of its input and of what is printed for it. A newline stands behind each of the three.
#[derive(Clone, Copy)]
struct Parts {
    name: usize,
    input: usize,
    printed: usize,
    ghost short_name: { name ≤ 64 },
    ghost short_input: { input ≤ 40000 },
    ghost short_printed: { printed ≤ 98440 },
}

impl Parts {
    fn of(head: &[u8]) -> Result<Parts, Unreadable> {
        let name = length_at(head, 1, 64)?;
        let input = length_at(head, 2, 40000)?;
        let printed = length_at(head, 3, 98440)?;
        Ok(Parts {
            name,
            input,
            printed,
        })
    }

    fn bytes(self) -> usize
        ensures { result ≡ self.name + self.input + self.printed + 3 }
    {
        self.name + self.input + self.printed + 3
    }
}

// Names a case that differs. A name may be any bytes, which no format prints.
fn tell(rt: &impl Print, name: &[u8], is_same: bool) -> io::Result<()> {
    if !is_same {
        rt.write_all(b"differs,")?;
        rt.write_all(name)?;
        rt.write_all(b"\n")?;
    }
    Ok(())
}

// A case that has been read. Its kind is turned last, as a number until then: a case that differs is named whatever its kind.
fn replay_parts(rt: &impl Print, kind: u64, parts: Parts, text: &[u8]) -> Result<Replayed, Stop>
    requires { length text.now ≡ parts.name + parts.input + parts.printed + 3 }
{
    let a = parts.name;
    let b = a + 1 + parts.input;
    let end = b + 1 + parts.printed;
    if text[a] != b'\n' || text[b] != b'\n' || text[end] != b'\n' {
        return Err(Stop::Unreadable);
    }
    let input = &text[a + 1..b];
    let expected = &text[b + 1..end];
    let is_same = is_printed(input, expected);
    tell(rt, &text[..a], is_same)?;
    let counts = Kind::try_from(kind)?.counts();
    Ok(Replayed { counts, is_same })
}

// Reads the next case and replays it; None where the list has no more. A case is no longer than `text`, without its numbers.
pub fn replay_next(
    rt: &impl Print,
    list: &mut File,
    text: &mut [u8],
) -> Result<Option<Replayed>, Stop> {
    let mut head = [0u8; 68];
    let got = read_full(list, &mut head);
    if got == 0 {
        return Ok(None);
    }
    if got < 68 || !oracle_list::are_words(&head) {
        return Err(Stop::Unreadable);
    }
    let parts = Parts::of(&head)?;
    let n = parts.bytes();
    if n > text.len() || read_full(list, &mut text[..n]) < n {
        return Err(Stop::Unreadable);
    }
    let replayed = replay_parts(rt, number_at(&head, 0), parts, &text[..n])?;
    Ok(Some(replayed))
}
