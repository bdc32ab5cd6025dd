// The map program: reads standard input, works, writes.
#![tactic(auto)]

ghost use Rattle.std.specs.Prelude.{◌≡◌, ◌++◌, length, take};
ghost use Rattle.map_work.specs.Program.{program};
ghost use Rattle.map_run.specs.Reading.{Got};

use full_reads::read_full;
use map_print::Page;
use std::io::{self, Read};

// How many bytes were read: kept, and by a further read.
#[derive(Clone, Copy)]
struct Bytes {
    kept: usize,
    spare: usize,
}

// Reads the input, and once that is full a spare byte, which notices that there is more.
fn read_input<R: Read>(from: &mut R, input: &mut [u8], spare: &mut [u8]) -> Bytes
    ensures { Got (length input.old) input.new spare.new result.kept result.spare }
{
    let kept = read_full(from, input);
    if kept < input.len() {
        return Bytes { kept, spare: 0 };
    }
    let more = read_full(from, spare);
    Bytes { kept, spare: more }
}

// Reads, and works on what was read.
fn answer<R: Read>(
    from: &mut R,
    input: &mut [u8],
    spare: &mut [u8],
    page: &mut Page<98440>,
) -> Bytes
    requires { length input.old ≡ 32768 }
    ensures { page.new ≡ program (take result.kept input.new ++ take result.spare spare.new) }
{
    let read = read_input(from, input, spare);
    map_work::work_on(&input[..read.kept], &spare[..read.spare], page);
    read
}

// The program, with its input and what it prints.
pub fn run(rt: &(impl Input + Print)) -> io::Result<()> {
    let mut input = [0u8; 32768];
    let mut spare = [0u8; 1];
    let mut page = Page::new();
    answer(&mut rt.reader(), &mut input, &mut spare, &mut page);
    rt.write_all(page.as_bytes())
}
