// What the map program prints for an input, against what a case expects.
ghost use Rattle.std.specs.Prelude.{◌≡◌, true, ◌++◌, length};
ghost use Rattle.map_work.specs.Program.{program};
ghost use Rattle.map_work.specs.Steps.{Kept};

use map_print::Page;

// The work on an input.
fn is_printed_for(input: &[u8], spare: &[u8], expected: &[u8]) -> bool
    requires { Kept (length input.now) (length spare.now) }
    ensures { result ≡ true → program (input.now ++ spare.now) ≡ expected.now }
{
    let mut page: Page<98440> = Page::new();
    map_work::work_on(input, spare, &mut page);
    page.as_bytes() == expected
}

// Whether the program prints what is expected, for an input of any length: it keeps the first 32,768 bytes of a longer one, and a
// further read gets the rest.
pub fn is_printed(input: &[u8], expected: &[u8]) -> bool
    ensures { result ≡ true → program input.now ≡ expected.now }
{
    let (kept, spare) = input.split_at(input.len().min(32768));
    is_printed_for(kept, spare, expected)
}
