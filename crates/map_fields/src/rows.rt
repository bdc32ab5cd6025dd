// Lines of floats.
ghost use Rattle.std.specs.Prelude.{◌≡◌, length};
ghost use Rattle.map_fields.specs.Fields.{fields, floats_in, row_in, rest, given};

use crate::parts::{Fields, Lines};

// The floats of a line, as many as the buffer holds: `Some` where there are just so many, each well formed.
pub fn read_floats(line: &[u8], buffer: &mut [f64]) -> Option<()>
    ensures { floats_in (length buffer.old) (fields line.now) ≡ given result buffer.new }
{
    let mut fields = Fields::new(line);
    for x in buffer.iter_mut() {
        *x = float_text::read_float(fields.next()?)?;
    }
    match fields.next() {
        Some(_) => None,
        None => Some(()),
    }
}

// The next line as floats, as many as the buffer holds; `None` also where there is no line.
pub fn read_row(lines: &mut Lines<'_>, buffer: &mut [f64]) -> Option<()>
    ensures row { row_in (length buffer.old) lines.old ≡ given result buffer.new }
    ensures after { lines.new ≡ rest lines.old }
{
    let line = lines.next()?;
    read_floats(line, buffer)
}
