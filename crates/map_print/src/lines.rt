// The lines, each put behind what the page has. No `Display`: a page is bytes, its floats are their bits in hexadecimal, and a
// refusal is printed by its number, since this crate knows no refusals.
ghost use Rattle.std.specs.Prelude.{◌≡◌, [], ◌∷◌, ℕ, ◌<◌, ◌≤◌, ◌+◌, ◌*◌, ◌/◌, ◌^◌, length, List, Float};
ghost use Rattle.float_text.specs.Digits.{digits_of};
ghost use Rattle.float_text.specs.Bits.{float_text};
ghost use Rattle.map_print.specs.Print.{Wrote, floats_text, count_text, unreadable_line, map_line, answer_line, total_line};

use crate::page::Page;

impl<const N: usize> Page<N> {
    // Decimal digits; `unit` is the weight of the highest.
    fn put_digits(&mut self, n: u64, unit: u64, count: usize)
        requires { (length self.old + count ≤ N) × (count ≤ 5) × (n < 10 ^ count) × (unit ≡ 10 ^ count / 10) }
        ensures { Wrote self.old (digits_of 10 count n) self.new }
    {
        let mut digits = [0u8; 5];
        float_text::put_digits(n, 10, unit, &mut digits[..count]);
        self.extend(&digits[..count]);
    }

    // By the cases of `width_of`: a loop over the powers of ten would have a fact to keep for each, and is no shorter.
    fn put_count(&mut self, n: u64)
        requires { (length self.old + 5 ≤ N) × (n < 100000) }
        ensures { Wrote self.old (count_text n) self.new }
    {
        if n < 10 {
            self.put_digits(n, 1, 1);
        } else if n < 100 {
            self.put_digits(n, 10, 2);
        } else if n < 1000 {
            self.put_digits(n, 100, 3);
        } else if n < 10000 {
            self.put_digits(n, 1000, 4);
        } else {
            self.put_digits(n, 10000, 5);
        }
    }

    // A comma and a float.
    fn put_float(&mut self, x: f64)
        requires { length self.old + 17 ≤ N }
        ensures { Wrote self.old (44 ∷ float_text x) self.new }
    {
        let mut text = [0u8; 16];
        // 16 bytes are room enough
        let _ = float_text::write_float(x, 0, &mut text);
        self.push(b',');
        self.extend(&text);
    }

    fn put_floats(&mut self, xs: &[f64])
        requires { length self.old + 17 * length xs.now ≤ N }
        ensures { Wrote self.old (floats_text xs.now) self.new }
    {
        for x in xs {
            self.put_float(*x);
        }
    }

    // A letter and a comma.
    fn put_head(&mut self, letter: u8)
        requires { length self.old + 2 ≤ N }
        ensures { Wrote self.old (letter ∷ 44 ∷ []) self.new }
    {
        self.push(letter);
        self.push(b',');
    }

    // A line of a letter and a number of one digit: of a refusal the number is what is printed.
    fn put_number(&mut self, letter: u8, number: u64)
        requires { (length self.old + 4 ≤ N) × (number < 10) }
        ensures { Wrote self.old (letter ∷ 44 ∷ (48 + number) ∷ 10 ∷ []) self.new }
    {
        self.put_head(letter);
        self.push(b'0' + number as u8);
        self.push(b'\n');
    }

    // X: line k is unreadable.
    pub fn put_unreadable(&mut self, k: u64)
        requires { (length self.old + 8 ≤ N) × (k < 100000) }
        ensures { Wrote self.old (unreadable_line k) self.new }
    {
        self.put_head(b'X');
        self.put_count(k);
        self.push(b'\n');
    }

    // M: the refusal of the map, or 0.
    #[tactic(auto, unfolding(crate::specs::Print::map_line))]
    pub fn put_map(&mut self, number: u64)
        requires { (length self.old + 4 ≤ N) × (number < 10) }
        ensures { Wrote self.old (map_line number) self.new }
    {
        self.put_number(b'M', number);
    }

    // V: the value and the gradient.
    pub fn put_values(&mut self, value: f64, gradient: &[f64])
        requires { length self.old + 21 + 17 * length gradient.now ≤ N }
        ensures { Wrote self.old (answer_line 0 value gradient.now) self.new }
    {
        self.put_head(b'V');
        self.push(b'0');
        self.put_float(value);
        self.put_floats(gradient);
        self.push(b'\n');
    }

    // V: the refusal of a query, which has no value.
    pub fn put_refusal(&mut self, number: u64)
        requires { (length self.old + 4 ≤ N) × (0 < number) × (number < 10) }
        ensures { (value : Float) (gradient : List Float) → Wrote self.old (answer_line number value gradient) self.new }
    {
        self.put_number(b'V', number);
    }

    // T: the queries, and how many of them are outside.
    pub fn put_totals(&mut self, queries: u64, outside: u64)
        requires { (length self.old + 14 ≤ N) × (queries < 100000) × (outside < 100000) }
        ensures { Wrote self.old (total_line queries outside) self.new }
    {
        self.put_head(b'T');
        self.put_count(queries);
        self.push(b',');
        self.put_count(outside);
        self.push(b'\n');
    }
}
