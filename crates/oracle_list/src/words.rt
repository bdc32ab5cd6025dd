// The words of a record: 16 hexadecimal digits each, and a space or a newline after them.
ghost use Rattle.std.specs.Prelude.{◌≡◌, true, ℕ, ◌+◌, ◌*◌, ◌<◌, ◌≤◌, length, get_or};
ghost use Rattle.oracle_list.specs.Words.{is_gap, word_at, number_at, IsNumber};

// Whether a byte may stand after a word.
#[tactic(auto, unfolding(crate::specs::Words::is_gap))]
fn is_gap(b: u8) -> bool
    ensures { result ≡ is_gap b }
{
    b == b' ' || b == b'\n'
}

// Word i, where there is one and it can be read.
#[tactic(auto, unfolding(crate::specs::Words::word_at))]
pub fn word(text: &[u8], i: usize) -> Option<u64>
    ensures { result ≡ word_at text.now i }
{
    if text.len() / 17 <= i {
        return None;
    }
    let at = i * 17;
    let end = at + 16;
    if !is_gap(text[end]) {
        return None;
    }
    float_text::read_bits(&text[at..end])
}

// Word i as a number; 0 where there is none, as of a record that is too short, which its lengths then show.
pub fn number_at(text: &[u8], i: usize) -> u64
    ensures { result ≡ number_at text.now i }
{
    word(text, i).unwrap_or(0)
}

// The same as a length or a place.
pub fn size_at(text: &[u8], i: usize) -> usize
    ensures { result ≡ number_at text.now i }
{
    number_at(text, i) as usize
}

// Whether word i is this number.
pub fn is_number(text: &[u8], i: usize, n: u64) -> bool
    ensures { result ≡ true → IsNumber text.now i n }
{
    word(text, i) == Some(n)
}

// Whether every word can be read.
pub fn are_words(text: &[u8]) -> bool {
    (0..text.len() / 17).all(|i| word(text, i).is_some())
}

// Every fourth word from word `first` on, as many as `out` holds.
pub fn every_fourth(text: &[u8], first: usize, out: &mut [usize])
    requires { (first ≤ 65536) × (length out.old ≤ 65536) }
    ensures { (i : ℕ) → i < length out.new → get_or out.new i 0 ≡ number_at text.now (first + i * 4) }
{
    for (i, x) in out.iter_mut().enumerate() {
        *x = size_at(text, first + i * 4);
    }
}
