// Bytes of buffers against the words of a record.
ghost use Rattle.std.specs.Prelude.{◌≡◌, true, ◌≤◌, length};
ghost use Rattle.oracle_list.specs.Agree.{BytesAgree};

use crate::words::is_number;

// Whether byte i is word `first + i * step`, for each byte.
pub fn bytes_agree(text: &[u8], first: usize, step: usize, bytes: &[u8]) -> bool
    requires { (first ≤ 65536) × (step ≤ 4) × (length bytes.now ≤ 65536) }
    ensures { result ≡ true → BytesAgree text.now first step bytes.now }
{
    for (i, b) in bytes.iter().enumerate() {
        if !is_number(text, first + i * step, u64::from(*b)) {
            return false;
        }
    }
    true
}
