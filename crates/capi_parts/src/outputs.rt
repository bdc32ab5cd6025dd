// What C is handed: the number of an answer, and what is written only where the call is accepted.
ghost use Rattle.std.specs.Prelude.{◌≡◌};
ghost use Rattle.shape.specs.Refusal.{answer_number, answer_or};
ghost use Rattle.capi_parts.specs.Outputs.{Wrote};

use shape::{Refusal, answer_number};

pub fn number(answer: Result<(), Refusal>) -> u32
    ensures { result ≡ answer_number answer }
{
    answer_number(answer) as u32
}

pub fn put<T: Copy>(found: Result<T, Refusal>, to: &mut T) -> Result<(), Refusal>
    ensures { (none : T) → Wrote (answer_number found) (answer_or none found) to.old (answer_number result) to.new }
{
    *to = found?;
    Ok(())
}
