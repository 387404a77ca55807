// The call that lists a header's fields, with lent slices alone: what it answers is one number, and how many bytes were written in a lent
// result.
#![tactic(auto)]

ghost use Rattle.std.specs.Prelude.{◌≡◌};
ghost use Rattle.numbers.specs.Rows.{put};
ghost use Rattle.outcome.specs.Outcome.{code_of};
ghost use Rattle.listing.specs.Answers.{outcome_of};
ghost use Rattle.list_calls.specs.Calls.{ListCall};

use answers::RESULT_TOO_SHORT;
use listing::ListAnswer;

pub fn list_fields(envelope: &[u8], out: &mut [u8], res: &mut [u64]) -> u32
    ensures { ListCall envelope.now out.old out.new res.old res.new result }
{
    if res.len() < 1 {
        return RESULT_TOO_SHORT;
    }
    let answer = field_listing::list_fields(envelope, out);
    tell_listed(answer, res)
}

// How many bytes were written: none where the header is refused, or the lent bytes are too few.
fn tell_listed(answer: ListAnswer, res: &mut [u64]) -> u32
    ensures answers { result ≡ code_of (outcome_of answer) }
    ensures leaves { res.new ≡ put res.old 0 (outcome_of answer).counts }
{
    match answer {
        Ok(long) => {
            rows::put_words(res, 0, &[long as u64]);
            0
        }
        Err(number) => {
            rows::put_words(res, 0, &[0; 1]);
            256 + number as u32
        }
    }
}
