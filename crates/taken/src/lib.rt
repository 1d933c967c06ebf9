// What was taken: the reader's answer, and the part of the caller's own slice that follows the message.
#![tactic(auto)]

ghost use Rattle.std.specs.Prelude.{◌≡◌};
ghost use Rattle.message.specs.Wire.{message_at};
ghost use Rattle.reader.specs.Answers.{read_answer};
ghost use Rattle.taken.specs.Rest.{rest_of};

use reader::{Answer, read};

// The caller's own slice from the first unread byte of an answer; all of it where the answer is a refusal.
#[tactic(auto, using(lists::proofs::Parts::tail_of_lem))]
pub fn rest(s: &[u8], answer: Answer) -> &[u8]
    ensures { result.now ≡ rest_of s.now answer }
{
    match answer.verdict {
        Err(_) => s,
        Ok(next) => &s[next.min(s.len())..],
    }
}

// The answer and that part in one struct.
#[derive(Clone, Copy)]
pub struct Taken<'a> {
    pub answer: Answer,
    pub rest: &'a [u8],
}

// One message from the front, with what follows it.
pub fn take<'a>(s: &'a [u8]) -> Taken<'a>
    ensures { (result.answer ≡ read_answer (message_at s.now)) × (result.rest.now ≡ rest_of s.now (read_answer (message_at s.now))) }
{
    let answer = read(s);
    let part = rest(s, answer);
    Taken { answer, rest: part }
}
