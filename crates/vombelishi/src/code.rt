// An answer as one number: 0 for success, else the refusal's number · 2^32 + its detail.
ghost use Rattle.std.specs.Prelude.{◌≡◌};
ghost use Rattle.refusals.specs.Refusals.{refusal, says};
ghost use Rattle.vombelishi.specs.Code.{answer_code};

use refusals::Refusal;

pub fn refused(why: Refusal) -> u64
    ensures { result ≡ answer_code {A = Unit {0}} (refusal why) }
{
    u64::from(why.number()) * 0x1_0000_0000 + u64::from(why.detail())
}

pub fn answered(answer: Result<(), Refusal>) -> u64
    ensures { result ≡ answer_code (says answer) }
{
    match answer {
        Ok(()) => 0,
        Err(why) => refused(why),
    }
}
