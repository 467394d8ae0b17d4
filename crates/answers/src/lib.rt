// The answers of the calls, and the 64-bit numbers that carry them to C.
#![tactic(auto)]

ghost use Rattle.std.specs.Prelude.{◌≡◌, ◌^◌, ◌<◌};
ghost use Rattle.answers.specs.Answers.{answer_number, counted_number, counted_high, verdict_number, verdict_high};
ghost use Rattle.answers.specs.Judgement.{schedule_length};

use text::Refusal;

// The verdict on a plan: no run of its gateway reaches a stuck set; or a schedule of so many entries leads to one, the largest there (bit t for thread t).
#[derive(Clone, Copy)]
pub enum Verdict {
    Free,
    Deadlock { entries: usize, stuck: u8 },
}

// How many entries the schedule has: none without a deadlock.
#[tactic(auto, unfolding(crate::specs::Judgement::schedule_length))]
pub fn schedule_length(verdict: Result<Verdict, Refusal>) -> usize
    ensures { result ≡ schedule_length verdict }
{
    match verdict {
        Ok(Verdict::Deadlock { entries, .. }) => entries,
        Ok(Verdict::Free) | Err(_) => 0,
    }
}

// Kind, a and b as one number: kind + 256 × a + 65,536 × b.
// Kept: the kinds are numbers, 0, 1 and 2, since that is what C reads (docs/ANSWERS.md, include/lockplan.h).
fn number_of(kind: u8, a: u8, b: usize) -> u64
    requires { b < 2 ^ 40 }
    ensures { result ≡ answer_number kind a b }
{
    u64::from(kind) + 256 * u64::from(a) + 65536 * (b as u64)
}

// The answer as one number: how much a call found or wrote, or the refusal.
#[tactic(auto, unfolding(crate::specs::Answers::counted_number, crate::specs::Answers::counted_high))]
pub fn counted_number(counted: Result<usize, Refusal>) -> u64
    requires { counted_high counted < 2 ^ 40 }
    ensures { result ≡ counted_number counted }
{
    match counted {
        Ok(n) => number_of(0, 0, n),
        Err(refusal) => number_of(2, refusal.rule, refusal.line),
    }
}

// The verdict as one number, or the refusal.
#[tactic(auto, unfolding(crate::specs::Answers::verdict_number, crate::specs::Answers::verdict_high))]
pub fn verdict_number(verdict: Result<Verdict, Refusal>) -> u64
    requires { verdict_high verdict < 2 ^ 40 }
    ensures { result ≡ verdict_number verdict }
{
    match verdict {
        Ok(Verdict::Free) => number_of(0, 0, 0),
        Ok(Verdict::Deadlock { entries, stuck }) => number_of(1, stuck, entries),
        Err(refusal) => number_of(2, refusal.rule, refusal.line),
    }
}
