// What a match answers, in numbers (docs/LAYOUT.md).
#![tactic(auto)]

ghost use Rattle.std.specs.Prelude.{◌≡◌};
ghost use Rattle.c_outcomes.specs.Outcomes.{outcome_numbers};

use c_results::flag;
use matching::Outcome;
use syntax::Refusal;

// What a match answers, as seven numbers.
pub fn outcome_numbers(outcome: Result<Outcome, Refusal>) -> [u64; 7]
    ensures { result ≡ outcome_numbers outcome }
{
    match outcome {
        Ok(Outcome::Finished(m, i, j, s, n)) => {
            [0, 1, flag(m), i as u64, j as u64, s as u64, n as u64]
        }
        Ok(Outcome::Unfinished(s, n)) => [0, 0, 0, 0, 0, s as u64, n as u64],
        Err(refusal) => [u64::from(refusal.reason.number()), 0, 0, 0, 0, 0, 0],
    }
}
