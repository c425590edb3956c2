// What the C function that checks does: it calls the function of its name and leaves its answer in numbers (docs/LAYOUT.md).
#![tactic(auto)]

ghost use Rattle.std.specs.Prelude.{◌≡◌};
ghost use Rattle.c_checking.specs.Checking.{CheckReported};
ghost use Rattle.c_checking.specs.Inner.Numbers.{check_numbers};

use well_formed::Checked;

// What the check answers, as four numbers.
fn check_numbers(answer: Option<Checked>) -> [u64; 4]
    ensures { result ≡ check_numbers answer }
{
    match answer {
        Some(checked) => {
            let counts = checked.counts;
            [
                0,
                counts.definitions as u64,
                counts.nodes as u64,
                checked.print_length as u64,
            ]
        }
        None => [10, 0, 0, 0],
    }
}

// Checks any numbers that may be a stored ad.
pub fn check(words: &[u64], bytes: &[u8], answer: &mut [u64; 4])
    ensures { CheckReported words.now bytes.now answer.new }
{
    if words.len() < ad::WORDS {
        *answer = [1, 0, 0, 0];
        return;
    }
    if bytes.len() < ad::BYTES {
        *answer = [1, 0, 0, 0];
        return;
    }
    *answer = check_numbers(well_formed::check(words, bytes));
}
