// What the C function that reads does: it calls the function of its name and leaves its answer in numbers (docs/LAYOUT.md).
#![tactic(auto)]

ghost use Rattle.std.specs.Prelude.{◌≡◌};
ghost use Rattle.c_reading.specs.Reading.{numbers_of, Reported};

use ad::Counts;
use syntax::Refusal;

// An answer as three numbers: 0, the definitions and the nodes; or the refusal's number, the byte's place and 0.
fn numbers(answer: Result<Counts, Refusal>) -> [u64; 3]
    ensures { result ≡ numbers_of answer }
{
    match answer {
        Ok(counts) => [0, counts.definitions as u64, counts.nodes as u64],
        Err(refusal) => [u64::from(refusal.reason.number()), refusal.place as u64, 0],
    }
}

// Reads any text into any lent memory of an ad.
pub fn read(text: &[u8], words: &mut [u64], bytes: &mut [u8], answer: &mut [u64; 3])
    ensures { Reported text.now words.old bytes.old words.new bytes.new answer.new }
{
    *answer = numbers(reader::read(text, words, bytes));
}
