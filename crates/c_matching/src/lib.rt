// What the C function of a match does: it calls `match_ads` and leaves its answer in numbers (docs/LAYOUT.md).
#![tactic(auto)]

ghost use Rattle.c_matching.specs.Matching.{MatchReported};

// Matches any numbers that may be two stored ads, in any lent memory.
pub fn match_ads(
    first_words: &[u64],
    first_bytes: &[u8],
    second_words: &[u64],
    second_bytes: &[u8],
    table: &mut [u64],
    list: &mut [u64],
    budget: u16,
    answer: &mut [u64; 7],
)
    ensures { MatchReported first_words.now first_bytes.now second_words.now second_bytes.now budget table.old list.old table.new list.new answer.new }
{
    let outcome = matcher::match_ads(
        first_words,
        first_bytes,
        second_words,
        second_bytes,
        table,
        list,
        budget,
    );
    *answer = c_outcomes::outcome_numbers(outcome);
}
