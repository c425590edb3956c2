// The match of any numbers that may be two stored ads, in any lent memory: it is admitted or refused, and then made.
#![tactic(auto)]

ghost use Rattle.matching.specs.Matching.{Matched};

use matching::Outcome;
use syntax::Refusal;

// THE MATCH of two stored ads, whatever is lent.
pub fn match_ads(
    first_words: &[u64],
    first_bytes: &[u8],
    second_words: &[u64],
    second_bytes: &[u8],
    table: &mut [u64],
    list: &mut [u64],
    budget: u16,
) -> Result<Outcome, Refusal>
    ensures { Matched first_words.now first_bytes.now second_words.now second_bytes.now budget table.old list.old table.new list.new result }
{
    let admitted = admission::admit(
        first_words,
        first_bytes,
        second_words,
        second_bytes,
        table.len(),
        matching::VALUES,
        list.len(),
    );
    match admitted {
        Ok(ads) => Ok(match_memory::match_formed(
            ads,
            &mut table[..matching::VALUES],
            &mut list[..admission::ENTRIES],
            budget,
        )),
        Err(reason) => Err(Refusal { reason, place: 0 }),
    }
}
