// Reading: any bytes to a stored ad, or to a refusal.
#![tactic(auto)]

ghost use Rattle.reader.specs.Content.{Answered};
ghost use Rattle.reader.specs.Inner.Leaving.{Exact, Left, Cleared};
ghost use Rattle.syntax.specs.Reader.{parse};

use ad::Counts;
use syntax::{Reason, Refusal};

fn clear(words: &mut [u64], bytes: &mut [u8])
    ensures { Cleared words.old bytes.old words.new bytes.new }
{
    words.fill(0);
    bytes.fill(0);
}

// An ad into exactly the room of one: stored with zeros behind it, or all zero.
fn read_into(text: &[u8], words: &mut [u64], bytes: &mut [u8]) -> Result<Counts, Refusal>
    requires { Exact text.now words.old bytes.old }
    ensures { Left (parse text.now) words.new bytes.new result }
{
    clear(words, bytes);
    let answer = ad_reader::read_ad(text, words, bytes);
    if answer.is_err() {
        clear(words, bytes);
    }
    answer
}

// Reads any text into any lent memory.
#[tactic(auto, unfolding(crate::specs::Content::answer, crate::specs::Content::words_after, crate::specs::Content::bytes_after, syntax::specs::Reader::read))]
pub fn read(text: &[u8], words: &mut [u64], bytes: &mut [u8]) -> Result<Counts, Refusal>
    ensures { Answered text.now words.old bytes.old words.new bytes.new result }
{
    if words.len() < ad::WORDS || bytes.len() < ad::BYTES {
        return Err(Refusal {
            reason: Reason::MemoryTooSmall,
            place: 0,
        });
    }
    if syntax::TEXT_BYTES < text.len() {
        return Err(Refusal {
            reason: Reason::TextTooLong,
            place: 0,
        });
    }
    read_into(text, &mut words[..ad::WORDS], &mut bytes[..ad::BYTES])
}
