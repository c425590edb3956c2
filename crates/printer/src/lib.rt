// Printing: a stored ad to its text.
#![tactic(auto)]

ghost use Rattle.std.specs.Prelude.{◌≡◌, length};
ghost use Rattle.ad.specs.Layout.{ad_words, ad_bytes_room};
ghost use Rattle.printer.specs.Prints.{Prints, HandsBack};

use ad::StoredAd;
use syntax::{Reason, Refusal};

// Printing over exactly the room of an ad.
fn print_room(ad: StoredAd<'_>, out: &mut [u8]) -> Result<usize, Refusal>
    requires { (length ad.words.now ≡ ad_words) × (length ad.bytes.now ≡ ad_bytes_room) }
    ensures { Prints ad.entry.words.now ad.entry.bytes.now out.old out.new result }
{
    let checked = well_formed::check(ad.words, ad.bytes).ok_or(Reason::NotWellFormed)?;
    let k = checked.print_length;
    if out.len() < k {
        return Err(Reason::PrintTooLong.into());
    }
    if syntax::TEXT_BYTES < k {
        return Err(Reason::PrintTooLong.into());
    }
    ad_printer::put_ad(ad, checked.counts.definitions, out);
    Ok(k)
}

// Prints any stored numbers into any output: the length of the text that then stands in front, or a refusal.
pub fn print(words: &[u64], bytes: &[u8], out: &mut [u8]) -> Result<usize, Refusal>
    ensures { Prints words.now bytes.now out.old out.new result }
{
    if words.len() < ad::WORDS {
        return Err(Reason::MemoryTooSmall.into());
    }
    if bytes.len() < ad::BYTES {
        return Err(Reason::MemoryTooSmall.into());
    }
    let ad = StoredAd {
        words: &words[..ad::WORDS],
        bytes: &bytes[..ad::BYTES],
    };
    print_room(ad, out)
}

// The same, handed back as the front part of the output; nothing of it where it is refused.
pub fn text<'a>(words: &[u64], bytes: &[u8], out: &'a mut [u8]) -> &'a mut [u8]
    ensures hands_back { HandsBack words.now bytes.now out.old result.now }
    ensures front { result.ref_ptr ≡ out.entry.ref_ptr }
{
    match print(words, bytes, &mut *out) {
        Ok(n) => &mut out[..n],
        Err(_) => &mut out[..0],
    }
}
