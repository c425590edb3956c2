// The circular references and the evaluation order of two stored ads, whatever is lent.
#![tactic(auto)]

ghost use Rattle.std.specs.Prelude.{◌≡◌, length};
ghost use Rattle.links.specs.Pair.{pair_slots};
ghost use Rattle.ordering.specs.Ordering.{Orders, Ordered};

use links::AdPair;
use syntax::Refusal;

// How many transitions the traversal took, and how long the list is.
#[derive(Clone, Copy)]
pub struct Order {
    pub transitions: usize,
    pub length: usize,
}

// Of two well-formed ads, in rooms of exactly that size.
fn order_formed(ads: AdPair<'_>, flags: &mut [usize], list: &mut [u64]) -> Order
    requires { (length flags.old ≡ pair_slots) × (length list.old ≡ pair_slots) }
    ensures { Orders ads.entry.first.ad.words.now ads.entry.first.ad.bytes.now ads.entry.second.ad.words.now ads.entry.second.ad.bytes.now flags.new list.new result.transitions result.length }
{
    flags.fill(0);
    list.fill(0);
    let mut target = [0usize; links::SLOTS];
    let t = dependency::traverse(ads, &mut target, flags, list);
    Order {
        transitions: t.count,
        length: t.length,
    }
}

// The circular references, flagged by 1, and the list of two stored ads.
pub fn order_ads(
    first_words: &[u64],
    first_bytes: &[u8],
    second_words: &[u64],
    second_bytes: &[u8],
    flags: &mut [usize],
    list: &mut [u64],
) -> Result<Order, Refusal>
    ensures { Ordered first_words.now first_bytes.now second_words.now second_bytes.now flags.old list.old flags.new list.new result }
{
    let admitted = admission::admit(
        first_words,
        first_bytes,
        second_words,
        second_bytes,
        flags.len(),
        admission::ENTRIES,
        list.len(),
    );
    match admitted {
        Ok(ads) => Ok(order_formed(
            ads,
            &mut flags[..admission::ENTRIES],
            &mut list[..admission::ENTRIES],
        )),
        Err(reason) => Err(Refusal { reason, place: 0 }),
    }
}
