// What the C function of two ads' dependencies does: it calls `order_ads` and leaves its answer in numbers (docs/LAYOUT.md).
#![tactic(auto)]

ghost use Rattle.std.specs.Prelude.{◌≡◌};
ghost use Rattle.c_ordering.specs.Ordering.{order_numbers, OrderReported};

use ordering::Order;
use syntax::Refusal;

// What the order answers, as three numbers.
fn order_numbers(answer: Result<Order, Refusal>) -> [u64; 3]
    ensures { result ≡ order_numbers answer }
{
    match answer {
        Ok(order) => [0, order.transitions as u64, order.length as u64],
        Err(refusal) => [u64::from(refusal.reason.number()), 0, 0],
    }
}

// Flags the circular references and lists the evaluation order of any numbers that may be two stored ads.
pub fn dependencies(
    first_words: &[u64],
    first_bytes: &[u8],
    second_words: &[u64],
    second_bytes: &[u8],
    flags: &mut [usize],
    list: &mut [u64],
    answer: &mut [u64; 3],
)
    ensures { OrderReported first_words.now first_bytes.now second_words.now second_bytes.now flags.old list.old flags.new list.new answer.new }
{
    let order = ordering::order_ads(
        first_words,
        first_bytes,
        second_words,
        second_bytes,
        flags,
        list,
    );
    *answer = order_numbers(order);
}
