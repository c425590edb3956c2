// The graph of two stored ads: its nodes, links and roots by their numbers.
#![tactic(auto)]

mod pair;
mod sides;

pub use pair::{AdPair, FormedAd};
pub use sides::Sides;

// A slot for each node of two ads.
pub const SLOTS: usize = 2 * syntax::NODES;
