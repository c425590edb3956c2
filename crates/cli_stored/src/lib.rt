// What a stored ad says of its definitions and references.
#![tactic(auto)]

use ad::StoredAd;

// The two ads of a command, as they are stored.
#[derive(Clone, Copy)]
pub struct TwoAds<'a> {
    pub first: StoredAd<'a>,
    pub second: StoredAd<'a>,
}

impl<'a> TwoAds<'a> {
    pub fn ad(self, second: bool) -> StoredAd<'a> {
        if second { self.second } else { self.first }
    }
}

// The root of the definition of a name. An unused definition has an empty name, which no reference has.
pub fn find(ad: StoredAd<'_>, name: &[u8]) -> Option<usize> {
    for j in 0..syntax::DEFINITIONS {
        if ad.has_name(j, name) {
            return Some(ad.root(j));
        }
    }
    None
}
