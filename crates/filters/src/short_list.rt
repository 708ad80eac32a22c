// The short list: up to 16 addresses, exact. One adding more, and it covers every address; two meet if they cover a
// common address.
ghost use Rattle.filters.specs.ShortLists.{Covered, Fresh, Adding, lists_meet};
ghost use Rattle.filters.specs.ShortListLaws.{fresh_none, adding_adds, adding_keeps, meet_decides, none_meets, meet_comm};

use crate::entries::Entries;
use crate::filter::Filter;

#[derive(Clone, Copy, PartialEq, Eq, Debug)]
pub enum ShortList {
    // Covers the listed addresses.
    Listed(Entries),
    // Covers every address.
    Every,
}

impl Filter for ShortList {
    ghost covers = { Covered };

    ghost fresh = { Fresh };

    ghost added = { Adding };

    ghost meeting = { lists_meet };

    ghost none = { fresh_none };

    ghost adds = { adding_adds };

    ghost keeps = { adding_keeps };

    ghost common = { λ f g a _ p q. (meet_decides f g).1 (a, p, q) };

    ghost apart = { none_meets };

    ghost either = { meet_comm };

    fn new() -> ShortList {
        ShortList::Listed(Entries::none())
    }

    fn add(self, address: u32) -> ShortList {
        match self {
            ShortList::Listed(entries) => entries
                .with(address)
                .map_or(ShortList::Every, ShortList::Listed),
            ShortList::Every => ShortList::Every,
        }
    }

    fn meets(&self, other: &ShortList) -> bool {
        match (self, other) {
            (ShortList::Listed(entries), ShortList::Listed(others)) => entries.shares_entry(others),
            (ShortList::Listed(entries), ShortList::Every)
            | (ShortList::Every, ShortList::Listed(entries)) => !entries.is_empty(),
            (ShortList::Every, ShortList::Every) => true,
        }
    }
}
