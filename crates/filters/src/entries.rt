// The entries of a short list: up to 16 addresses.
ghost use Rattle.std.specs.Prelude.{◌≡◌, ◌≤◌, ◌<◌, ◌+◌, ◌==◌, ◌↔◌, length, replicate, slice_set, take, IfSome, IsSome};
ghost use Rattle.filters.specs.Entries.{is_listed, share_entry};

const CAPACITY: usize = 16;

// The first `count` addresses are listed. A filter is Copy, and arrayvec's ArrayVec is not, so the count stands beside
// the array.
#[derive(Clone, Copy, PartialEq, Eq, Debug)]
pub struct Entries {
    addresses: [u32; CAPACITY],
    count: usize,
    ghost full: { length addresses ≡ 16 },
    ghost within: { count ≤ 16 },
}

impl Entries {
    pub(crate) fn none() -> Entries
        ensures addresses { result.addresses ≡ replicate 16 0 }
        ensures count { result.count ≡ 0 }
    {
        Entries {
            addresses: [0; CAPACITY],
            count: 0,
        }
    }

    pub(crate) fn is_empty(&self) -> bool
        ensures { result ≡ (self.now.count == 0) }
    {
        self.count == 0
    }

    // The clauses spell out what is listed. A word for it was tried: it would be defined over this struct, whose ghost fields
    // import what the clauses of this file name, and so the import goes in a circle.
    fn listed(&self) -> &[u32]
        ensures { result.now ≡ take self.now.count self.now.addresses }
    {
        &self.addresses[..self.count]
    }

    fn lists(&self, address: u32) -> bool
        ensures { result ≡ is_listed (take self.now.count self.now.addresses) address }
    {
        self.listed().contains(&address)
    }

    // Some address is listed by both.
    pub(crate) fn shares_entry(&self, other: &Entries) -> bool
        ensures { result ≡ share_entry (take self.now.count self.now.addresses) (take other.now.count other.now.addresses) }
    {
        self.listed().iter().any(|address| other.lists(*address))
    }

    // The entries with the address in the next one, if one is free.
    pub(crate) fn with(self, address: u32) -> Option<Entries>
        ensures free { IsSome result ↔ (self.count < 16) }
        ensures addresses { IfSome result (λ after. after.addresses ≡ slice_set self.addresses self.count address) }
        ensures count { IfSome result (λ after. after.count ≡ self.count + 1) }
    {
        if self.count == CAPACITY {
            return None;
        }
        let mut addresses = self.addresses;
        addresses[self.count] = address;
        Some(Entries {
            addresses,
            count: self.count + 1,
        })
    }
}
