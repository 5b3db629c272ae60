// Sets of small numbers: fluents, moves or stations.
// Knows that a set is kept as the bits of one number, which no other crate sees: contracts speak of members.
// Inner to the workspace: `insert` presumes a number that fits, and every caller is proved.
#![tactic(auto, using(crate::proofs::Bits::laws), unfolding(crate::specs::Members::bit))]

ghost use Rattle.std.specs.Prelude.{◌≡◌, ◌<◌, ◌≤◌};
ghost use Rattle.model.specs.Sets.{none, with, either, meet, minus, below as under, subset, apart, any};
ghost use Rattle.sets.specs.Members.{members};

use std::fmt;

#[derive(Clone, Copy, PartialEq, Eq)]
pub struct IndexSet {
    bits: u128,
}

// The members: "[0, 3]".
impl fmt::Debug for IndexSet {
    fn fmt<W: fmt::Write>(&self, f: &mut fmt::Formatter<W>) -> fmt::Result {
        f.debug_list()
            .entries((0..128u8).filter(|k| self.contains(*k)))
            .finish()
    }
}

impl IndexSet {
    pub const fn empty() -> IndexSet
        ensures { members result ≡ none }
    {
        IndexSet { bits: 0 }
    }

    // The numbers below `n`, as far as a set can hold them.
    pub fn below(n: u8) -> IndexSet
        ensures held { members result ≡ meet (under 128) (under n) }
        ensures whole { n ≤ 128 → members result ≡ under n }
    {
        if n < 128 {
            IndexSet { bits: (1 << n) - 1 }
        } else {
            IndexSet { bits: u128::MAX }
        }
    }

    // No number from 128 on is a member.
    pub fn contains(self, k: u8) -> bool
        ensures { result ≡ members self k }
    {
        k < 128 && (self.bits >> k) % 2 == 1
    }

    pub fn insert(self, k: u8) -> IndexSet
        requires { k < 128 }
        ensures { members result ≡ with (members self) k }
    {
        IndexSet {
            bits: self.bits | (1 << k),
        }
    }

    pub fn union(self, other: IndexSet) -> IndexSet
        ensures { members result ≡ either (members self) (members other) }
    {
        IndexSet {
            bits: self.bits | other.bits,
        }
    }

    pub fn intersection(self, other: IndexSet) -> IndexSet
        ensures { members result ≡ meet (members self) (members other) }
    {
        IndexSet {
            bits: self.bits & other.bits,
        }
    }

    pub fn difference(self, other: IndexSet) -> IndexSet
        ensures { members result ≡ minus (members self) (members other) }
    {
        IndexSet {
            bits: self.bits & !other.bits,
        }
    }

    // Is every member of `other` a member?
    pub fn includes(self, other: IndexSet) -> bool
        ensures { result ≡ subset (members other) (members self) }
    {
        self.bits & other.bits == other.bits
    }

    pub fn disjoint(self, other: IndexSet) -> bool
        ensures { result ≡ apart (members self) (members other) }
    {
        self.bits & other.bits == 0
    }

    // Is some number below `n` a member?
    pub fn any_below(self, n: u8) -> bool
        ensures { result ≡ any n (members self) }
    {
        !IndexSet::below(n).disjoint(self)
    }
}
