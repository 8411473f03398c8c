//! What is noted of commits, in the order in which they end.

ghost use Rattle.std.specs.Prelude.{◌≡◌, ◌<◌, ◌+◌, ◌==◌, ◌↔◌, ℕ, [], Some, None, true, length};
ghost use Rattle.std.specs.Prelude.{IsSome, IfSome, IfOk, IfErr, OnOk, OnErr};
ghost use Rattle.pgrepeats.specs.Rings.{AreBelow, IsAt, IsLeast, IsNowhere, Updates, noted_in};

use crate::noted::Noted;
use std::alloc::{AllocError, Global};
use std::collections::VecDeque;
use std::marker::Model;

/// What is noted of commits, the first one first. New ones end behind all others, so it is kept as
/// they come, and only one that comes again is searched for.
#[derive(Drop)]
pub(crate) struct Ring {
    entries: VecDeque<(u64, Noted)>,
}

impl Model for Ring {
    ghost use Rattle.pgrepeats.specs.Rings.{AreInOrder, Entries};

    ghost Value = { Entries };

    ghost view = { λ r. r.entries.items };

    ghost invariant = { λ r. AreInOrder r.entries.items };
}

impl Ring {
    /// None is noted.
    pub(crate) fn new(alloc: Global) -> Ring
        ensures { result ≡ [] }
    {
        Ring {
            entries: VecDeque::new(alloc),
        }
    }

    /// How many are noted.
    pub(crate) fn len(&self) -> usize
        ensures { result ≡ length self.now }
    {
        self.entries.len()
    }

    /// Whether none is noted.
    pub(crate) fn is_empty(&self) -> bool
        ensures { result ≡ (length self.now == 0) }
    {
        self.entries.is_empty()
    }

    /// What is noted of the commit that ends there.
    #[tactic(auto, using(crate::proofs::Rings::behind_all, crate::proofs::Rings::nowhere))]
    pub(crate) fn get(&self, end: u64) -> Option<Noted>
        ensures { result ≡ noted_in self.now end }
    {
        if self.ends_before(end) {
            return None;
        }
        match self.search(end) {
            Ok(place) => self.at(place),
            Err(_) => None,
        }
    }

    // Whether all end before this.
    #[tactic(auto, using(crate::proofs::Rings::all_below))]
    fn ends_before(&self, end: u64) -> bool
        ensures { result ≡ true → AreBelow end self.now }
    {
        match self.entries.back() {
            Some((last, _)) => *last < end,
            None => true,
        }
    }

    // Where the commit is that ends there.
    fn search(&self, end: u64) -> Result<usize, usize>
        ensures found { IfOk result (IsAt self.now end) }
        ensures absent { IfErr result (λ _. IsNowhere self.now end) }
    {
        self.entries.binary_search_by_key(&end, |&(k, _)| k)
    }

    fn at(&self, place: usize) -> Option<Noted>
        requires { place < length self.now }
        ensures { (end : ℕ) → IsAt self.now end place → result ≡ noted_in self.now end }
    {
        match self.entries.get(place) {
            Some((_, noted)) => Some(*noted),
            None => None,
        }
    }

    /// Notes one more, which ends behind the others.
    ///
    /// # Errors
    ///
    /// It doesn't, or memory has run out.
    #[tactic(auto, using(crate::proofs::Rings::in_order_push, crate::proofs::Rings::updates_push))]
    pub(crate) fn push(&mut self, end: u64, noted: Noted) -> Result<(), AllocError>
        ensures updates { OnOk result (Updates self.old self.new end (Some noted)) }
        ensures more { OnOk result (length self.new ≡ length self.old + 1) }
        ensures err { OnErr result (self.new ≡ self.old) }
    {
        if !self.ends_before(end) {
            return Err(AllocError);
        }
        match self.entries.push_back((end, noted)) {
            Ok(()) => Ok(()),
            Err(_) => Err(AllocError),
        }
    }

    /// Forgets the first one.
    pub(crate) fn pop_first(&mut self) -> Option<(u64, Noted)>
        ensures variant { IsSome result ↔ (0 < length self.old) }
        ensures value { IfSome result (λ p. noted_in self.old p.0 ≡ Some p.1) }
        ensures least { IfSome result (λ p. IsLeast self.old p.0) }
        ensures updates { IfSome result (λ p. Updates self.old self.new p.0 None) }
        ensures fewer { IfSome result (λ _. length self.new + 1 ≡ length self.old) }
    {
        self.entries.pop_front()
    }

    /// Forgets all.
    pub(crate) fn clear(&mut self)
        ensures { self.new ≡ [] }
    {
        self.entries.clear();
    }
}
