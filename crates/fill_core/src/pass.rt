//! What the callers of a book count: the calls that were answered, the places that were filled and those that were taken out.
//! Each caller's numbers are shares of three ledgers, so those of all callers together are the book's.
ghost use Rattle.std.specs.Prelude.{◌≡◌, ◌<◌, ◌≤◌, ◌+◌, ◌^◌};
ghost use Rattle.fill_core.specs.Shares.{AllParts, Held, IsWhole, IsWithin, Totals, counted, joined, moved_by, nothing_with};

use std::marker::Model;
use std::sync::ledger::{Blank, Book, Ledger, Share};

/// A caller's numbers and its shares of the three ledgers, of 1,024 parts each. Without a part there is no pass.
#[derive(Drop)]
pub struct Pass<C: Ledger, P: Ledger, W: Ledger> {
    parts: u64,
    calls: u64,
    placed: u64,
    withdrawn: u64,
    call_share: Share<C>,
    placed_share: Share<P>,
    withdrawn_share: Share<W>,
}

impl<C: Ledger, P: Ledger, W: Ledger> Model for Pass<C, P, W> {
    ghost Value = { Held };

    ghost view = { λ p. record { parts = p.parts; calls = p.calls; placed = p.placed; withdrawn = p.withdrawn } };

    ghost invariant = { λ p. (0 < p.parts) × (p.parts ≤ 1024) × (p.call_share.parts ≡ p.parts) × (p.placed_share.parts ≡ p.parts) × (p.withdrawn_share.parts ≡ p.parts) × (p.call_share.amount ≡ p.calls) × (p.placed_share.amount ≡ p.placed) × (p.withdrawn_share.amount ≡ p.withdrawn) };
}

/// The numbers of a book, over all its callers. They take no bytes: the history has them. For those who write a book; who uses
/// one has a pass.
#[derive(Drop)]
pub struct Books<C: Ledger, P: Ledger, W: Ledger> {
    calls: Book<C>,
    placed: Book<P>,
    withdrawn: Book<W>,
}

impl<C: Ledger, P: Ledger, W: Ledger> Model for Books<C, P, W> {
    ghost Value = { Totals };

    ghost view = { λ b. record { calls = b.calls.total; placed = b.placed.total; withdrawn = b.withdrawn.total } };
}

impl<C: Ledger, P: Ledger, W: Ledger> Pass<C, P, W> {
    /// How many of the 1,024 parts the caller holds.
    pub fn parts(&self) -> u64
        ensures parts { result ≡ self.now.parts }
        ensures some { 0 < result }
        ensures most { result ≤ 1024 }
    {
        self.parts
    }

    /// How many calls were answered, with whatever reply.
    pub fn calls(&self) -> u64
        ensures { result ≡ self.now.calls }
    {
        self.calls
    }

    /// How many places were filled by the caller's calls.
    pub fn placed(&self) -> u64
        ensures { result ≡ self.now.placed }
    {
        self.placed
    }

    /// How many places were taken out by the caller's calls.
    pub fn withdrawn(&self) -> u64
        ensures { result ≡ self.now.withdrawn }
    {
        self.withdrawn
    }

    /// Cuts off a pass of some of the parts, for another caller. This one keeps its numbers, the new one begins at 0. For
    /// `fill_shared::Shared` alone, which hands passes out.
    pub fn split_off(&mut self, parts: u64) -> Pass<C, P, W>
        requires some { 0 < parts }
        requires left { parts < self.old.parts }
        ensures kept { self.new.parts + parts ≡ self.old.parts }
        ensures calls { self.new.calls ≡ self.old.calls }
        ensures placed { self.new.placed ≡ self.old.placed }
        ensures withdrawn { self.new.withdrawn ≡ self.old.withdrawn }
        ensures cut { result ≡ nothing_with parts }
    {
        let call_share = self.call_share.split_off(parts, 0);
        let placed_share = self.placed_share.split_off(parts, 0);
        let withdrawn_share = self.withdrawn_share.split_off(parts, 0);
        self.parts -= parts;
        Pass {
            parts,
            calls: 0,
            placed: 0,
            withdrawn: 0,
            call_share,
            placed_share,
            withdrawn_share,
        }
    }

    /// Takes over the parts and the numbers of another pass of the same book. That the sums fit is known by `FillBook::audit` of
    /// both. For `fill_shared::Shared` alone, which takes passes back.
    pub fn join(&mut self, other: Pass<C, P, W>)
        requires all { AllParts C.parts P.parts W.parts }
        requires room { (self.old.calls + other.calls < 2 ^ 64) × (self.old.placed + other.placed < 2 ^ 64) × (self.old.withdrawn + other.withdrawn < 2 ^ 64) }
        ensures { self.new ≡ joined self.old other }
    {
        self.call_share.merge(other.call_share);
        self.placed_share.merge(other.placed_share);
        self.withdrawn_share.merge(other.withdrawn_share);
        self.parts += other.parts;
        self.calls += other.calls;
        self.placed += other.placed;
        self.withdrawn += other.withdrawn;
    }
}

impl<C: Ledger, P: Ledger, W: Ledger> Books<C, P, W> {
    /// The numbers of a new book, and the pass that holds all parts.
    pub fn open(calls: Blank, placed: Blank, withdrawn: Blank) -> (Books<C, P, W>, Pass<C, P, W>)
        requires names { (calls.name ≡ C.name) × (placed.name ≡ P.name) × (withdrawn.name ≡ W.name) }
        requires parts { (calls.parts ≡ C.parts) × (placed.parts ≡ P.parts) × (withdrawn.parts ≡ W.parts) }
        requires all { AllParts C.parts P.parts W.parts }
        ensures books { result.0 ≡ record { calls = 0; placed = 0; withdrawn = 0 } }
        ensures pass { result.1 ≡ nothing_with 1024 }
    {
        let (calls, call_share) = calls.open::<C>();
        let (placed, placed_share) = placed.open::<P>();
        let (withdrawn, withdrawn_share) = withdrawn.open::<W>();
        let pass = Pass {
            parts: 1024,
            calls: 0,
            placed: 0,
            withdrawn: 0,
            call_share,
            placed_share,
            withdrawn_share,
        };
        (
            Books {
                calls,
                placed,
                withdrawn,
            },
            pass,
        )
    }

    /// Tells how the numbers of a pass stand to the book's. Takes no bytes and does nothing at run time.
    pub fn audit(&mut self, pass: &mut Pass<C, P, W>)
        requires all { AllParts C.parts P.parts W.parts }
        ensures same { (self.new ≡ self.old) × (pass.new ≡ pass.old) }
        ensures parts { pass.old.parts ≤ 1024 }
        ensures within { IsWithin pass.old self.old }
        ensures whole { pass.old.parts ≡ 1024 → IsWhole pass.old self.old }
    {
        self.calls.audit(&mut pass.call_share);
        self.placed.audit(&mut pass.placed_share);
        self.withdrawn.audit(&mut pass.withdrawn_share);
    }

    /// Counts one more call, and the places that it filled and took out.
    pub fn note(&mut self, pass: &mut Pass<C, P, W>, placed: u64, withdrawn: u64)
        requires calls { self.old.calls + 1 < 2 ^ 64 }
        requires placed { self.old.placed + placed < 2 ^ 64 }
        requires withdrawn { self.old.withdrawn + withdrawn < 2 ^ 64 }
        ensures books { self.new ≡ counted self.old placed withdrawn }
        ensures pass { pass.new ≡ moved_by pass.old placed withdrawn }
        ensures within { IsWithin pass.old self.old }
    {
        self.calls.audit(&mut pass.call_share);
        self.placed.audit(&mut pass.placed_share);
        self.withdrawn.audit(&mut pass.withdrawn_share);
        self.calls.add(&mut pass.call_share, 1);
        self.placed.add(&mut pass.placed_share, placed);
        self.withdrawn.add(&mut pass.withdrawn_share, withdrawn);
        pass.calls += 1;
        pass.placed += placed;
        pass.withdrawn += withdrawn;
    }
}
