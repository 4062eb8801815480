//! What a caller knows of commits.

ghost use Rattle.std.specs.Prelude.{◌≡◌, ◌+◌};
ghost use Rattle.rls_engine.specs.Knows.{Learns, Joins};

use crate::named::Named;
use crate::receipt::Receipt;
use std::marker::Model;
use std::sync::ledger::{Ledger, Share};

/// What a caller has learnt of the commits of one engine: the greatest number, and how many receipts count here.
#[derive(Drop)]
pub struct Seen<N: Named> {
    pub(crate) tag: u64,
    pub(crate) number: u64,
    pub(crate) told: u64,
    pub(crate) share: Option<Share<N>>,
}

impl<N: Named> Model for Seen<N> {
    ghost use Rattle.std.specs.Prelude.{◌≡◌, MatchOption};
    ghost use Rattle.rls_engine.specs.Views.{Watch};

    ghost Value = { Watch };

    ghost view = { λ it. record { tag = it.tag; number = it.number; told = it.told } };

    ghost invariant = { λ it. MatchOption it.share (it.told ≡ 0) (λ share. (share.parts ≡ it.told) × (share.amount ≡ it.told)) };
}

impl<N: Named> Seen<N> {
    /// Nothing is learnt yet.
    pub fn new(tag: u64) -> Seen<N>
        ensures { result ≡ record { tag = tag; number = 0; told = 0 } }
    {
        Seen {
            tag,
            number: 0,
            told: 0,
            share: None,
        }
    }

    /// The same number, and no shares.
    pub fn alike(&self) -> Seen<N>
        ensures { result ≡ record { tag = self.now.tag; number = self.now.number; told = 0 } }
    {
        Seen {
            tag: self.tag,
            number: self.number,
            told: 0,
            share: None,
        }
    }

    /// The tag of its engine.
    pub fn tag(&self) -> u64
        ensures { result ≡ self.now.tag }
    {
        self.tag
    }

    /// The greatest number that was learnt; 0 where none was.
    pub fn number(&self) -> u64
        ensures { result ≡ self.now.number }
    {
        self.number
    }

    /// How many receipts count here. `Engine::audited` tells that there are at least as many commits.
    pub fn told(&self) -> u64
        ensures { result ≡ self.now.told }
    {
        self.told
    }

    /// Learns a receipt of this tag, which counts if it counts nowhere yet. One of another tag changes nothing.
    pub fn learn(&mut self, receipt: &mut Receipt<N>)
        requires wide { N.parts ≡ 18446744073709551615 }
        ensures { Learns self.old receipt.old self.new receipt.new }
    {
        if self.tag != receipt.tag {
            return;
        }
        if self.number < receipt.number {
            self.number = receipt.number;
        }
        let Some(share) = receipt.share.take() else {
            return;
        };
        self.take_in(1, share);
    }

    // Puts a share with the others.
    fn take_in(&mut self, told: u64, share: Share<N>)
        requires wide { N.parts ≡ 18446744073709551615 }
        requires parts { share.parts ≡ told }
        requires amount { share.amount ≡ told }
        ensures { self.new ≡ record { tag = self.old.tag; number = self.old.number; told = self.old.told + told } }
    {
        match &mut self.share {
            None => {
                self.told = told;
                self.share = Some(share);
            }
            Some(mine) => {
                mine.merge(share);
                self.told += told;
            }
        }
    }

    /// Learns what another has learnt, and takes its shares. One of another tag changes nothing.
    pub fn join(&mut self, other: &mut Seen<N>)
        requires wide { N.parts ≡ 18446744073709551615 }
        ensures { Joins self.old other.old self.new other.new }
    {
        if self.tag != other.tag {
            return;
        }
        if self.number < other.number {
            self.number = other.number;
        }
        let told = other.told;
        let Some(share) = other.share.take() else {
            return;
        };
        other.told = 0;
        self.take_in(told, share);
    }
}
