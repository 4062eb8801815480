//! Receipts of commits.

ghost use Rattle.std.specs.Prelude.{◌≡◌};

use crate::commit::Commit;
use crate::named::Named;
use crate::place::Place;
use boxcar::Pushed;
use rls_core::Record;
use rls_value::Name;
use std::marker::Model;
use std::sync::ledger::Share;

/// What a commit hands out: its engine's tag, its number, its transaction's last role and its record; with the token of the
/// record's place, and a share of one commit.
#[derive(Drop)]
pub struct Receipt<N: Named> {
    pub(crate) tag: u64,
    pub(crate) number: u64,
    pub(crate) role: Name,
    pub(crate) entry: Record,
    pub(crate) token: Pushed<Commit>,
    pub(crate) share: Option<Share<N>>,
}

impl<N: Named> Model for Receipt<N> {
    ghost use Rattle.std.specs.Prelude.{◌≡◌, is_some, IfSome};
    ghost use Rattle.rls_engine.specs.Views.{Proof, proof_code};
    ghost use Rattle.rls_engine.specs.Knows.{IsOf};

    ghost Value = { Proof };

    ghost coded = { proof_code };

    ghost view = { λ it. record { tag = it.tag; number = it.number; role = it.role; entry = it.entry; fresh = is_some it.share } };

    ghost invariant = { λ it. IsOf N.commits it.number it.token × (it.token.value.entry ≡ it.entry) × IfSome it.share (λ share. (share.parts ≡ 1) × (share.amount ≡ 1)) };
}

impl<N: Named> Receipt<N> {
    /// The tag of its engine.
    pub fn tag(&self) -> u64
        ensures { result ≡ self.now.tag }
    {
        self.tag
    }

    /// The number of the commit, from 1.
    pub fn number(&self) -> u64
        ensures { result ≡ self.now.number }
    {
        self.number
    }

    /// The number of the transaction.
    pub fn txn(&self) -> u64
        ensures { result ≡ self.now.entry.txn }
    {
        self.entry.txn()
    }

    /// The role that the transaction had last.
    pub fn role(&self) -> &Name
        ensures { result.now ≡ self.now.role }
    {
        &self.role
    }

    /// The record of the transaction.
    pub fn entry(&self) -> &Record
        ensures { result.now ≡ self.now.entry }
    {
        &self.entry
    }

    /// The role that the transaction had last, and where the record stands. All else of the receipt is let go.
    pub fn into_parts(self) -> (Name, Place<N>)
        ensures role { result.0 ≡ self.role }
        ensures number { result.1.number ≡ self.number }
        ensures entry { result.1.entry ≡ self.entry }
    {
        let Receipt {
            tag: _,
            number,
            role,
            entry: _,
            token,
            share: _,
        } = self;
        (role, Place::new(number, token))
    }
}
