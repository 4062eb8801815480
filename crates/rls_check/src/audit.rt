//! An audit, and how it is read.

ghost use Rattle.std.specs.Prelude.{◌≡◌, ◌⊎◌, ◌+◌, ◌++◌, ◌∷◌, [], ℕ, List, length, nat_eq, IsUtf8, IfOk, IfErr};
ghost use Rattle.std.specs.List.{list_any};
ghost use Rattle.rls_value.specs.declared.refusal.Refusal.TheVariants as r;
ghost use Rattle.rls_audit.specs.rls_audit_lines.specs.Reading.{MeansLine};
ghost use Rattle.rls_check.specs.Forms.{IsNext, IsBehind, IsUnread, IsTakenAmong, IsEnded};
ghost use Rattle.rls_check.specs.Keeping.{IsMade};
ghost use Rattle.rls_check.specs.ShownAudits.{missing_txn};
ghost use Rattle.rls_check.specs.Wholes.{AreNoAudit, BeginNoAudit, HasRead, IsAuditOf, Takes};

use crate::form::Form;
use crate::stored::Stored;
use rls_audit::Line;
use rls_value::{Items, Refusal};
use std::alloc::Global;

/// An audit: its transactions in the order of their commits, and numbers of transactions as their serial order.
#[derive(Drop)]
pub struct Audit {
    pub(crate) transactions: Items<Stored>,
    pub(crate) order: Items<u64>,
}

impl Audit {
    /// The numbers of the last line.
    pub fn order(&self) -> &[u64]
        ensures { result.now ≡ self.now.order }
    {
        self.order.as_slice()
    }

    /// The first of the numbers that no transaction has.
    pub fn missing(&self, txns: &[u64]) -> Option<u64>
        ensures { result ≡ missing_txn self.now.transactions txns.now }
    {
        for txn in txns {
            if !self.has(*txn) {
                return Some(*txn);
            }
        }
        None
    }

    fn has(&self, txn: u64) -> bool
        ensures { result ≡ list_any (λ it. nat_eq it.txn txn) self.now.transactions }
    {
        self.transactions
            .as_slice()
            .iter()
            .any(|stored| stored.txn() == txn)
    }
}

/// Reads an audit line by line.
#[derive(Drop)]
pub struct Reader {
    form: Form,
    transactions: Items<Stored>,
    order: Items<u64>,
}

impl Reader {
    #[tactic(auto, using(crate::proofs::WholeLemmas::nothing_read))]
    pub fn new(alloc: Global) -> Reader
        ensures unread { IsUnread result.form }
        ensures empty { result.transactions ≡ [] }
        ensures whole { HasRead [] result }
    {
        Reader {
            form: Form::new(alloc),
            transactions: Items::new(alloc),
            order: Items::new(alloc),
        }
    }

    /// Reads the next line, without its end, and keeps what it means. `BadAudit` of its number exactly where no audit begins with
    /// the lines so far and this one; nothing is left to go on with then.
    pub fn line(self, alloc: Global, text: &[u8]) -> Result<Reader, Refusal>
        ensures taken { IsTakenAmong (self.form.lines + 1) (IsNext self.form text.now) (λ it second after. IsBehind self.form it second after.form × Takes it self after) result }
        ensures whole { (texts : List (List ℕ)) → HasRead texts self → IfOk result (HasRead (texts ++ text.now ∷ [])) }
        ensures refused { (texts : List (List ℕ)) → HasRead texts self → IfErr result (λ refusal. (refusal ≡ r.NoMemory) ⊎ ((refusal ≡ r.BadAudit (length texts + 1)) × BeginNoAudit (texts ++ text.now ∷ []))) }
    {
        let mut reader = self;
        match reader.take(alloc, text) {
            Ok(()) => Ok(reader),
            Err(refusal) => {
                drop(reader);
                Err(refusal)
            }
        }
    }

    /// The same in place.
    #[tactic(auto, using(crate::proofs::FormLemmas::taken_more))]
    fn take(&mut self, alloc: Global, text: &[u8]) -> Result<(), Refusal>
        ensures { IsTakenAmong (self.old.form.lines + 1) (IsNext self.old.form text.now) (λ it second _. IsBehind self.old.form it second self.new.form × Takes it self.old self.new) result }
    {
        let (line, second) = self.form.next(alloc, text)?;
        self.keep(alloc, text, second, line)
    }

    /// Keeps the line, which is this text.
    fn keep(&mut self, alloc: Global, text: &[u8], second: bool, line: Line) -> Result<(), Refusal>
        requires utf8 { IsUtf8 text.now }
        requires means { MeansLine second text.now line }
        ensures kept { IsMade (λ _. Takes line self.old self.new) result }
        ensures form { self.new.form ≡ self.old.form }
    {
        match line {
            Line::Head => {}
            Line::Txn(shown) => {
                let stored = Stored::new(alloc, second, text, &shown);
                drop(shown);
                self.transactions.push(stored?)?;
            }
            Line::End(_, order) => self.order = order,
        }
        Ok(())
    }

    /// The audit, once its last line is read; else the line behind the last one is missing.
    #[tactic(auto, using(crate::proofs::WholeLemmas::whole_read, crate::proofs::WholeLemmas::refused_end))]
    pub fn finish(self) -> Result<Audit, Refusal>
        ensures ended { IsEnded self.form (λ audit. (audit.transactions ≡ self.transactions) × (audit.order ≡ self.order)) result }
        ensures whole { (texts : List (List ℕ)) → HasRead texts self → IfOk result (IsAuditOf texts) }
        ensures refused { (texts : List (List ℕ)) → HasRead texts self → IfErr result (λ refusal. (refusal ≡ r.NoMemory) ⊎ ((refusal ≡ r.BadAudit (length texts + 1)) × AreNoAudit texts)) }
    {
        let Reader {
            form,
            transactions,
            order,
        } = self;
        match form.finish() {
            Ok(()) => Ok(Audit {
                transactions,
                order,
            }),
            Err(refusal) => {
                drop(transactions);
                drop(order);
                Err(refusal)
            }
        }
    }
}
