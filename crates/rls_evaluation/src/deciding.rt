//! What policies say of a row, where each condition is told where it stands.

ghost use Rattle.std.specs.Prelude.{◌≡◌, true, false, IfOk, IfSome};
ghost use Rattle.std.specs.Option.{option_copied};
ghost use Rattle.rls_verdict.specs.rls_catalog.specs.Verdict.{verdict_by};
ghost use Rattle.rls_evaluation.specs.Deciding.{IsDecided, named_if};

use crate::plain::plain_condition;
use crate::scope::{Env, Scoped};
use rls_source::rls_catalog::rls_expr::{Expr, Policy};
use rls_value::{Name, Reference, Row, Truth};
use rls_verdict::lesser_name;
use rls_verdict::rls_catalog::Verdict;
use std::alloc::AllocError;

/// The policies that decide on a row: by name the first permissive one that is true, and the first restrictive one that
/// isn't.
#[derive(Clone, Copy)]
pub struct Deciding<'c> {
    pub passing: Option<&'c Name>,
    pub failing: Option<&'c Name>,
}

/// The policies that decide on the row, which alone is in scope; none where a condition isn't told where it stands.
pub fn deciding_on<'a, 'c>(
    conditions: &'a [(Reference<'c, Policy>, Expr)],
    user: &'a Name,
    row: &'a Row,
) -> Option<Deciding<'c>>
    ensures { IfSome result (λ it. IsDecided conditions.now user.now row.now (option_copied it.passing) (option_copied it.failing)) }
{
    let nothing = Scoped::Nothing;
    let env = Env {
        user,
        rows: Scoped::Over(row, &nothing),
    };
    let mut deciding = Deciding {
        passing: None,
        failing: None,
    };
    for (policy, condition) in conditions {
        match plain_condition(condition, &env) {
            Some(truth) => deciding = deciding.with(policy.get(), truth),
            None => return None,
        }
    }
    Some(deciding)
}

impl<'c> Deciding<'c> {
    /// With what one policy more says.
    #[inline]
    fn with(self, policy: &'c Policy, truth: Truth) -> Deciding<'c>
        ensures passing { option_copied result.passing ≡ named_if true true (option_copied self.entry.passing) policy.now truth }
        ensures failing { option_copied result.failing ≡ named_if false false (option_copied self.entry.failing) policy.now truth }
    {
        match (policy.permissive, truth.is_true()) {
            (true, true) => Deciding {
                passing: Some(lesser_name(self.passing, &policy.name)),
                failing: self.failing,
            },
            (false, false) => Deciding {
                passing: self.passing,
                failing: Some(lesser_name(self.failing, &policy.name)),
            },
            (_, _) => self,
        }
    }

    /// What they say together: some permissive policy must be true, and every restrictive one (PostgreSQL manual, CREATE
    /// POLICY).
    #[inline]
    pub fn verdict(self) -> Result<Verdict, AllocError>
        ensures { IfOk result (λ verdict. verdict ≡ verdict_by (option_copied self.entry.passing) (option_copied self.entry.failing)) }
    {
        match (self.passing, self.failing) {
            (None, _) => Ok(Verdict::NoPermissive),
            (Some(_), Some(failing)) => match failing.copy() {
                Ok(name) => Ok(Verdict::Restrictive(name)),
                Err(refused) => Err(refused),
            },
            (Some(passing), None) => match passing.copy() {
                Ok(name) => Ok(Verdict::By(name)),
                Err(refused) => Err(refused),
            },
        }
    }
}
