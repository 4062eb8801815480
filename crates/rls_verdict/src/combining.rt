//! What policies say of a row together.

ghost use Rattle.std.specs.Prelude.{◌≡◌, None, IfOk};
ghost use Rattle.std.specs.Option.{option_copied, option_map};
ghost use Rattle.rls_catalog.specs.Verdict.{verdict_of, names_where, least, lesser};

use rls_catalog::Verdict;
use rls_catalog::rls_expr::Policy;
use rls_catalog::rls_value::{Name, Reference, Truth};
use std::alloc::AllocError;

/// A policy, and what its condition says of a row.
pub type Judgement<'c> = (Reference<'c, Policy>, Truth);

/// What policies say of a row together, by what each of them says: some permissive one must be true, and every
/// restrictive one (PostgreSQL manual, CREATE POLICY). False and null are not true.
pub fn combine(judgements: &[Judgement<'_>]) -> Result<Verdict, AllocError>
    ensures { IfOk result (λ verdict. verdict ≡ verdict_of judgements.now) }
{
    let Some(passing) = first_name(judgements, true, true) else {
        return Ok(Verdict::NoPermissive);
    };
    match first_name(judgements, false, false) {
        Some(failing) => Ok(Verdict::Restrictive(failing.copy()?)),
        None => Ok(Verdict::By(passing.copy()?)),
    }
}

/// The least name of the policies that are permissive, or restrictive, and are true, or aren't.
fn first_name<'a>(
    mut judgements: &[Judgement<'a>],
    permissive: bool,
    passes: bool,
) -> Option<&'a Name>
    ensures { option_copied result ≡ least None (names_where permissive passes judgements.entry.now) }
{
    let mut best = None;
    while let [(policy, truth), others @ ..] = judgements {
        let policy = policy.get();
        if policy.permissive == permissive && truth.is_true() == passes {
            best = Some(lesser_name(best, &policy.name));
        }
        judgements = others;
    }
    best
}

/// The name, unless the best one so far is before it.
pub fn lesser_name<'a>(best: Option<&'a Name>, name: &'a Name) -> &'a Name
    ensures { result.now ≡ lesser (option_copied best.entry) name.now }
{
    match best {
        Some(best) => { if *best > *name { name } else { best } }
        None => name,
    }
}
