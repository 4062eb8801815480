//! The rules of the core.

ghost use Rattle.rls_core.specs.Headline.{AreSafe};
ghost use Rattle.rls_core.specs.Seen.{core_rules};

/// Notes with the rows of a table in place of many keys only widen what was read, and the test finds the dangerous structures.
pub fn core_rules_are_safe()
    ensures { AreSafe core_rules }
{
    rls_conflict::rls_siread::notes_only_widen();
    rls_history::structures_are_found();
}
