//! What changes make of a state, and two transactions together.

ghost use Rattle.rls_history.specs.Lawful.{PutsAre};
ghost use Rattle.rls_conflict.specs.Laws.{SoundRowsJoin, WritesAreMutual};
ghost use Rattle.rls_conflict.specs.States.{states, InOrder};

/// A change that is put on changes what stands at its place, and nothing else, where the rows of each table stand in order;
/// they stay so. Changes of one place write one object.
pub fn changes_are_put()
    ensures puts { PutsAre states InOrder }
    ensures written { WritesAreMutual }
{}

/// Where two transactions write no common object, each leaves sound rows and tables stay with their keys, both together leave
/// sound rows: primary keys stay unique.
pub fn sound_rows_join()
    ensures { SoundRowsJoin }
{}
