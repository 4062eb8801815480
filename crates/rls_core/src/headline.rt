//! The committed transactions have a serial order.

ghost use Rattle.rls_core.specs.Events.{plain_rules};
ghost use Rattle.rls_core.specs.Headline.{AfterEvents, AreExplained, AreSafe, EachFindsSnapshots, HaveOrder};

use crate::database::Rls;
use rls_conflict::{changes_are_put, sound_rows_join, words_are_told};
use rls_meaning::rls_access::{changes_go_on, numbers_go_on, rows_stay_sound};
use rls_meaning::statement_means;

/// After every list of begins, posts, commits and rollbacks the committed transactions have an order that keeps `before` and
/// `rw`. Each such order explains them: run alone in it, one after another from the opening state, the statements of each come
/// to exactly what is recorded of it, replies, refusals, decisions and changes, and at the end each object has its committed
/// content; and there each finds, on all that it noted as read, what its snapshot had. It holds for any notes that only widen
/// what was read, and any test at a commit that finds the dangerous structures; so for notes of all that was read, and the
/// commit-order rule with its exception for a first one that only reads (Ports and Grittner, VLDB 2012, 3.3 and 4.1).
pub fn committed_are_serial()
    ensures order { AfterEvents HaveOrder }
    ensures explains { AfterEvents AreExplained }
    ensures snapshots { AfterEvents EachFindsSnapshots }
    ensures safe { AreSafe plain_rules }
{
    rows_stay_sound();
    changes_go_on();
    numbers_go_on();
    changes_are_put();
    sound_rows_join();
    statement_means();
    words_are_told();
    rls_history::structures_are_found();
    rls_history::committed_are_serial::<Rls>();
}
