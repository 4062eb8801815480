//! What else stays after every list of events.

ghost use Rattle.rls_core.specs.Headline.{AfterEvents, AreAdmitted, AreRecorded, CanBeOrdered, KeysStayUnique, NumbersDiffer, NumbersNeverMeet, OneMore, PostsAreTested, RunAsRecorded, WriteApart};

use crate::database::Rls;
use rls_conflict::{changes_are_put, sound_rows_join, words_are_told};
use rls_meaning::rls_access::{changes_go_on, numbers_go_on, rows_stay_sound};
use rls_meaning::statement_means;

/// After every list of events no dangerous structure stands among the committed transactions, so an order can be made of them;
/// concurrent ones write no common object. Primary keys are unique in each committed state, numbers of rows of two transactions
/// never meet, transactions have numbers of their own, and each committed one was admitted at its snapshot, began before it
/// committed, and has the changes of its effects. Each that runs has just what its statements come to alone on its snapshot.
pub fn events_keep()
    ensures ordered { AfterEvents CanBeOrdered }
    ensures apart { AfterEvents WriteApart }
    ensures keys { AfterEvents KeysStayUnique }
    ensures rows { AfterEvents NumbersNeverMeet }
    ensures numbers { AfterEvents NumbersDiffer }
    ensures records { AfterEvents AreRecorded }
    ensures admitted { AfterEvents AreAdmitted }
    ensures running { AfterEvents RunAsRecorded }
{
    rows_stay_sound();
    changes_go_on();
    numbers_go_on();
    changes_are_put();
    sound_rows_join();
    statement_means();
    words_are_told();
    rls_history::events_keep::<Rls>();
}

/// One event more is one step more.
pub fn one_event_more()
    ensures { OneMore }
{}

/// A statement is refused at its post, and its transaction is over, exactly where a concurrent transaction, committed or
/// running, wrote an object that its changes write.
pub fn posts_are_tested()
    ensures { PostsAreTested }
{
    words_are_told();
}
