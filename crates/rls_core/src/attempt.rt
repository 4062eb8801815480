//! Transactions that ended without a commit.

ghost use Rattle.std.specs.Prelude.{◌≡◌, []};

use crate::begin::Begin;
use crate::posted::Posted;
use rls_catalog::shared_map::Share;
use rls_value::Items;

/// What is left of a transaction that ended without a commit: what it began as, and its statements, each with what it came to.
#[derive(Drop)]
pub struct Remains {
    pub begin: Share<Begin>,
    pub posts: Items<Share<Posted>>,
}

/// A transaction that ended without a commit: its number, how many had committed when it began, what it began as, and its statements,
/// each with what it came to.
#[derive(Drop)]
pub struct Attempt {
    pub txn: u64,
    pub snap: u64,
    pub begin: Share<Begin>,
    pub posts: Items<Share<Posted>>,
}

impl Attempt {
    /// With no statements.
    pub fn without_posts(self) -> Attempt
        ensures { result ≡ record { txn = self.txn; snap = self.snap; begin = self.begin; posts = [] } }
    {
        let Attempt {
            txn,
            snap,
            begin,
            posts,
        } = self;
        let mut posts = posts.into_vec();
        posts.clear();
        Attempt {
            txn,
            snap,
            begin,
            posts: Items::from_vec(posts),
        }
    }
}
