//! Where a commit stands for good.

ghost use Rattle.std.specs.Prelude.{◌≡◌};
ghost use Rattle.rls_engine.specs.Knows.{IsOf};

use crate::commit::Commit;
use crate::named::Named;
use boxcar::{Pushed, Vec as Shared};
use rls_core::rls_rows::State;
use std::marker::{Model, PhantomData};

/// The number and the token of a commit's place: they show its record and the state after it for good.
#[derive(Drop)]
pub struct Place<N: Named> {
    pub(crate) number: u64,
    pub(crate) token: Pushed<Commit>,
    of: PhantomData<N>,
}

impl<N: Named> Model for Place<N> {
    ghost use Rattle.rls_engine.specs.Views.{Standing, standing_code};
    ghost use Rattle.rls_engine.specs.Knows.{IsOf};

    ghost Value = { Standing };

    ghost coded = { standing_code };

    ghost view = { λ it. record { number = it.number; entry = it.token.value.entry; state = it.token.value.state } };

    ghost invariant = { λ it. IsOf N.commits it.number it.token };
}

impl<N: Named> Place<N> {
    pub(crate) fn new(number: u64, token: Pushed<Commit>) -> Place<N>
        requires { IsOf N.commits number token }
        ensures { result ≡ record { number = number; entry = token.value.entry; state = token.value.state } }
    {
        Place {
            number,
            token,
            of: PhantomData,
        }
    }

    /// The same place.
    pub(crate) fn again(&self) -> Place<N>
        ensures { result ≡ self.now }
    {
        Place {
            number: self.number,
            token: self.token.again(),
            of: PhantomData,
        }
    }

    /// The state after the commit.
    pub(crate) fn state<'c>(&self, commits: &'c Shared<Commit>) -> &'c State
        requires { commits.now ≡ N.commits }
        ensures { result.now ≡ self.now.state }
    {
        &commits.value(&self.token).state
    }

    /// The number of the commit, from 1.
    pub fn number(&self) -> u64
        ensures { result ≡ self.now.number }
    {
        self.number
    }
}
