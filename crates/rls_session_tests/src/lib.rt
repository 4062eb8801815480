//! Tests of what no contract of `rls_engine` and `rls_session` says, over their public calls.
#![tactic(auto)]

#[cfg(test)]
mod cases;
#[cfg(test)]
mod checking;
#[cfg(test)]
mod crossing;
#[cfg(test)]
mod loads;
#[cfg(test)]
mod many;
#[cfg(test)]
mod opening;
#[cfg(test)]
mod pairs;
#[cfg(test)]
mod passed;
#[cfg(test)]
mod phases;
#[cfg(test)]
mod texts;
#[cfg(test)]
mod threads;
#[cfg(test)]
mod worker;
