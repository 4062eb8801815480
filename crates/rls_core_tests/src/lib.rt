//! Tests of what no contract of `rls_core` and `rls_audit` says, over their public calls.
#![tactic(auto)]

#[cfg(test)]
mod again;
#[cfg(test)]
mod answers;
#[cfg(test)]
mod bad_lines;
#[cfg(test)]
mod calls;
#[cfg(test)]
mod histories;
#[cfg(test)]
mod limits;
#[cfg(test)]
mod lines;
#[cfg(test)]
mod opening;
#[cfg(test)]
mod playing;
#[cfg(test)]
mod records;
#[cfg(test)]
mod refusals;
