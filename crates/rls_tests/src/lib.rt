//! Tests of what no contract says, over the public calls of the crates.
#![tactic(auto)]

#[cfg(test)]
mod agreements;
mod coded_changes;
mod coded_lines;
mod coded_refusals;
mod coded_statements;
#[cfg(test)]
mod coded_texts;
mod coded_values;
mod coded_words;
#[cfg(test)]
mod columns;
#[cfg(test)]
mod equalities;
#[cfg(test)]
mod expressions;
#[cfg(test)]
mod histories;
#[cfg(test)]
mod locks;
#[cfg(test)]
mod map_calls;
#[cfg(test)]
mod map_changes;
#[cfg(test)]
mod map_readers;
#[cfg(test)]
mod map_versions;
#[cfg(test)]
mod objects;
#[cfg(test)]
mod overlays;
#[cfg(test)]
mod policies;
#[cfg(test)]
mod printings;
#[cfg(test)]
mod privileges;
#[cfg(test)]
mod roles;
#[cfg(test)]
mod round_trips;
#[cfg(test)]
mod sources;
#[cfg(test)]
mod standings;
#[cfg(test)]
mod states;
#[cfg(test)]
mod steps;
#[cfg(test)]
mod texts;
#[cfg(test)]
mod values;
