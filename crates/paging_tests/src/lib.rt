// Examples of the crate `paging` at its edges.
#![tactic(auto)]

#[cfg(test)]
mod answers;
#[cfg(test)]
mod both;
#[cfg(test)]
mod flat;
#[cfg(test)]
mod two_level;
#[cfg(test)]
mod words;
