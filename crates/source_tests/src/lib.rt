// Tests of the sources: both ends of every range, the order of the refusals, answers that were worked out apart, and the
// words for faults.
#![tactic(auto)]

#[cfg(test)]
mod answers;
#[cfg(test)]
mod order;
#[cfg(test)]
mod ranges;
#[cfg(test)]
mod results;
#[cfg(test)]
mod words;
