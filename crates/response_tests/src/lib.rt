// Tests of the analysis of a row: tables that were worked out apart, both ends of every range, the order of the refusals, a curve
// of one's own, and the words for verdicts and faults.
#![tactic(auto)]

#[cfg(test)]
mod burst_rows;
#[cfg(test)]
mod curves;
#[cfg(test)]
mod cyclic_rows;
#[cfg(test)]
mod held_up_rows;
#[cfg(test)]
mod refusals;
#[cfg(test)]
mod results;
#[cfg(test)]
mod words;
