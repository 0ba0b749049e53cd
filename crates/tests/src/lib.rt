//! Examples of every layer, proved and then run. This crate holds tests only.
#![tactic(auto)]

#[cfg(test)]
mod indices;
#[cfg(test)]
mod norms;
#[cfg(test)]
mod runs;
#[cfg(test)]
mod scalars;
#[cfg(test)]
mod vectors;

/// The number of an answer, 0 where the call was accepted.
#[cfg(test)]
fn number(answer: Result<(), shape::Refusal>) -> u8 {
    answer.map_or_else(shape::Refusal::number, |()| 0)
}
