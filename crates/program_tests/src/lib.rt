#![tactic(auto)]

// Tests of program texts: refusals at their first and last places and in their order, and walks through programs.
#[cfg(test)]
mod refusals;
#[cfg(test)]
mod texts;
#[cfg(test)]
mod walks;
