//! Worked examples, run: each refusal with its line, axis and part, and tables of known values.
#![tactic(auto)]

#[cfg(test)]
mod bank_rows;
#[cfg(test)]
mod inputs;
#[cfg(test)]
mod stack_rows;
#[cfg(test)]
mod writing;
