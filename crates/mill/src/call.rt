//! What can be asked of a mill.
use servo::settings::GainSettings;

/// A call by the axis that it names and what it brings. A cycle brings a row of readings and the length of the row that is lent for the outputs.
#[derive(Clone, Copy)]
pub enum Call<'a> {
    SetGains(usize, GainSettings),
    Close(usize),
    Kill(usize),
    Target(usize, i64),
    Switch(usize, bool),
    Question(usize),
    Cycle(&'a [u32], usize),
}
