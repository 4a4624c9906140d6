//! A count of steps, kept by the proof alone.
#![tactic(auto)]

mod steps;

pub use steps::Steps;

#[cfg(test)]
mod tests;
