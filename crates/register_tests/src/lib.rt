//! Tests of the register over keepers in memory and over SQLite. This crate has no code.
#![tactic(auto)]

#[cfg(test)]
mod databases;
#[cfg(test)]
mod keepers;
