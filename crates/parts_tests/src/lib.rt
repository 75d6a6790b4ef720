// Caches and lists at work: what their callers know, and examples that are run.
#![tactic(auto)]

#[cfg(test)]
mod cache_tests;
pub mod cache_uses;
#[cfg(test)]
mod list_tests;
pub mod list_uses;
