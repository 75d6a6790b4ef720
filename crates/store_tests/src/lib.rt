// The store, run on examples with both chains and both caches.
#![tactic(auto)]

#[cfg(test)]
mod examples;
