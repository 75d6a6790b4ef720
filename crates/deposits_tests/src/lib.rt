// Sheets written from stores and read into others.
#![tactic(auto)]

#[cfg(test)]
mod examples;
