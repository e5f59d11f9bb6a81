//! Tests alone: guests on threads, whose threads note what they do.
#![tactic(auto)]

#[cfg(test)]
mod tests;
