//! Tests alone, by public calls: balloon devices of both paces, and one whose queues a monitor's
//! notices serve.
#![tactic(auto)]

#[cfg(test)]
mod tests;
