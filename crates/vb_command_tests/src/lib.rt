//! Tests alone, by public calls, of what the program `vb_sim` does.
#![tactic(auto)]

#[cfg(test)]
mod tests;
