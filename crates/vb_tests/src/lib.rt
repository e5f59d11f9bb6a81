//! Tests alone, by public calls: rings, page areas, a balloon driver, a monitor's device, notices
//! over changing memory, scripts and replies as text.
#![tactic(auto)]

#[cfg(test)]
mod tests;
