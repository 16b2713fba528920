// Both books on the same calls, at the limits of their memory.
#![tactic(auto)]

#[cfg(test)]
mod tests;
