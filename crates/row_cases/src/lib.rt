// Worked cases of stores, wirings and layers.
#![tactic(auto)]

#[cfg(test)]
mod tests;
