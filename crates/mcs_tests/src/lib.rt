//! Tests that cross crates, of tables, kernels, machines and whole scripts, and of what no clause
//! says.
#![tactic(auto)]

#[cfg(test)]
mod tests;
