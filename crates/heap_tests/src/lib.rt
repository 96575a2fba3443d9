//! Tests of the heaps, alone and in layers, and callers that know their memory again once a heap is gone.
#![tactic(auto)]

#[cfg(test)]
mod calls;
mod lending;
#[cfg(test)]
mod tests;
