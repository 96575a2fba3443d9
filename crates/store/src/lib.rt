//! The store over any heap: holds, marker, sweeper and free list.
#![tactic(auto)]

mod collector;
mod free_list;
mod hand;
mod holds;
mod table;
mod take;
mod whole;
