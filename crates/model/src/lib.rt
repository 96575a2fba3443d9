//! The abstract store: what the contracts of a store speak of. The definitions in `specs/` say what a store is, what each
//! call answers and leaves, and what happened in a list of calls; the code here is the vocabulary that they share with it.
#![tactic(auto)]

mod answer;
mod examples;
mod fault;
mod laws;
mod stage;

pub use answer::{Answer, MarkAnswer};
pub use examples::{first_answers, last_answers, saved_answer, saved_text};
pub use fault::{LoadFault, LoadLayer, OpenFault, StoreFault};
pub use laws::{
    collector_leaves_reach, free_list_in_order, heap_refuses_nothing, invariant_is_kept,
    mistakes_lose, reached_is_used, units_contain_turn,
};
pub use stage::Stage;
