//! What is proved of the abstract store. There is no code here: each function stands for the theorem in its contract.
ghost use Rattle.model.specs.Laws.{CollectorLeavesReach, FreeListInOrder, HeapRefusesNothing, InvariantKept, ReachedIsUsed, UnitsContainTurn};
ghost use Rattle.model.specs.Mistakes.{MistakesLose};

// The invariant holds of a new store, and every call keeps it.
#[tactic(auto, using(crate::proofs::Theorems::invariant_kept))]
pub fn invariant_is_kept()
    ensures { InvariantKept }
{}

// The holds reach used cells only.
#[tactic(auto, using(crate::proofs::Theorems::reached_is_used))]
pub fn reached_is_used()
    ensures { ReachedIsUsed }
{}

// Marks, sweeps and turns leave reach as it is.
#[tactic(auto, using(crate::proofs::Reached::mark_reach, crate::proofs::Reached::sweep_reach, crate::proofs::Reached::turn_reach))]
pub fn collector_leaves_reach()
    ensures { CollectorLeavesReach }
{}

// Any K units in a row contain a turn.
#[tactic(auto, using(crate::proofs::Theorems::units_contain_turn))]
pub fn units_contain_turn()
    ensures { UnitsContainTurn }
{}

// The free list comes out in the order in which it was put back.
#[tactic(auto, using(crate::proofs::Theorems::free_list_in_order))]
pub fn free_list_in_order()
    ensures { FreeListInOrder }
{}

// No write meets 5 or 18, and no exchange meets a grey cell.
#[tactic(auto, using(crate::proofs::Theorems::heap_refuses_nothing))]
pub fn heap_refuses_nothing()
    ensures { HeapRefusesNothing }
{}

// Each of three well-known mistakes loses a cell that is held.
#[tactic(auto, using(crate::proofs::Mistakes::mistakes_lose))]
pub fn mistakes_lose()
    ensures { MistakesLose }
{}
