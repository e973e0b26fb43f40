//! Worked rows: the bytes of the proof and the answer for the bytes of a formula, by both searches
//! and by strategies of them, and the line for those of a proof; what failing readers and writers
//! leave; two hands at a gate; proofs of many steps, one that three hands make, and those with one
//! byte changed; examples from end to end; runs that end where a limit is reached; and runs over
//! stored facts, by one hand and by several, and the tables by which a store finds them.
#![tactic(auto)]

#[cfg(test)]
mod at_once;
#[cfg(test)]
mod by_strategy;
#[cfg(test)]
mod check;
#[cfg(test)]
mod check_faults;
#[cfg(test)]
mod cube_tables;
#[cfg(test)]
mod divided;
#[cfg(test)]
mod examples;
#[cfg(test)]
mod facts_in_memory;
#[cfg(test)]
mod faults;
#[cfg(test)]
mod gates;
#[cfg(test)]
mod gathered;
#[cfg(test)]
mod large;
#[cfg(test)]
mod limited_runs;
#[cfg(test)]
mod long_proofs;
#[cfg(test)]
mod lowered_runs;
#[cfg(test)]
mod many_parts;
#[cfg(test)]
mod one_byte;
#[cfg(test)]
mod other_solvers;
#[cfg(test)]
mod plainly;
#[cfg(test)]
mod rows;
#[cfg(test)]
mod stored_hands;
#[cfg(test)]
mod taken_facts;
#[cfg(test)]
mod true_packs;
