//! Pools of one to four hands: worked rows, each call once, hands in threads of their own, and a
//! long run of calls in random order.
#![tactic(auto)]

#[cfg(test)]
mod calls;
#[cfg(test)]
mod crowd;
#[cfg(test)]
mod cubes;
#[cfg(test)]
mod diary;
#[cfg(test)]
mod pairs;
#[cfg(test)]
mod rows;
#[cfg(test)]
mod threads;
