//! Files that take their places once they are whole: what stands before and after, where the path
//! leads through links, and what is left where a call of the system is refused; and what is kept of
//! readers and writers that are looked at.
#![tactic(auto)]

#[cfg(test)]
mod folder;
#[cfg(test)]
mod in_use;
#[cfg(test)]
mod links;
#[cfg(test)]
mod noticed;
#[cfg(test)]
mod place;
#[cfg(test)]
mod places;
#[cfg(test)]
mod refusals;
#[cfg(test)]
mod writes;
