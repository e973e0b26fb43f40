//! Worked rows, mostly with a budget of one conflict for the root: places of cubes, trees that are
//! gathered from results, and what hands do and bring home.
#![tactic(auto)]

#[cfg(test)]
mod alone;
#[cfg(test)]
mod checked;
#[cfg(test)]
mod compatible;
#[cfg(test)]
mod counted;
#[cfg(test)]
mod decided;
#[cfg(test)]
mod deep;
#[cfg(test)]
mod divided;
#[cfg(test)]
mod gates;
#[cfg(test)]
mod hands;
#[cfg(test)]
mod harvests;
#[cfg(test)]
mod places;
#[cfg(test)]
mod plans;
#[cfg(test)]
mod refuted;
#[cfg(test)]
mod results;
#[cfg(test)]
mod trees;
