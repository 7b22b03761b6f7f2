// Examples of steps, tried by running them. What is promised for every input stands in the contracts of the crates
// tried here; these are worked cases with answers known beforehand.
#![tactic(auto)]

#[cfg(test)]
mod programs;
#[cfg(test)]
mod registers;
#[cfg(test)]
mod routines;
#[cfg(test)]
mod stops;
