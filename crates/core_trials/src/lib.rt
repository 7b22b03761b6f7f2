// Examples of the core's calls, tried by running them. What is promised for every input stands in the contracts of the
// crates tried here; these are worked cases with answers known beforehand.
#![tactic(auto)]

#[cfg(test)]
mod calls;
#[cfg(test)]
mod lists;
#[cfg(test)]
mod refusals;
#[cfg(test)]
mod shown;
