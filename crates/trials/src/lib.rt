// Examples of the lower layers, tried by running them. What is promised for every input stands in the contracts of
// the crates tried here; these are worked cases with answers known beforehand.
#![tactic(auto)]

#[cfg(test)]
mod images;
#[cfg(test)]
mod memories;
