// Tests of adopt that run: halls of one level, damaged lists held to a fresh seal, and lists that mark many cells.

#![tactic(auto)]

#[cfg(test)]
mod adopted;
#[cfg(test)]
mod damage;
#[cfg(test)]
mod dense;
#[cfg(test)]
mod small;
