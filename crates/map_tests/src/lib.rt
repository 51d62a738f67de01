// Tests that run: edges of the calls, maps held to a plain full grid, and a search over entries of a type of its own.

#![tactic(auto)]

#[cfg(test)]
mod edges;
#[cfg(test)]
mod entries;
#[cfg(test)]
mod grid;
#[cfg(test)]
mod written;
