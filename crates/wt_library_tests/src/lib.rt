//! Tests of public calls that no command makes, each once with ample memory, and of one that holds little: what no
//! contract says of them.
#![tactic(auto)]

#[cfg(test)]
mod datamw;
#[cfg(test)]
mod expanded;
#[cfg(test)]
mod reader;
#[cfg(test)]
mod tree;
