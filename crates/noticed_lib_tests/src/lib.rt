//! Tests of runs over what `noticed_lib` makes public. They are in a crate of their own, so that
//! they are proved beside the wrong edits of `noticed_lib`, and without its proofs.
#![tactic(auto)]

#[cfg(test)]
mod assert_same;
#[cfg(test)]
mod batch;
#[cfg(test)]
mod embedding;
#[cfg(test)]
mod in_turn;
