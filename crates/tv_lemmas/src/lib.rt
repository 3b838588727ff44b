//! Lemmas that several crates of proofs use and std doesn't have. Nothing runs here.
//!
//! - `specs/Members.antt`: what is in a list, and what is so of each that is
//! - `proofs/Cases.antt`: proofs by a test, or by which of two facts holds
//! - `proofs/Counts.antt`: how many of a list pass a test
//! - `proofs/Lists.antt`: lists, by their elements' numbers, and maps, filters and tests of all
//! - `proofs/OfMembers.antt`: members of joined, mapped and filtered lists
//! - `proofs/Numbers.antt`: sums, what is less, and digits
//! - `proofs/Options.antt`: whether an option or a result holds a value
//! - `proofs/Orderings.antt`: answers of comparisons
//! - `proofs/Tests.antt`: what one of two tests says, and tests that can't be
#![tactic(auto)]
