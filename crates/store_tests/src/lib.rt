//! Tests of the store of a run, and of the records in it. The worked signature and the worked record are read and written; bytes that
//! are none are refused. Another signature of one name and another output of one signature are refused. Of odd files, opening leaves as
//! many as it should, also where it is known ahead what they or other files say.
//!
//! What the contracts say is proved. The tests show that the calls succeed with ample memory, and what no case shows: the bytes of
//! records, which files opening takes away, two signatures of one name, and a row that is added again. What runs make of a store, found,
//! restored, damaged or broken off, is shown by cases. How many calls of the disk a publication makes where an earlier output is held is
//! counted; and two publications go by turns, with a crash behind each step (`by_turns`). A store of the first format is
//! moved, with a crash behind each call (`moved`). Two definitions are evaluated here on worked rows (`examples`).
#![tactic(auto)]

#[cfg(test)]
mod asked;
#[cfg(test)]
mod by_turns;
mod examples;
#[cfg(test)]
mod moved;
#[cfg(test)]
mod odd;
#[cfg(test)]
mod pieces;
#[cfg(test)]
mod rebuilt;
#[cfg(test)]
mod records;
#[cfg(test)]
mod refusals;
#[cfg(test)]
mod rows;
#[cfg(test)]
mod samples;
