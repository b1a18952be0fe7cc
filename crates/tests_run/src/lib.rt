//! Tests of the top call and of its lines, of what no row of the program `rows` can show: calls of the source and the sink
//! that fail, pieces of every size, the limit of a document, the caller's list of theorems, and lines of what no document
//! can say yet.
#![tactic(auto)]

#[cfg(test)]
mod lines;
#[cfg(test)]
mod runs;
