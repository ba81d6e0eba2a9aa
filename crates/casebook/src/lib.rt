// What the programs that run worked cases share: how a case is given, and how an outcome is printed.
//
// A case is decimal numbers, with comments from `#` to the end of the line. A row of bytes is the number of its runs and then,
// for each, how many, the first byte and the step by which they rise; a table is k, s, sigma and its row of places; a roll is a
// table, n and h. Rows of bytes are printed as runs of equal ones, and long rows of numbers as runs that rise by a step.
#![tactic(auto)]

pub mod given;
pub mod printed;
pub mod rooms;
