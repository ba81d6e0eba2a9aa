// What the program answers: a library function from the bytes that came in to the bytes that go out.
#![tactic(auto)]

pub mod program;
