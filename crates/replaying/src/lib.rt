// What the programs that replay recorded answers share. A program reads all of its input, cuts it into lines, has each read
// as a case, calls the function of that name on the arguments, and counts whether the answers are those recorded.
//
// A case is a line: `name arguments = answers`, one blank between. A number has at most 16 lower-case hex digits. Bytes are
// one word, x and two digits a byte. A list is its length and then its members. A line that starts with # is no case.
#![tactic(auto)]

pub mod answers;
pub mod cases;
pub mod input;
pub mod lists;
pub mod parts;
pub mod report;
pub mod run;
pub mod text;
