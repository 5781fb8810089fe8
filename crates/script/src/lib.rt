// Scripts of calls: their lines, the words of a line, what a line asks for, and the text of a sheet.
#![tactic(auto)]

pub mod command;
pub mod decimal;
pub mod digits;
pub mod hexadecimal;
pub mod name;
pub mod sheet;
pub mod words;
