// Bytes, numbers in decimal and bytes in hexadecimal, put into a lent array.
#![tactic(auto)]

pub mod decimal;
pub mod hexadecimal;
pub mod plain;
