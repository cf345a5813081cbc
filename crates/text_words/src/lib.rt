//! The words and lines that the texts of a stack and of a script have in common: names, numbers,
//! hex and paths, how a text is cut into lines of words, and how one is put together.
#![tactic(auto)]

mod lines;
mod numbers;
mod print;
mod words;

pub use lines::{Line, LineWhy, lines_and_text, read_words, split_line, words_of};
pub use numbers::{address, number};
pub use print::{
    put, put_hex, put_line, put_number, put_path, put_spaced, put_spaced_number, put_word,
};
pub use words::{hex_bytes, is_name, is_path_word, read_path, text_of_name};
