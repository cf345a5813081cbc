//! The files of cases that the program's words name.

use std::process::ExitCode;
use std::rt::{Env, Files};
use std::{env, fs, io};

/// A file of cases.
#[derive(Drop)]
pub struct CaseFile {
    /// Its name, as the program's word has it.
    pub name: String,
    /// What stands in it.
    pub text: String,
}

/// The files that the program's words name, in their order.
pub fn read_files<R: Env + Files + AllocGlobal>(rt: &R) -> io::Result<Vec<CaseFile>> {
    let mut files = Vec::new(rt.alloc());
    for name in env::args(rt)?.skip(1) {
        let text = fs::read_to_string(rt, name.as_str())?;
        files.push(CaseFile { name, text })?;
    }
    Ok(files)
}

/// What the program answers: 0 if all answers were as wanted.
pub fn exit_code(is_good: bool) -> ExitCode {
    ExitCode::from(if is_good { 0 } else { 1 })
}
