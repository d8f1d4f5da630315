//! `pts`: asks the protection database of a cell, and changes it. It joins the words, the environment, the file of the cell,
//! the standard streams and a link over TCP to what `client_shell` makes of them.
#![tactic(auto)]

use afs_words::Tool;
use client_shell::main_of;
use std::env;
use std::process::ExitCode;

fn main(rt: HostRuntime) -> ExitCode {
    ExitCode::from(main_of(&rt, Tool::Pts, env::args(&rt)))
}
