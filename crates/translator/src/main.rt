// Reads a script from standard input, or from the file that its first argument names, and prints its list; or `ee`, the number and the line
// of a refusal.
#![tactic(auto)]

use programs::{Program, respond};
use std::io;

fn main(rt: HostRuntime) -> io::Result<()> {
    respond(&rt, Program::Translator)
}
