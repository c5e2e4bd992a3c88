// Reads a list from standard input, or from the file that its first argument names, runs it, and prints what its loads show; or `ee`, the
// number and the line of a refusal. With a second argument it runs the list beside the recording which that names.
#![tactic(auto)]

use input::has_argument;
use programs::beside::respond_beside;
use programs::{Program, respond};
use std::io;

fn main(rt: HostRuntime) -> io::Result<()> {
    if !has_argument(&rt, 2) {
        return respond(&rt, Program::Runner);
    }
    respond_beside(&rt)
}
