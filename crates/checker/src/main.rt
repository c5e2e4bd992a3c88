// Says whether a list from elsewhere agrees with a script: prints `yes` or `no`; or `ee`, the number and the line of a refusal. Its first
// argument names the script, its second the list.
#![tactic(auto)]

use programs::checking::respond_checking;
use std::io;

fn main(rt: HostRuntime) -> io::Result<()> {
    respond_checking(&rt)
}
