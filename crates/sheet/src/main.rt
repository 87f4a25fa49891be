// The sheet program: the listing of the sheet on standard input.
#![tactic(auto)]

const STDOUT: i32 = 1;

fn main(rt: HostRuntime) {
    let listed = printing::list(&mut rt.stdin(), STDOUT);
    let printed = listed.printed;
    if printed.whole {
        printing::close(&rt, "/dev/stdout");
    }
}
