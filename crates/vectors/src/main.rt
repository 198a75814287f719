// Runs the stored set that it reads on standard input, and prints what `stored_set` counts and judges.
#![tactic(auto)]

use std::io;

fn main(rt: HostRuntime) -> io::Result<()> {
    // Room for the longest set and one byte more, so that a set that is too long is seen to be.
    let mut set = whole_input::room::<524289>();
    let size = whole_input::read_full(&mut rt.stdin(), &mut set)?;
    if size > 524288 {
        return println!(rt; "THE SET IS TOO LONG: more than 524288 bytes");
    }
    let tally = stored_set::run(&set[..size]);
    let cases = tally.cases;
    let same = tally.same;
    let verdict = stored_set::judge(tally);
    println!(rt; "{cases} cases ran, {same} as the second implementation says{verdict}")
}
