// The batch program on aircraft that cross north between turns, both ways.
#![tactic(auto)]

fn main(rt: HostRuntime) {
    batchrun::run_file(&rt);
}
