// The batch program on a file of another version, whose low byte is right.
#![tactic(auto)]

fn main(rt: HostRuntime) {
    batchrun::run_file(&rt);
}
