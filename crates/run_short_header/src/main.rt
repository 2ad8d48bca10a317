// The batch program on a file of six bytes: a header one byte short.
#![tactic(auto)]

fn main(rt: HostRuntime) {
    batchrun::run_file(&rt);
}
