// The batch program on the demo: a ridge, and a glider that crosses close by.
#![tactic(auto)]

fn main(rt: HostRuntime) {
    batchrun::run_file(&rt);
}
