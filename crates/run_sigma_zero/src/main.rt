// The batch program on a sigma of 0: refused at the first whole batch, an empty one.
#![tactic(auto)]

fn main(rt: HostRuntime) {
    batchrun::run_file(&rt);
}
