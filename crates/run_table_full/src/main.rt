// The batch program on more reports than slots, and slots freed and taken again in one call.
#![tactic(auto)]

fn main(rt: HostRuntime) {
    batchrun::run_file(&rt);
}
