// 01's program: the outputs of a file of samples.
#![tactic(auto)]

use answer::judge::Lines;

fn main(rt: HostRuntime) {
    files::run(&rt, Lines::Samples, b"usage: oven SETTINGS SAMPLES\n");
}
