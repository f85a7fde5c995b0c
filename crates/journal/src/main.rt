// Every command, and not samples alone: a journal line for each delivery of a file.
#![tactic(auto)]

use answer::judge::Lines;

fn main(rt: HostRuntime) {
    files::run(
        &rt,
        Lines::Deliveries,
        b"usage: journal SETTINGS DELIVERIES\n",
    );
}
