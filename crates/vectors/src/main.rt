// Runs the papers' examples over the leaves, and filters through Init and a call, and prints what they answer. The file stdout beside src/ is
// what they must answer.
#![tactic(auto)]

mod configurations;
mod filters;
mod frames;
mod out;
mod pools;

fn main(rt: HostRuntime) {
    frames::lengths(&rt);
    frames::identifiers(&rt);
    configurations::header(&rt);
    configurations::records(&rt);
    configurations::sizes(&rt);
    filters::stray_bits(&rt);
    pools::pools(&rt);
}
