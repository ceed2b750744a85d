// Document 01's thirteen examples, run: what the code answers, in the document's order and words.
#![tactic(auto)]

mod addresses;
mod calls;
mod clashes;
mod granted;
mod places;
mod room;
mod show;

fn main(rt: HostRuntime) {
    addresses::example1(&rt);
    addresses::example2(&rt);
    addresses::example3(&rt);
    clashes::example4(&rt);
    clashes::example5(&rt);
    granted::example6(&rt);
    granted::example7(&rt);
    places::example8(&rt);
    places::example9(&rt);
    granted::example10(&rt);
    room::example11(&rt);
    room::example12(&rt);
    places::example13(&rt);
}
