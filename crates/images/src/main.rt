// Load and save on images: those of the vectors, one at every bound, and one with a byte damaged.
#![tactic(auto)]

mod damage;
mod files;
mod saved;
mod show;
#[cfg(test)]
mod tests;
mod whole;

fn main(rt: HostRuntime) {
    whole::good(&rt);
    whole::bad(&rt, "bad", "bad.images");
    whole::bad(&rt, "over", "over.images");
    damage::full(&rt);
    damage::damaged(&rt);
}
