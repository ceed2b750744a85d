// What a request that is not refused does, by its class: what it reads of the dossier that it names, and what it leaves of it. By value: what it
// leaves goes out as a new value, and whoever calls stores it.
#![tactic(auto)]

pub mod classes;
pub mod requests;
