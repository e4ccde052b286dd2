// Document 01, the calls that look for a key and only read: search, the second search call.
#![tactic(auto)]

pub mod bursts; // bursts.rt: many keys at once
pub mod counters; // counters.rt: what the counters of a key say
pub mod fetching; // fetching.rt: the record itself
pub mod judging; // judging.rt: refusals 1, 2 and 3
pub mod locating; // locating.rt: where the record lies
pub mod numbers; // numbers.rt: the driver's number of a search
pub mod places; // places.rt: where a search looks
pub mod scanning; // scanning.rt: the key among records
pub mod searching; // searching.rt: the answer with its counts
