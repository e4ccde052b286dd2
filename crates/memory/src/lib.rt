// What every other crate does with lent memory: numbers and records in bytes, a part judged, a choice with no branch; and what a call is refused for.
#![tactic(auto)]

pub mod numbers; // numbers.rt: numbers of two, four and eight bytes
pub mod parts; // parts.rt: a part copied, a part judged
pub mod picks; // picks.rt: one of two values, with no branch
pub mod refusals; // refusals.rt: what a call is refused for, and its number
pub mod records; // records.rt: a record in bytes, and the part of record i
