// The reader of one operand: every addressing mode. What a function asks of the room (`Room`, `NodeRoom`) is used up by it: behind a diagnostic
// there is room for one less, behind a term for one node less. So it is a clause and no invariant of what is lent. Its parts, in reading order:
#![tactic(auto)]

// what the forms share
mod expressed;
mod lookahead;
mod malformed;
mod steps;

// sizes, scales and index registers; displacements
mod indexes;
mod memory_displacements;
mod suffixes;

// immediates and register lists
mod immediates;
mod lists;

// bases and indexes between parentheses
mod bases;
mod full;

// memory indirect
mod memory;
mod memory_inner;
mod memory_outer;

// expressions and groups; the operand, by how it begins
mod absolutes;
mod operands;
mod parentheses;

// the public function
mod reading;

pub use reading::operand_at;
