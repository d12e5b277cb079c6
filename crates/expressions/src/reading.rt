// What never changes during a reading: the symbol mark, how many terms may be open in each other, and the offset where the operand's
// first token starts. The mark is a place, past the list for none, as C's interface has it.
#[derive(Clone, Copy)]
pub struct Setting {
    pub mark: u32,
    pub limit: u16,
    pub start: u16,
}
