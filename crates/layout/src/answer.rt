// What a call answers.
ghost use Rattle.std.specs.Prelude.{◌≡◌};
ghost use Rattle.records.specs.Stores.{written};
ghost use Rattle.operand.specs.Layout.{head_laid};
ghost use Rattle.layout.specs.Cases;
ghost use Rattle.layout.specs.Head.{head_size};

use operand::{Layout, OperandRecord};
use records::write;

// The cases of an answer (docs/FORMAT.md).
#[derive(Clone, Copy, PartialEq, Eq, Debug)]
pub enum Case {
    Operand = 0,
    NoOperand,
    Refused,
}

// The number that an answer begins with.
impl From<Case> for u8 {
    ghost from_gives = { λ x n. n ≡ Cases.number x };

    fn from(x: Case) -> u8
        ensures { result ≡ Cases.number x }
    {
        x as u8
    }
}

// What a call reads: the operand, if there is one, with the cursor, the nodes used and the diagnostics added.
#[derive(Clone, Copy)]
pub struct Answer {
    pub operand: Option<OperandRecord>,
    pub cursor: usize,
    pub nodes: usize,
    pub diagnostics: usize,
}

// The bytes of an answer's beginning. A match: a const parameter would need the layout as a type, and it is a value of the call.
pub fn head_size(layout: Layout) -> usize
    ensures { result ≡ head_size layout }
{
    match layout {
        Layout::Narrow => 5,
        Layout::Wide => 7,
    }
}

// Writes an answer's beginning from a place of the store on, where all of it fits: the case's number, the cursor, the nodes used and the
// diagnostics added. Seven parameters, and no method of `Answer`: any numbers are written, and the terminal's are not its answer's, since it has 0
// for the nodes where there is no operand.
#[tactic(auto, unfolding(records::specs::Nodes::low_first, operand::specs::Layouts::number, operand::specs::Layout::head_laid))]
pub fn write_head(
    layout: Layout,
    case: u8,
    cursor: usize,
    nodes: usize,
    diagnostics: usize,
    store: &mut [u8],
    at: usize,
)
    ensures { store.new ≡ written store.old at (head_laid layout case cursor nodes diagnostics) }
{
    let cursor = cursor.to_le_bytes();
    let nodes = nodes.to_le_bytes();
    let diagnostics = diagnostics.to_le_bytes();
    match layout {
        Layout::Narrow => {
            let head = [case, cursor[0], nodes[0], diagnostics[0], diagnostics[1]];
            write(store, at, &head);
        }
        Layout::Wide => {
            let head = [
                case,
                cursor[0],
                cursor[1],
                nodes[0],
                nodes[1],
                diagnostics[0],
                diagnostics[1],
            ];
            write(store, at, &head);
        }
    }
}
