// The counters of a reading.
ghost use Rattle.records.specs.Counters.{Over};

use names::Token;

// The most tokens of a list in any layout.
pub const MOST_TOKENS: usize = 1023;

// The most that a counter holds.
pub const MOST_COUNTED: usize = 65535;

// What is read so far: the cursor, the end of the last token, and how many records the stores hold. One machine word; where it is lent, a
// number of it is read by itself (docs/SPEED.md).
#[derive(Clone, Copy, Default)]
pub struct Counters {
    pub at: u16,
    pub end: u16,
    pub nodes: u16,
    pub diagnostics: u16,
}

impl Counters {
    // Behind a token that stands at the cursor. The last place of all has none behind it.
    pub fn step_over(&mut self, token: Token)
        ensures { Over self.old token self.new }
    {
        self.at = self.at.saturating_add(1);
        self.end = token.end;
    }
}
