// How far a reading is.
ghost use Rattle.std.specs.Prelude.{◌≡◌, ◌*◌};
ghost use Rattle.records.specs.Diagnostics.{diagnostic_record};
ghost use Rattle.records.specs.Counters.{OneMore};
ghost use Rattle.records.specs.Stores.{written};

use crate::counters::Counters;
use crate::diagnostics::Diagnostic;
use crate::reports::push_diagnostic;

// The counters, and the store of the diagnostics that are told. The store of the nodes is lent beside it: a function that is not lent it
// writes no node. No invariant says that there is room: a caller may lend any counters, and `expression` answers none without room.
#[derive(Drop)]
pub struct Progress<'a> {
    pub diagnostics: &'a mut [u16],
    pub counters: Counters,
}

impl<'a> Progress<'a> {
    // Tells a diagnostic, behind those that count; nothing else moves.
    pub fn raise(&mut self, x: Diagnostic)
        ensures lent { self.new.diagnostics.ghost_name ≡ self.old.diagnostics.ghost_name }
        ensures told { self.new.diagnostics.now ≡ written self.old.diagnostics.now (10 * self.old.counters.diagnostics) (diagnostic_record x) }
        ensures counted { OneMore self.old.counters self.new.counters }
    {
        let d = self.counters.diagnostics;
        push_diagnostic(self.diagnostics, d, x);
        self.counters.diagnostics = d.saturating_add(1);
    }
}
