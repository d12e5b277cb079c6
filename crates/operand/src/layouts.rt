// The layouts of what is lent and answered (docs/FORMAT.md): in the wide one an offset, a node's number or a count has two bytes.
ghost use Rattle.std.specs.Prelude.{◌≡◌, ◌/◌};
ghost use Rattle.operand.specs.Layouts.{token_size, node_size, diagnostic_size, operand_size, longest_line, most_tokens, node_store, free_records};

#[derive(Clone, Copy)]
pub enum Layout {
    Narrow,
    Wide,
}

// The sizes are a match each: a const parameter would need the layout as a type, and it is a value of the call.
impl Layout {
    // How many tokens lie in so many bytes.
    pub fn token_count(self, bytes: usize) -> usize
        ensures { result ≡ bytes / token_size self }
    {
        bytes / self.token_size()
    }

    // How many diagnostic records lie in so many bytes.
    pub fn diagnostic_count(self, bytes: usize) -> usize
        ensures { result ≡ bytes / diagnostic_size self }
    {
        bytes / self.diagnostic_size()
    }

    // The bytes of a token.
    pub fn token_size(self) -> usize
        ensures { result ≡ token_size self }
    {
        match self {
            Layout::Narrow => 4,
            Layout::Wide => 6,
        }
    }

    // The bytes of a node record.
    pub fn node_size(self) -> usize
        ensures { result ≡ node_size self }
    {
        match self {
            Layout::Narrow => 14,
            Layout::Wide => 18,
        }
    }

    // The bytes of a diagnostic record.
    pub fn diagnostic_size(self) -> usize
        ensures { result ≡ diagnostic_size self }
    {
        match self {
            Layout::Narrow => 10,
            Layout::Wide => 16,
        }
    }

    // The bytes of the operand's record.
    pub fn operand_size(self) -> usize
        ensures { result ≡ operand_size self }
    {
        match self {
            Layout::Narrow => 20,
            Layout::Wide => 30,
        }
    }

    // The bytes of the longest line.
    #[tactic(auto, unfolding(crate::specs::Layouts::longest_line))]
    pub fn longest_line(self) -> usize
        ensures { result ≡ longest_line self }
    {
        match self {
            Layout::Narrow => 255,
            Layout::Wide => 4095,
        }
    }

    // The tokens of the longest list, and the records of a node store.
    #[tactic(auto, unfolding(crate::specs::Layouts::most_tokens))]
    pub fn most_tokens(self) -> usize
        ensures { result ≡ most_tokens self }
    {
        match self {
            Layout::Narrow => 255,
            Layout::Wide => 1023,
        }
    }

    // The bytes of a node store.
    pub fn node_store(self) -> usize
        ensures { result ≡ node_store self }
    {
        self.node_size() * self.most_tokens()
    }

    // The diagnostic records that must be free.
    #[tactic(auto, using(crate::specs::Layouts::most_tokens_lem, crate::specs::Layouts::free_records_lem))]
    pub fn free_records(self) -> usize
        ensures { result ≡ free_records self }
    {
        2 * self.most_tokens() + 1
    }
}
