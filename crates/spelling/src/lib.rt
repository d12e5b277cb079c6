// The grammar of operands, as a definition beside the reader's: there is no code here.
#![tactic(auto)]
