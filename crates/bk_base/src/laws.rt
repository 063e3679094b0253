//! Laws of the definitions, each the contract of a function that does nothing.

ghost use Rattle.bk_base.specs.Laws.{GenesisIsSpelled, GenesisIsRead};

/// A genesis payload and its rows are two forms of one thing.
pub fn genesis_grammar()
    ensures spelled { GenesisIsSpelled }
    ensures read { GenesisIsRead }
{}
