//! The laws of the grammar: the machine that the reader follows takes exactly the libraries, and
//! refuses at the first record that makes the list no longer viable.

ghost use Rattle.gds_grammar.specs.Laws.{MachineIsGrammar, RefusedAtTheFirst};
ghost use Rattle.gds_grammar.specs.Outcomes.{SpellsOnce};

/// The machine takes exactly the libraries, with the contents that the grammar gives them. So a
/// list of records has one reading.
pub fn machine_is_grammar()
    ensures { MachineIsGrammar }
{}

/// What the machine has taken is viable: some records after it make it a library. What it refuses
/// is not, and the refusal says which rule is broken, the first in the order of `Refusal`.
pub fn refused_at_the_first()
    ensures { RefusedAtTheFirst }
{}

/// Bytes are one library at most: two readings of them agree, however many bytes follow ENDLIB.
pub fn spells_once()
    ensures { SpellsOnce }
{}
