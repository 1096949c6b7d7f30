// The grammar of scripts: the tree of a text, and the relation between tokens and trees. Definitions and proofs; the parser is a crate of its own.
// specs/Grammar.antt is the EBNF, production by production; specs/Promise.antt says what a fault is and where it stands.
#![tactic(auto)]

ghost use Rattle.grammar.specs.Promise.{Decided, OneTree, OneFault, NeverBoth};
ghost use Rattle.grammar.specs.Reading.{ReadersExact};

// The grammar's promise: every list of tokens is a program with one tree, or has one fault at one place, and never both.
// The executable readers find that tree or that fault.
pub fn grammar_stands()
    ensures decided { Decided }
    ensures one_tree { OneTree }
    ensures one_fault { OneFault }
    ensures never_both { NeverBoth }
    ensures readers { ReadersExact }
{}
