// The texts of values, rows and tables: the format as a language, its readers as definitions, and what they promise.
// Definitions and proofs alone; the crates that read and write bytes are held to them.
#![tactic(auto)]

ghost use Rattle.texts.specs.Promise.{TablesExact, AtomsExact};
ghost use Rattle.texts.specs.Layers.{TablesByLayer, AtomsByLayer};
ghost use Rattle.texts.specs.Roundtrip.{TablesReadBack, AtomsReadBack, OneText};

// The promise of the format: which texts are accepted, where and by which layer any other is refused,
// and that what is written reads back.
pub fn texts_stand()
    ensures tables { TablesExact }
    ensures atoms { AtomsExact }
    ensures table_layers { TablesByLayer }
    ensures atom_layers { AtomsByLayer }
    ensures tables_back { TablesReadBack }
    ensures atoms_back { AtomsReadBack }
    ensures one_text { OneText }
{}
