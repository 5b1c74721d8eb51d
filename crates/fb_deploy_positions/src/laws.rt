//! Laws of the definitions that contracts cite. Their functions do nothing when they run: they are there for their
//! contracts.

ghost use Rattle.fb_deploy_positions.specs.Laws.{DefinesDocuments, ElementsAreEnds, EntriesAreRead, EntriesHaveEnds, FollowsReader, ReadsElements, ReadsMembers, StatementsAreRead, StatementsHaveEnds};

/// Where the TOML reader reads a value, the text after the value is the one that the reader leaves.
pub fn follows_reader()
    ensures { FollowsReader }
{}

/// What the TOML reader reads in a document is what its statements define, one after the other.
pub fn defines_documents()
    ensures { DefinesDocuments }
{}

/// Statements, entries, their names, values and elements are ends of the text, so each begins at its offset.
pub fn begins_at_offsets()
    ensures statements { StatementsHaveEnds }
    ensures elements { ElementsAreEnds }
    ensures entries { EntriesHaveEnds }
{}

/// What the TOML reader reads in an array or an inline table is what it reads where the parts of the value begin.
pub fn reads_parts()
    ensures elements { ReadsElements }
    ensures members { ReadsMembers }
{}

/// The key of a statement and of an entry is the one that the TOML reader reads at its name.
pub fn reads_keys()
    ensures statements { StatementsAreRead }
    ensures entries { EntriesAreRead }
{}
