//! What `gen` writes is the script that it runs: each line that is made reads back as what it says, and the whole text as all of them in
//! their order, where it keeps within the limits of a script.
//!
//! Each law is a public function with an empty body; its contract is the statement, which stands in `specs`.

ghost use Rattle.law_scripts.specs.generated.ReadsBack.{LinesReadBack, MadeAreFew, ScriptsReadBack};

/// Line by line: of any line whose create is one, whatever stands in front of it.
pub fn lines_read_back_law()
    ensures reads { LinesReadBack }
{}

/// Of any seed and up to 1,048,576 operations.
pub fn gen_reads_back_law()
    ensures reads { ScriptsReadBack }
{}

/// How many lines a made script has.
pub fn made_lines_law()
    ensures few { MadeAreFew }
{}
