//! What the laws on runs ask of settings, and of how many restarts and operations a run has, holds of each script that `drill` reads: no
//! script is read that they don't speak of.
//!
//! Each law is a public function with an empty body; its contract is the statement, which stands in `specs`.

ghost use Rattle.law_scripts.specs.settings_fit.Fits.{DefaultsFit, ScriptsAreFew, ScriptsFit};

/// The settings of a script that is read fit: names and passwords are texts of at most 256 characters, ciphers and
/// signing algorithms are known
/// ones, the one user has the client's password, and the share's name is a text without `\`.
pub fn script_settings_law()
    ensures fit { ScriptsFit }
{}

/// So do those of a script that gives none.
pub fn default_settings_law()
    ensures fit { DefaultsFit }
{}

/// A script that is read has at most 4,194,304 lines, so its restarts and operations are few.
pub fn script_counts_law()
    ensures few { ScriptsAreFew }
{}
