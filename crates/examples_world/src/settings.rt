//! That the settings of which the laws on runs without tampering speak can be met: those of a worked logon do.

ghost use Rattle.law_ties.specs.wire_facts.Fitting.{IsFitting};
ghost use Rattle.examples_world.specs.settings.Logon.{logon_settings};

/// One user with a password, who connects to a share by a client that offers four ciphers and both signing algorithms.
pub fn settings_fit_example()
    ensures fit { IsFitting logon_settings }
{}
