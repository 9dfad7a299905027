// A text to a sink.
ghost use Rattle.std.specs.Prelude.{◌≡◌, OnOk, OnErr};
ghost use Rattle.std.specs.Io.KnownBytes.{Appends};
ghost use Rattle.base_outside.specs.streams.Faults.{Rose};
ghost use Rattle.base_outside.specs.whole_texts.Outside.{AppendsFront};

use crate::streams::{Failed, Sink};

/// Writes all bytes of a text. A write that fails is not tried again: the sink's count of faults then
/// rose, and a front of the text was written.
pub fn write_all<O: Sink>(sink: &mut O, text: &[u8]) -> Result<(), Failed>
    ensures written { OnOk result (Appends (O.written sink.old) (O.written sink.new) text.now) }
    ensures calm { OnOk result (O.faults sink.new ≡ O.faults sink.old) }
    ensures front { OnErr result (AppendsFront (O.written sink.old) (O.written sink.new) text.now) }
    ensures failed { OnErr result (Rose (O.faults sink.old) (O.faults sink.new)) }
{
    let mut at = 0;
    while at < text.len() {
        at += sink.write(&text[at..])?;
    }
    Ok(())
}
