//! Writing a whole text.
ghost use Rattle.std.specs.Prelude.{◌≡◌, ◌≤◌, OnErr, OnOk};
ghost use Rattle.outside.specs.Rose.{Rose, RoseOnce};
ghost use Rattle.outside.specs.Sink.{TakesText};

use crate::sink::{Failed, Sink};

/// Writes all of a text. It takes no memory.
///
/// `Failed` comes only where the sink's count of faults rose. A beginning of the text was then taken. The first failure
/// of the sink is the last call: it raises the count by one, up to 2^64 - 1, and a text that is taken whole leaves it
/// as it was.
pub fn write_all<K: Sink>(sink: &mut K, text: &[u8]) -> Result<(), Failed>
    ensures later { K.faults sink.old ≤ K.faults sink.new }
    ensures cause { OnErr result (Rose (K.faults sink.old) (K.faults sink.new)) }
    ensures once { OnErr result (RoseOnce (K.faults sink.old) (K.faults sink.new)) }
    ensures still { OnOk result (K.faults sink.new ≡ K.faults sink.old) }
    ensures taken { TakesText (K.taken sink.old) (K.taken sink.new) text.now result }
{
    let mut written = 0;
    while written < text.len() {
        written += sink.write(&text[written..])?;
    }
    Ok(())
}
