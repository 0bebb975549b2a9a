//! Texts are written to a sink.
ghost use Rattle.std.specs.Prelude.{◌≡◌, ◌≤◌, IfOk, OnErr, OnOk, Some};
ghost use Rattle.outside.specs.Rose.{Rose, RoseOnce};
ghost use Rattle.outside.specs.Sink.{TakesText};
ghost use Rattle.report_text.specs.Text.{ending};

use crate::piece::Piece;
use crate::text::Text;
use coflow_units::NoMemory;
use outside::{Failed, Sink, write_all};
use run_list::{Runs, Walk};
use std::alloc::Global;
use std::marker::Model;

/// What writes a text to a sink, in pieces of bounded size.
#[derive(Drop)]
pub struct TextWriter<'a> {
    head: &'a [u8],
    lines: Option<RunLines<'a>>,
}

impl<'a> Model for TextWriter<'a> {
    ghost use Rattle.std.specs.Prelude.{◌++◌, List, ℕ};
    ghost use Rattle.report_text.specs.Text.{ending};

    ghost Value = { List ℕ };

    ghost view = { λ s. s.head.now ++ ending s.lines };
}

/// The lines of a schedule that are to be written.
#[derive(Drop)]
struct RunLines<'a> {
    walk: Walk<'a>,
    count: usize,
    piece: Piece,
}

impl<'a> Model for RunLines<'a> {
    ghost use Rattle.std.specs.Prelude.{◌≡◌, List, [], length};
    ghost use Rattle.coflow_units.specs.declared.plan.Run.{Run};

    ghost Value = { List Run };

    ghost view = { λ s. s.walk.runs };

    ghost invariant = { λ s. (s.walk.entered ≡ 0) × (s.count ≡ length s.walk.runs) × (s.piece ≡ []) };
}

impl Text {
    /// A writer of the text. It takes memory for a piece, and four times for the most flows of a run. The error is want
    /// of memory.
    pub fn writer(&self, alloc: Global) -> Result<TextWriter<'_>, NoMemory>
        ensures { IfOk result (λ writer. writer ≡ self.now) }
    {
        let lines = match &self.runs {
            Some(runs) => Some(RunLines::new(alloc, runs)?),
            None => None,
        };
        Ok(TextWriter {
            head: self.head.as_slice(),
            lines,
        })
    }
}

impl<'a> TextWriter<'a> {
    /// Writes all of the text, piece by piece. It takes no memory.
    ///
    /// `Failed` comes only where the sink's count of faults rose. A beginning of the text was then taken. The first
    /// failure of the sink is the last call: it raises the count by one, up to 2^64 - 1, and a text that is taken whole
    /// leaves it as it was.
    pub fn write_to<K: Sink>(self, sink: &mut K) -> Result<(), Failed>
        ensures later { K.faults sink.old ≤ K.faults sink.new }
        ensures cause { OnErr result (Rose (K.faults sink.old) (K.faults sink.new)) }
        ensures once { OnErr result (RoseOnce (K.faults sink.old) (K.faults sink.new)) }
        ensures still { OnOk result (K.faults sink.new ≡ K.faults sink.old) }
        ensures taken { TakesText (K.taken sink.old) (K.taken sink.new) self.entry result }
    {
        let TextWriter { head, lines } = self;
        write_all(sink, head)?;
        match lines {
            Some(lines) => lines.write_to(sink),
            None => Ok(()),
        }
    }
}

impl<'a> RunLines<'a> {
    /// The lines of the runs, and the last line. The error is want of memory.
    fn new(alloc: Global, runs: &'a Runs) -> Result<RunLines<'a>, NoMemory>
        ensures { IfOk result (λ lines. lines ≡ runs.now) }
    {
        let walk = runs.walk(alloc)?;
        let piece = Piece::new(alloc)?;
        Ok(RunLines {
            walk,
            count: runs.count(),
            piece,
        })
    }

    /// Writes all of the lines.
    fn write_to<K: Sink>(self, sink: &mut K) -> Result<(), Failed>
        ensures later { K.faults sink.old ≤ K.faults sink.new }
        ensures once { OnErr result (RoseOnce (K.faults sink.old) (K.faults sink.new)) }
        ensures still { OnOk result (K.faults sink.new ≡ K.faults sink.old) }
        ensures taken { TakesText (K.taken sink.old) (K.taken sink.new) (ending (Some self.entry)) result }
    {
        let RunLines {
            mut walk,
            count,
            mut piece,
        } = self;
        for _ in 0..count {
            let slots = walk.enter();
            piece.put_run(sink, slots, walk.flows())?;
        }
        piece.put(sink, b"end\n")?;
        piece.flush(sink)
    }
}
