//! What a ranker is told before a question.
ghost use Rattle.std.specs.Prelude.{◌≡◌, ◌<◌, ◌≤◌, ◌&&◌, ◌||◌, ◌==◌, ◌^◌, ℕ, not, false, All, IfOk, filter, length, map, replicate, slice_index};
ghost use Rattle.std.specs.List.{range_with_len, slice_index_or};
ghost use Rattle.epochs.specs.Course.{is_marked};
ghost use Rattle.rankers.specs.ByKey.{by_key, key_in};
ghost use Rattle.rankers.specs.Meaning.{after_note, after_notes};
ghost use Rattle.replays.specs.Kept.{HasMarks, is_untold};

use crate::progress::Progress;
use coflow_units::NoMemory;
use rankers::{Ranker, fill_by_key};
use std::alloc::Global;

/// Which coflows joined, which of them are present, and of which the ranker was told the end.
#[derive(Drop)]
pub(crate) struct Marks {
    pub(crate) joined: Vec<bool>,
    pub(crate) present: Vec<bool>,
    pub(crate) told: Vec<bool>,
}

impl Marks {
    /// Nobody of so many coflows joined. The error is want of memory.
    pub(crate) fn none(alloc: Global, coflows: u32) -> Result<Marks, NoMemory>
        ensures joined { IfOk result (λ marks. marks.joined.items ≡ replicate coflows false) }
        ensures present { IfOk result (λ marks. marks.present.items ≡ replicate coflows false) }
        ensures told { IfOk result (λ marks. marks.told.items ≡ replicate coflows false) }
    {
        let joined = vec![in alloc; false; coflows as usize]?;
        let present = vec![in alloc; false; coflows as usize]?;
        let told = vec![in alloc; false; coflows as usize]?;
        Ok(Marks {
            joined,
            present,
            told,
        })
    }
}

/// Tells the ranker the ends of the coflows that joined, owe nothing and were not told, by their ends and then by
/// number. `order` has one place for each coflow, and is free afterwards.
pub(crate) fn tell_news(
    progress: &Progress,
    marks: &mut Marks,
    order: &mut [u32],
    ranker: &mut Box<dyn Ranker>,
)
    requires marks { HasMarks (length order.old) marks.old progress.now }
    requires few { length order.old ≤ 2 ^ 32 }
    ensures told { meaning ranker.new ≡ after_notes (meaning ranker.old) (key_in progress.now.ends.items)
        (filter (is_untold marks.old progress.now) (by_key (key_in progress.now.ends.items) (length order.old))) }
    ensures marks { marks.new.told.items ≡ map (λ c. is_marked marks.old.told.items c
        || is_untold marks.old progress.now c) (range_with_len 0 (length order.old)) }
    ensures joined { marks.new.joined ≡ marks.old.joined }
    ensures present { marks.new.present ≡ marks.old.present }
{
    fill_by_key(&progress.ends, order);
    tell_each(progress, marks, order, ranker);
    mark_told(progress, marks);
}

/// Tells the ranker the ends of those of these coflows that are news, in this order.
fn tell_each(progress: &Progress, marks: &Marks, order: &[u32], ranker: &mut Box<dyn Ranker>)
    requires marks { HasMarks (length order.now) marks.now progress.now }
    requires known { All (λ c. c < length order.now) order.now }
    ensures { meaning ranker.new ≡ after_notes (meaning ranker.old) (key_in progress.now.ends.items)
        (filter (is_untold marks.now progress.now) order.now) }
{
    for coflow in order {
        if is_untold(progress, marks, *coflow as usize) {
            note(ranker, *coflow, progress.ends[*coflow as usize]);
        }
    }
}

/// Marks the coflows that are news as told.
fn mark_told(progress: &Progress, marks: &mut Marks)
    requires each { HasMarks (length marks.old.told.items) marks.old progress.now }
    ensures marks { marks.new.told.items ≡ map (λ c. is_marked marks.old.told.items c
        || is_untold marks.old progress.now c) (range_with_len 0 (length marks.old.told.items)) }
    ensures joined { marks.new.joined ≡ marks.old.joined }
    ensures present { marks.new.present ≡ marks.old.present }
{
    for coflow in 0..marks.told.len() {
        if is_untold(progress, marks, coflow) {
            marks.told[coflow] = true;
        }
    }
}

/// The coflow joined, owes nothing, and was not told.
fn is_untold(progress: &Progress, marks: &Marks, coflow: usize) -> bool
    requires marks { HasMarks (length marks.now.told.items) marks.now progress.now }
    requires known { coflow < length marks.now.told.items }
    ensures { result ≡ is_untold marks.now progress.now coflow }
{
    marks.joined[coflow] && progress.owed[coflow] == 0 && !marks.told[coflow]
}

/// Tells the ranker the end of a coflow.
fn note(ranker: &mut Box<dyn Ranker>, coflow: u32, slot: u64)
    ensures { meaning ranker.new ≡ after_note (meaning ranker.old) coflow slot }
{
    ranker.note(coflow, slot);
}
