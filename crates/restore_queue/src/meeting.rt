//! What an entry that ends is to those that wait for it.
ghost use Rattle.std.specs.Prelude.{◌≡◌, ◌<◌, ◌≤◌, ◌*◌, ◌/◌, ℕ, length, true};
ghost use Rattle.std.specs.Global.{Vec as TheVec};
ghost use Rattle.std.specs.List.{slice_get};
ghost use Rattle.restore_plan.specs.Entries.{is_among};
ghost use Rattle.restore_queue.specs.Indexed.{AllMet, AllNearly, AllPartly, AreMarked, IsMet, block};
ghost use Rattle.restore_queue.specs.Queues.{AreBehind};

use crate::waiting::{BLOCK, advance};
use restore_core::Phase;

// Marks a block, where that is so.
fn mark_if(marks: &mut [bool], at: usize, is_so: bool)
    requires { at < length marks.old }
    ensures kept { (k : ℕ) → slice_get marks.old k ≡ Some true → slice_get marks.new k ≡ Some true }
    ensures marked { is_so ≡ true → slice_get marks.new at ≡ Some true }
{
    if is_so {
        marks[at] = true;
    }
}

// Goes on with the entry in this place.
fn meet(phases: &[Phase], waits: &[Vec<usize>], met: &mut [usize], marks: &mut [bool], i: usize)
    requires many_waits { length waits.now ≡ length phases.now }
    requires many_met { length met.old ≡ length phases.now }
    requires many_marks { length phases.now ≤ length marks.old * block }
    requires partly { AllPartly phases.now waits.now met.old }
    requires marked { AreMarked phases.now waits.now met.old marks.old }
    ensures here { (v : TheVec ℕ) (m : ℕ) → slice_get waits.now i ≡ Some v → slice_get met.new i ≡ Some m → IsMet phases.now v.items m }
    ensures others { (k : ℕ) → (k ≡ i → ⊥) → slice_get met.new k ≡ slice_get met.old k }
    ensures marked { AreMarked phases.now waits.now met.new marks.new }
{
    if i < phases.len() {
        let m = advance(phases, &waits[i], met[i]);
        met[i] = m;
        mark_if(marks, i / BLOCK, m == waits[i].len());
    }
}

/// Goes on with the entries in these places, behind one that has ended.
pub fn meet_all(
    phases: &[Phase],
    waits: &[Vec<usize>],
    behind: &[usize],
    met: &mut [usize],
    marks: &mut [bool],
    ended: usize,
)
    requires many_waits { length waits.now ≡ length phases.now }
    requires many_met { length met.old ≡ length phases.now }
    requires many_marks { length phases.now ≤ length marks.old * block }
    requires nearly { AllNearly phases.now waits.now met.old ended }
    requires behind { (i : ℕ) (v : TheVec ℕ) → slice_get waits.now i ≡ Some v → is_among ended v.items ≡ true → is_among i behind.now ≡ true }
    requires marked { AreMarked phases.now waits.now met.old marks.old }
    ensures met { AllMet phases.now waits.now met.new }
    ensures marked { AreMarked phases.now waits.now met.new marks.new }
{
    for i in behind {
        meet(phases, waits, met, marks, *i);
    }
}

/// Goes on with the entries that wait for one that has ended.
pub(crate) fn meet_behind(
    phases: &[Phase],
    waits: &[Vec<usize>],
    behind: &[Vec<usize>],
    met: &mut Vec<usize>,
    marks: &mut Vec<bool>,
    ended: usize,
)
    requires many_waits { length waits.now ≡ length phases.now }
    requires many_met { length met.old.items ≡ length phases.now }
    requires many_marks { length phases.now ≤ length marks.old.items * block }
    requires nearly { AllNearly phases.now waits.now met.old.items ended }
    requires behind { AreBehind waits.now behind.now }
    requires there { ended < length behind.now }
    requires marked { AreMarked phases.now waits.now met.old.items marks.old.items }
    ensures met { AllMet phases.now waits.now met.new.items }
    ensures marked { AreMarked phases.now waits.now met.new.items marks.new.items }
    ensures len_met { length met.new.items ≡ length met.old.items }
    ensures len_marks { length marks.new.items ≡ length marks.old.items }
{
    meet_all(phases, waits, behind[ended].as_slice(), met, marks, ended);
}
