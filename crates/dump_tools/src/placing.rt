//! A text that is put where it is asked for.
ghost use Rattle.std.specs.Prelude.{◌≡◌, ℕ, List, Option, None, Ok, IfOk, IfErr, OnOk, OnErr};
ghost use Rattle.tool_words.specs.declared.words.Teller.{Teller};
ghost use Rattle.dump_outputs.specs.Forms.{one_piece};
ghost use Rattle.dump_tools.specs.Due.{Puts, IsFinal, IsCarriedOut, counts, CountsStep};
ghost use Rattle.dump_tools.specs.Outputs.{world};
ghost use Rattle.dump_tools.specs.Runs.{IsEarly, HasCut};

use copy_text::Text;
use dump_outputs::put_whole;
use dump_plans::stop_outcome;
use dump_ports::{Files, Sink};
use tool_words::Outcome;

/// Puts a text where it is asked for, as all that is to be done.
pub(crate) fn put_text<F: Files, O: Sink>(
    files: &mut F,
    out: &mut O,
    target: &Option<Text>,
    text: &[u8],
) -> Result<Outcome, Outcome>
    ensures answers { IfOk result (λ answer. answer ≡ Outcome.Done) }
    ensures ends { IfOk result IsFinal }
    ensures early { IfErr result IsEarly }
    ensures ok { OnOk result ((told : Option (List ℕ)) → IsCarriedOut (Puts (one_piece target.now text.now None)) (F.tree files.old) (F.tree files.new) (O.written out.old) (O.written out.new) told told) }
    ensures cut { OnErr result ((teller : Teller) (left told : Option (List ℕ)) → HasCut None teller (Ok (Puts (one_piece target.now text.now None))) (world (F.tree files.old) left (O.written out.old) told) (world (F.tree files.new) left (O.written out.new) told)) }
    ensures counted { (inputs lines : ℕ) → CountsStep result (counts (F.read_faults files.old) inputs (F.write_faults files.old) (O.faults out.old) lines) (counts (F.read_faults files.new) inputs (F.write_faults files.new) (O.faults out.new) lines) }
{
    match put_whole(files, out, target, text) {
        Ok(()) => Ok(Outcome::Done),
        Err(stop) => Err(stop_outcome(stop)),
    }
}
