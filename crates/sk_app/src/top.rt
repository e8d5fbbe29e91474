// The top call.
ghost use Rattle.std.specs.Prelude.{◌≡◌, true, false, Ok};
ghost use Rattle.sk_files.specs.Files.{OnTold};
ghost use Rattle.sk_files.specs.Outcome.{Rose};
ghost use Rattle.sk_app.specs.declared.status.End.{End as HowEnded};
ghost use Rattle.sk_app.specs.declared.status.Status.TheVariants.{Words as BadWords, Model as BadModel, Absent as NoFile, Group as NoGroup};
ghost use Rattle.sk_app.specs.Answer.{Opened, answer_on};
ghost use Rattle.sk_app.specs.Ends.{Completes, Does, Refuses, RunsTo, code_of, opened_in, run_over};
ghost use Rattle.sk_app.specs.Headline.{Headline, is_reporting};
ghost use Rattle.sk_app.specs.Lent.{words_of};

use crate::NoMemory;
use crate::opening::prepare;
use crate::pieces::{finish, put_all, put_memory};
use crate::status::End;
use sk_count::Steps;
use sk_files::{Folder, OuterFault, Sink};
use sk_regen::{law_comes_out, law_model, law_read};
use std::alloc::Global;
use std::sync::ledger::Ledger;

// All inputs are read and all pieces made before the first put; the file is written after the last one.
fn ended<F: Folder, W: Sink, L: Ledger>(
    alloc: Global,
    words: &[&str],
    folder: &mut F,
    out: &mut W,
    steps: &mut Steps<L>,
) -> End
    ensures runs { RunsTo (words_of words.now) (run_over (W.taken out.old) (W.taken out.new) (F.files folder.old) (F.files folder.new) steps.old steps.new (F.faults folder.old) (F.faults folder.new) (W.faults out.old) (W.faults out.new)) result }
{
    match prepare(alloc, words, folder, steps) {
        Ok(prepared) => match put_all(out, &prepared.pieces) {
            Ok(()) => finish(alloc, folder, out, &prepared),
            Err(OuterFault::Failed) => End::SinkFailed,
            Err(OuterFault::NoMemory) => put_memory(out),
        },
        Err(NoMemory) => put_memory(out),
    }
}

/// The program on its words: what it reads from the folder, puts into the sink, writes into the folder, and answers as its status.
///
/// Commands, each also after the word `fine`, with which numbers are counts of 2^-44: `report MODEL` regenerates a model and puts
/// its report; `regen MODEL OUT` then writes its text to OUT; `dxf MODEL GROUP OUT` writes the drawing of a group there; `make N OUT`
/// makes a model of N lines, from 1 to 90, regenerates it, puts a line that tells how it came out, and writes its text.
///
/// Statuses: 0 done, and each listed group is certified; 10 done, and some group isn't; 1 the words are no command; 2 the model or a
/// linked part is refused; 3 it is absent; 4 the folder failed at a read; 5 the folder failed at the write; 6 the sink failed at a
/// put; 7 memory was wanted; 9 the model has no such group.
pub fn run<F: Folder, W: Sink, L: Ledger>(
    alloc: Global,
    words: &[&str],
    folder: &mut F,
    out: &mut W,
    steps: &mut Steps<L>,
) -> u8
    // The bytes taken, the files, the steps and the status are those of the answer to what the folder gave; or cut short by the
    // folder at the write, by the sink, or by want of memory.
    ensures ends { (end : HowEnded) × (result ≡ code_of end) × RunsTo (words_of words.now) (run_over (W.taken out.old) (W.taken out.new) (F.files folder.old) (F.files folder.new) steps.old steps.new (F.faults folder.old) (F.faults folder.new) (W.faults out.old) (W.faults out.new)) end }
    // Each status comes only where its clause says so.
    ensures done { result ≡ 0 → OnTold (F.files folder.old) (λ files. Does files (words_of words.now) true (run_over (W.taken out.old) (W.taken out.new) (F.files folder.old) (F.files folder.new) steps.old steps.new (F.faults folder.old) (F.faults folder.new) (W.faults out.old) (W.faults out.new))) }
    ensures not_all { result ≡ 10 → OnTold (F.files folder.old) (λ files. Does files (words_of words.now) false (run_over (W.taken out.old) (W.taken out.new) (F.files folder.old) (F.files folder.new) steps.old steps.new (F.faults folder.old) (F.faults folder.new) (W.faults out.old) (W.faults out.new))) }
    ensures words { result ≡ 1 → OnTold (F.files folder.old) (λ files. Refuses files (words_of words.now) BadWords) }
    ensures model { result ≡ 2 → OnTold (F.files folder.old) (λ files. Refuses files (words_of words.now) BadModel) }
    ensures absent { result ≡ 3 → OnTold (F.files folder.old) (λ files. Refuses files (words_of words.now) NoFile) }
    ensures unread { result ≡ 4 → Rose (F.faults folder.old) (F.faults folder.new) }
    ensures unwritten { result ≡ 5 → Rose (F.faults folder.old) (F.faults folder.new) }
    ensures cut { result ≡ 6 → Rose (W.faults out.old) (W.faults out.new) }
    ensures group { result ≡ 9 → OnTold (F.files folder.old) (λ files. Refuses files (words_of words.now) NoGroup) }
    // Where no fault was counted the answer over the files does come, whole; or memory was wanted.
    ensures complete { OnTold (F.files folder.old) (λ files.
        (Rose (F.faults folder.old) (F.faults folder.new) → ⊥)
        → (Rose (W.faults out.old) (W.faults out.new) → ⊥)
        → Completes (answer_on (opened_in files (words_of words.now))) (run_over (W.taken out.old) (W.taken out.new) (F.files folder.old) (F.files folder.new) steps.old steps.new (F.faults folder.old) (F.faults folder.new) (W.faults out.old) (W.faults out.new)) result) }
    // A group is printed certified exactly where its printed box passes the interval test; then the box is sound.
    ensures headline { OnTold (F.files folder.old) (λ files. (o : Opened)
        → opened_in files (words_of words.now) ≡ Ok o → is_reporting o.asked.command ≡ true
        → Headline o.accepted (run_over (W.taken out.old) (W.taken out.new) (F.files folder.old) (F.files folder.new) steps.old steps.new (F.faults folder.old) (F.faults folder.new) (W.faults out.old) (W.faults out.new)) result) }
{
    law_comes_out();
    law_model();
    law_read();
    ended(alloc, words, folder, out, steps).code()
}
