//! The call that the program makes.

ghost use Rattle.std.specs.Prelude.{◌≡◌, ◌≢◌, ◌⊎◌};
ghost use Rattle.text_base.specs.Outside.{Rose};
ghost use Rattle.replies.specs.Texts.{read_fault};
ghost use Rattle.stack_core.specs.Answer.{IsReplyWritten, HeldHeadline, IsHeldExact, HeldLeast, IsHeldEnd, HeldSimulated, AreHeldPeripherals, WritesReadFault, CutsOff, GetsUsage};
ghost use Rattle.stack_core.specs.Clauses.{IfNoneFailed, called};
ghost use Rattle.stack_core.specs.Reading.{reported};

use crate::answer::answer;
use crate::laws::written_answers_hold;
use replies::status::Status;
use std::alloc::Global;
use text_base::{Files, Sink, SinkFault, put_all};

/// Does all that the program does: answers the words of the command line, over the given files and sink. Statuses and texts are those of
/// docs/FORMATS.md.
pub fn stackbound<F: Files, K: Sink>(
    alloc: Global,
    words: &[&str],
    files: &mut F,
    out: &mut K,
) -> Status
    // If no call failed and memory sufficed, the answer is the one reply to the words and the files, and it was written. A reply that
    // accepts a certificate says that the bound holds; one that writes a certificate says that it is the least.
    ensures settled { IfNoneFailed result (IsReplyWritten (called words.now) (F.holds files.old) result (K.written out.old) (K.written out.new)) }
    // If a command that judges accepts held bytes, the bound holds of every run, and is printed. An explanation is the certificate's only
    // one: its links nest from the root on and add up to at most the bound, and to the bound itself if the rounds end with this
    // certificate. If `clear` answers 0, no run from reset is flagged, and each stays within the bound. A run from reset that ends
    // flagged ends at a word that `premises` lists, or takes a vector of a `never` line that it lists. With `--why` it ends at a listed
    // word with the cause of its flag: this protected address, a pushed byte, a transfer outside its line or a write of 1 to IVSEL;
    // and each word has a cause. `attain` writes the accepted certificate but for its schedule. The text is valid, so `check` accepts it.
    // It has a schedule exactly if the accepted one has, or some trial is as deep as the bound: its own, or that of the first such trial.
    // The schedule's run is exactly as deep.
    ensures headline { HeldHeadline (called words.now) (F.holds files.old) result (K.written out.old) (K.written out.new) }
    // If held bytes are well-formed, it accepts exactly the valid certificates, and `clear` those of them whose nodes are all clear. It
    // says that a node isn't clear exactly if one isn't, and rejects exactly if the certificate isn't valid.
    ensures exact { IfNoneFailed result (IsHeldExact (called words.now) (F.holds files.old) result) }
    // If an analysis of held bytes answers 0, it has written their least certificate, which is valid: no valid one has a smaller bound,
    // and every run stays within it. Its schedule is a run that reaches it; it has none exactly if no trial does.
    ensures least { HeldLeast (called words.now) (F.holds files.old) result (K.written out.old) (K.written out.new) }
    // If held bytes are well-formed, the status of an analysis says how the rounds end, and without a budget whether a valid certificate
    // exists.
    ensures ends { IfNoneFailed result (IsHeldEnd (called words.now) (F.holds files.old) result) }
    // If a simulation of held bytes answers 0, it reports the run that the peripherals choose, which is no deeper than the bound of any
    // certificate that `check` accepts for the same firmware and assumptions.
    ensures simulated { HeldSimulated (called words.now) (F.holds files.old) result (K.written out.old) (K.written out.new) }
    // If held firmware and assumptions are well-formed, a simulation answers 0 exactly if its peripherals are.
    ensures peripherals { IfNoneFailed result (AreHeldPeripherals (called words.now) (F.holds files.old) result) }
    // Exactly the words that are no command get this answer.
    ensures usage { GetsUsage (called words.now) result }
    // A read fault is answered only if a read of a file of the command failed in this call; the first such file is named.
    ensures read_fault { result ≡ Status.ReadFault → WritesReadFault (reported F.holds F.faults F.blamed files.old files.new) (called words.now) (K.written out.old) (K.written out.new) }
    // A write fault is answered only if a put failed in this call.
    ensures write_fault { result ≡ Status.WriteFault → Rose (K.faults out.old) (K.faults out.new) }
    // No failed read or put is ignored.
    ensures reads { IfNoneFailed result (F.faults files.new ≡ F.faults files.old) }
    ensures puts { result ≢ Status.WriteFault → K.faults out.new ≡ K.faults out.old }
    // After a write fault, or if memory runs out, a prefix of the due text was written.
    ensures cut { (result ≡ Status.WriteFault) ⊎ (result ≡ Status.OutOfMemory) → CutsOff (reported F.holds F.faults F.blamed files.old files.new) (called words.now) (K.written out.old) (K.written out.new) }
{
    written_answers_hold();
    match answer(alloc, words, files) {
        Ok(reply) => match put_all(out, &reply.text) {
            Ok(()) => reply.status,
            Err(SinkFault::Failed) => Status::WriteFault,
            Err(SinkFault::Memory) => Status::OutOfMemory,
        },
        Err(_) => Status::OutOfMemory,
    }
}
