//! Laws of replies: contracts of functions with an empty body.

ghost use Rattle.replies.specs.Status.{CodesAreApart};
ghost use Rattle.replies.specs.Headline.{RepliesAreOne, AcceptingRepliesHold, RepliesAreExact, PlacesSayTheSame, CausesSayTheSame};

use assumption_files::laws::reading_is_exact;
use cert_check::laws::{sound_certificates_bound_every_run, verdicts_are_one};
use cert_format::laws::certificate_texts;
use cert_writing::laws::texts_fit;
use chain_explain::laws::explanations_tell;
use clear_laws::laws::{clear_answers_are_one, flagged_runs_end_as_told};
use flash_image::laws::{narrowing_is_exact, raw_images_are_their_words};
use guided_trials::laws::trials_are_led;
use peripherals::laws::{reading_is_exact as peripherals_are_exact, simulations_are_runs};
use round_laws::laws::{rounds_are_least, solutions_are_valid};
use round_solutions::laws::answers_are_one;
use witness_replay::laws::replays_are_runs;
use witness_search::laws::trials_are_due;

/// The answer to the contents of a command's files is unique.
/// - If a certificate is accepted, the bound holds for what was read.
/// - If one is written, it is the least one, or the accepted one with a schedule that reaches its bound, short enough to be read again.
/// - An explanation accounts for the bytes of the bound.
/// - If all nodes are clear, no run is flagged; otherwise runs are flagged only at the printed words, for the printed causes.
/// - A simulated run keeps each accepted bound.
/// - If the files are well-formed, a certificate is accepted exactly if it is valid, and the status of an analysis says how the rounds
/// end.
/// - No two statuses have one number.
pub fn replies_are_claims()
    ensures one { RepliesAreOne }
    ensures holds { AcceptingRepliesHold }
    ensures exact { RepliesAreExact }
    ensures codes { CodesAreApart }
{
    raw_images_are_their_words();
    narrowing_is_exact();
    reading_is_exact();
    certificate_texts();
    verdicts_are_one();
    sound_certificates_bound_every_run();
    answers_are_one();
    trials_are_due();
    texts_fit();
    rounds_are_least();
    solutions_are_valid();
    replays_are_runs();
    peripherals_are_exact();
    simulations_are_runs();
    explanations_tell();
    clear_answers_are_one();
    flagged_runs_end_as_told();
    trials_are_led();
}

/// Equivalent names give the same texts of places, with and without causes.
pub fn same_names_give_same_places()
    ensures places { PlacesSayTheSame }
    ensures causes { CausesSayTheSame }
{}
