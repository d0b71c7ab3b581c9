// One run of the program.
ghost use Rattle.std.specs.Prelude.{◌≡◌, ◌^◌, ◌<◌, ◌≤◌, ◌↔◌, ◌⊎◌, ℕ, List, [], IfOk, IfErr, IsSome, None, Some, string_bytes};
ghost use Rattle.av1_bits.specs.Outside.{Rose, Still, appended};
ghost use Rattle.av1_program.specs.Run.{Asks, AsksBy, AsksForInput, HasBadScript, IsTooLong, IsSentIfRoom, NoFault, Why, word_in};
ghost use Rattle.av1_program.specs.Run.{IsAnswer, IsAnswerTo, IsGiven, IsGivenUnit, IsRefusal, IsRefused, IsOutputOf};
ghost use Rattle.av1_program.specs.Run.{IsSentFront, IsValid, Reads, Receives, ReceivesFront, TakesAtMost, TakesMore};
ghost use Rattle.av1_program.specs.Shape.{Fits, NoReading, Unfit, made, shape};
ghost use Rattle.av1_program.specs.Status.{HasFixedLine, IsBadShape, line_of};
ghost use Rattle.av1_program.specs.Text.{err_text, out_text};
ghost use Rattle.av1_unit.specs.Plain.{plain};
ghost use Rattle.av1_tile.specs.declared.error.Place.{Place};
ghost use Rattle.av1_geometry.specs.declared.error.Rule.{Rule};

use crate::shape::{made_unit, read_unit};
use crate::status::Status;
use crate::text::{report_text, summary, unit_text};
use crate::words::{Word, word_of};
use av1_bits::{Sink, Source, read_at_most, send_all};
use av1_geometry::OutOfMemory;
use av1_unit::{Report, Unit, Via, unit_bytes};
use std::alloc::Global;

/// The most bytes of an input.
const MOST_INPUT: usize = 1 << 26;

// What is sent to the two sinks where all is sent.
#[derive(Drop)]
struct Output {
    out: Vec<u8>,
    err: String,
}

fn output_of(
    alloc: Global,
    word: Word,
    bytes: Vec<u8>,
    report: &Report,
) -> Result<Output, OutOfMemory>
    ensures out { IfOk result (λ o. o.out.items ≡ out_text word bytes.items report.now) }
    ensures err { IfOk result (λ o. string_bytes o.err ≡ err_text word report.now) }
{
    match word {
        Word::Write => Ok(Output {
            out: unit_text(alloc, &bytes, report)?.into_bytes(),
            err: String::new(alloc),
        }),
        Word::Raw => Ok(Output {
            out: bytes,
            err: report_text(alloc, report)?,
        }),
        Word::Make(n) => Ok(Output {
            out: summary(alloc, n, &bytes, report)?.into_bytes(),
            err: String::new(alloc),
        }),
    }
}

fn output_of_unit(alloc: Global, word: Word, unit: &Unit, via: Via) -> Result<Output, Status>
    ensures output { IfOk result (λ o. IsOutputOf (Some word) o (Fits (plain unit.now, via))) }
    ensures refused { IfErr result (λ status. IsRefusal status (Fits (plain unit.now, via))) }
{
    let (bytes, report) = unit_bytes(alloc, unit, via)?;
    Ok(output_of(alloc, word, bytes, &report)?)
}

fn output_of_input(alloc: Global, word: Word, input: &[u8]) -> Result<Output, Status>
    ensures output { IfOk result (λ o. IsOutputOf (Some word) o (shape input.now)) }
    ensures refused { IfErr result (λ status. IsRefusal status (shape input.now)) }
{
    let (unit, via) = read_unit(alloc, input)?;
    output_of_unit(alloc, word, &unit, via)
}

fn output_of_number(alloc: Global, n: u32) -> Result<Output, Status>
    requires { n < 1000000 }
    ensures output { IfOk result (λ o. IsOutputOf (Some (Word.Make n)) o (made n)) }
    ensures refused { IfErr result (λ status. IsRefusal status (made n)) }
{
    let unit = made_unit(alloc, n)?;
    output_of_unit(alloc, Word::Make(n), &unit, Via::Direct)
}

fn output_of_source<R: Source>(alloc: Global, word: Word, source: &mut R) -> Result<Output, Status>
    requires { AsksForInput (Some word) }
    ensures output { IfOk result (λ o. AsksBy R.Source (Some word) source.old source.new (IsOutputOf (Some word) o)) }
    ensures why { IfErr result (Why R.Source (Some word) source.old source.new) }
    ensures taken { (result ≡ Err Status.TooLarge) ⊎ TakesAtMost (R.left source.old) (R.left source.new) }
    ensures count { (result ≡ Err Status.SourceFault) ⊎ (R.faults source.new ≡ R.faults source.old) }
{
    let input = read_at_most(alloc, source, MOST_INPUT)?;
    output_of_input(alloc, word, &input)
}

fn make<R: Source>(alloc: Global, words: &[String], source: &mut R) -> Result<Output, Status>
    ensures output { IfOk result (λ o. Asks R.Source words.now source.old source.new (IsOutputOf (word_in words.now) o)) }
    ensures why { IfErr result (Why R.Source (word_in words.now) source.old source.new) }
    ensures word { (result ≡ Err Status.Usage) ⊎ IsSome (word_in words.now) }
    ensures unread { AsksForInput (word_in words.now) ⊎ (source.new ≡ source.old) }
    ensures taken { (result ≡ Err Status.TooLarge) ⊎ TakesAtMost (R.left source.old) (R.left source.new) }
    ensures count { (result ≡ Err Status.SourceFault) ⊎ (R.faults source.new ≡ R.faults source.old) }
{
    match word_of(words) {
        None => Err(Status::Usage),
        Some(Word::Write) => output_of_source(alloc, Word::Write, source),
        Some(Word::Raw) => output_of_source(alloc, Word::Raw, source),
        Some(Word::Make(n)) => output_of_number(alloc, n),
    }
}

/// Sends the line of a status to `err`, and answers the status. Where the line has a path or a place and there is no memory for
/// it, the status is want of memory, and its line is sent.
pub fn report_status<E: Sink>(alloc: Global, status: Status, err: &mut E) -> Status
    ensures status { (result ≡ status) ⊎ ((result ≡ Status.OutOfMemory) × ¬ HasFixedLine status) }
    ensures told { Still (E.faults err.old) (E.faults err.new) → E.sent err.new ≡ appended (E.sent err.old) (line_of result) }
    ensures front { IsSentFront (E.sent err.old) (E.sent err.new) (line_of result) }
{
    let (status, line) = status.with_line(alloc);
    let _ = send_all(err, line.as_str().as_bytes());
    status
}

// Sends what is asked for, to `out` first.
fn send_output<S: Sink, E: Sink>(alloc: Global, output: &Output, out: &mut S, err: &mut E) -> Status
    ensures cases { (result ≡ Status.Sent) ⊎ (result ≡ Status.SinkFault) }
    ensures sent { result ≡ Status.Sent → S.sent out.new ≡ appended (S.sent out.old) output.now.out.items }
    ensures count { result ≡ Status.Sent → S.faults out.new ≡ S.faults out.old }
    ensures sink_fault { result ≡ Status.SinkFault → Rose (S.faults out.old) (S.faults out.new) }
    ensures sent_front { IsSentFront (S.sent out.old) (S.sent out.new) output.now.out.items }
    ensures silent { string_bytes output.now.err ≡ [] → result ≡ Status.Sent → err.new ≡ err.old }
    ensures report { result ≡ Status.Sent → Still (E.faults err.old) (E.faults err.new) →
        E.sent err.new ≡ appended (E.sent err.old) (string_bytes output.now.err) }
    ensures report_front { result ≡ Status.Sent → IsSentFront (E.sent err.old) (E.sent err.new) (string_bytes output.now.err) }
    ensures told { (result ≡ Status.Sent) ⊎ (Still (E.faults err.old) (E.faults err.new) → E.sent err.new ≡ appended (E.sent err.old) (line_of result)) }
    ensures front { (result ≡ Status.Sent) ⊎ IsSentFront (E.sent err.old) (E.sent err.new) (line_of result) }
{
    match send_all(out, &output.out) {
        Ok(()) => {
            send_report(output.err.as_str(), err);
            Status::Sent
        }
        Err(_) => report_status(alloc, Status::SinkFault, err),
    }
}

// Sends the lines of a report, if there are any, or a front of them where the sink fails.
fn send_report<E: Sink>(text: &str, err: &mut E)
    ensures silent { text.now ≡ [] → err.new ≡ err.old }
    ensures told { Still (E.faults err.old) (E.faults err.new) → E.sent err.new ≡ appended (E.sent err.old) text.now }
    ensures front { IsSentFront (E.sent err.old) (E.sent err.new) text.now }
{
    if !text.is_empty() {
        let _ = send_all(err, text.as_bytes());
    }
}

/// For `write` and `raw` it reads a unit as JSON from `source`. For `write` it sends the unit's bytes and its report as text to `out`; for
/// `raw` the bytes to `out`, and then the report's lines to `err`. For `make` and a number it reads nothing, and sends a summary of the
/// unit that the number makes to `out`. A status other than `Sent` sends its line to `err`, and a fault of `err` changes no status.
///
/// Everything that is sent is made in memory first. Want of memory has its own status, and no other cause
/// is told for it.
pub fn run<R: Source, S: Sink, E: Sink>(
    alloc: Global,
    words: &[String],
    source: &mut R,
    out: &mut S,
    err: &mut E,
) -> Status
    // All was sent: what was asked for, of the unit that the whole input stands for, or that the number makes.
    ensures sent { result ≡ Status.Sent →
        Asks R.Source words.now source.old source.new (Receives words.now S.Sink out.old out.new E.Sink err.old err.new) }
    ensures silent { result ≡ Status.Sent → (word_in words.now ≡ Some Word.Raw) ⊎ (err.new ≡ err.old) }

    // Each other status has its cause.
    ensures usage { (result ≡ Status.Usage) ↔ (word_in words.now ≡ None) }
    ensures unread { AsksForInput (word_in words.now) ⊎ (source.new ≡ source.old) }
    ensures source_fault { result ≡ Status.SourceFault → Rose (R.faults source.old) (R.faults source.new) }
    ensures source_count { (result ≡ Status.SourceFault) ⊎ (R.faults source.new ≡ R.faults source.old) }
    ensures too_large { result ≡ Status.TooLarge → TakesMore (R.left source.old) (R.left source.new) }
    ensures taken { (result ≡ Status.TooLarge) ⊎ TakesAtMost (R.left source.old) (R.left source.new) }
    ensures bad_text { result ≡ Status.BadText → Asks R.Source words.now source.old source.new (λ s. s ≡ NoReading) }
    ensures bad_shape { (path : List ℕ) → IsBadShape path result → Asks R.Source words.now source.old source.new (λ s. s ≡ Unfit path) }
    ensures refused { (place : Place) (rule : Rule) → result ≡ Status.Refused place rule →
        Asks R.Source words.now source.old source.new (IsRefused place rule) }
    ensures bad_script { (tile item : ℕ) → result ≡ Status.BadScript tile item →
        Asks R.Source words.now source.old source.new (HasBadScript tile item) }
    ensures too_long { (place : Place) → result ≡ Status.TooLong place → Asks R.Source words.now source.old source.new (IsTooLong place) }
    ensures sink_fault { result ≡ Status.SinkFault → Rose (S.faults out.old) (S.faults out.new) }
    ensures sink_count { (result ≡ Status.SinkFault) ⊎ (S.faults out.new ≡ S.faults out.old) }

    // Where the source tells its input and doesn't fail, the status is that of the input, but for want of memory. That of a number is always its unit's.
    ensures answer { (input : List ℕ) → IsGiven R.Source words.now input source.old source.new →
        (result ≡ Status.OutOfMemory) ⊎ IsAnswer input result }
    ensures complete { (input : List ℕ) → IsGivenUnit R.Source words.now input source.old source.new →
        NoFault S.Sink out.old out.new → IsSentIfRoom result }
    ensures answer_made { (n : ℕ) → word_in words.now ≡ Some (Word.Make n) → (result ≡ Status.OutOfMemory) ⊎ IsAnswerTo (made n) result }
    ensures complete_made { (n : ℕ) → word_in words.now ≡ Some (Word.Make n) → IsValid (made n) → NoFault S.Sink out.old out.new → IsSentIfRoom result }

    // What was sent: nothing to `out` but for a unit, and to `err` the line of a status that is another.
    ensures sink_front { result ≡ Status.SinkFault →
        Asks R.Source words.now source.old source.new (ReceivesFront words.now S.Sink out.old out.new) }
    ensures unsent { (result ≡ Status.Sent) ⊎ (result ≡ Status.SinkFault) ⊎ (out.new ≡ out.old) }
    ensures told { (result ≡ Status.Sent) ⊎ (Still (E.faults err.old) (E.faults err.new) → E.sent err.new ≡ appended (E.sent err.old) (line_of result)) }
    ensures front { (result ≡ Status.Sent) ⊎ IsSentFront (E.sent err.old) (E.sent err.new) (line_of result) }
{
    match make(alloc, words, source) {
        Ok(output) => send_output(alloc, &output, out, err),
        Err(status) => report_status(alloc, status, err),
    }
}
