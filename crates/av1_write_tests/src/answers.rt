use crate::coefficients::COEFFICIENTS;
use crate::every_kind::EVERY_KIND;
use crate::examples::EXAMPLES;
use crate::inter_blocks::INTER_BLOCKS;
use crate::inter_kinds::INTER_KINDS;
use crate::kinds::KINDS;
use crate::made::MADE;
use crate::rows::ROWS;
use crate::traps;
use crate::vector_kinds::VECTOR_KINDS;
use av1_bits::{MemSink, MemSource};
use av1_program::run::run;
use std::alloc::Global;
use std::process::Abort;
use std::test::Fail;

const SPACES: usize = 1 << 26;

const EMPTY: &str = r#"{"seq":{"chroma_sampling":3},"frame":{"width":8,"height":8},"tiles":[[]]}"#;

const FLAGS: usize = 20_000;

fn sink(alloc: Global) -> Result<MemSink, Fail> {
    Ok(MemSink::new(alloc, 4096, false, Vec::new(alloc))?)
}

fn source(alloc: Global, text: &str) -> Result<MemSource, Fail> {
    let bytes = Vec::from_slice(alloc, text.as_bytes())?;
    Ok(MemSource::new(bytes, false, Vec::new(alloc)))
}

fn words(alloc: Global, text: &str) -> Result<Vec<String>, Fail> {
    let mut words = Vec::new(alloc);
    for word in text.split(' ') {
        words.push(String::from_str(alloc, word)?)?;
    }
    Ok(words)
}

// The word `write` on this source gives this status, and these texts on `out` and `err`.
fn answers(
    rt: &impl Abort,
    alloc: Global,
    mut source: MemSource,
    number: u8,
    out_text: &str,
    err_text: &str,
) -> Result<(), Fail> {
    let words = words(alloc, "write")?;
    let mut out = sink(alloc)?;
    let mut err = sink(alloc)?;
    let status = run(alloc, &words, &mut source, &mut out, &mut err);
    assert_eq!(rt; status.number(), number);
    assert_eq!(rt; out.bytes(), out_text.as_bytes());
    assert_eq!(rt; err.bytes(), err_text.as_bytes());
    Ok(())
}

// This row is answered as it says.
fn is_answered(rt: &impl Abort, alloc: Global, row: &str) -> Result<(), Fail> {
    let (input, want) = row.split_once('\n').unwrap_or(("", ""));
    let (number, told) = want.split_once('\n').unwrap_or(("", ""));
    let number = number.parse::<u8>()?;
    let told = format!(in alloc; "{told}\n")?;
    let (out, err) = if number == 0 {
        (told.as_str(), "")
    } else {
        ("", told.as_str())
    };
    answers(rt, alloc, source(alloc, input)?, number, out, err)
}

// Each of these rows is.
fn all_are_answered(rt: &impl Abort, alloc: Global, rows: &str) -> Result<(), Fail> {
    for row in rows.split("\n\n") {
        is_answered(rt, alloc, row)?;
    }
    Ok(())
}

#[test]
fn rows_are_answered(rt: HostRuntime) -> Result<(), Fail> {
    all_are_answered(&rt, rt.alloc(), ROWS)
}

#[test]
fn rows_of_kinds_are_answered(rt: HostRuntime) -> Result<(), Fail> {
    all_are_answered(&rt, rt.alloc(), KINDS)
}

#[test]
fn examples_are_answered(rt: HostRuntime) -> Result<(), Fail> {
    all_are_answered(&rt, rt.alloc(), EXAMPLES)
}

#[test]
fn rows_of_coefficients_are_answered(rt: HostRuntime) -> Result<(), Fail> {
    all_are_answered(&rt, rt.alloc(), COEFFICIENTS)
}

#[test]
fn rows_of_inter_kinds_are_answered(rt: HostRuntime) -> Result<(), Fail> {
    all_are_answered(&rt, rt.alloc(), INTER_KINDS)
}

#[test]
fn rows_of_vectors_are_answered(rt: HostRuntime) -> Result<(), Fail> {
    all_are_answered(&rt, rt.alloc(), VECTOR_KINDS)
}

#[test]
fn rows_of_inter_blocks_are_answered(rt: HostRuntime) -> Result<(), Fail> {
    all_are_answered(&rt, rt.alloc(), INTER_BLOCKS)
}

#[test]
fn is_inter_and_references_forget_the_candidates(rt: HostRuntime) -> Result<(), Fail> {
    all_are_answered(&rt, rt.alloc(), traps::FORGOTTEN)
}

#[test]
fn is_inter_and_references_enter_a_mode(rt: HostRuntime) -> Result<(), Fail> {
    all_are_answered(&rt, rt.alloc(), traps::FIRST_MODES)
}

#[test]
fn only_a_block_forgets_the_chroma_mode(rt: HostRuntime) -> Result<(), Fail> {
    all_are_answered(&rt, rt.alloc(), traps::CHROMA_MODES)
}

#[test]
fn vectors_stay_until_others_are_entered(rt: HostRuntime) -> Result<(), Fail> {
    all_are_answered(&rt, rt.alloc(), traps::VECTORS)
}

#[test]
fn new_candidates_leave_which_one_is_taken(rt: HostRuntime) -> Result<(), Fail> {
    all_are_answered(&rt, rt.alloc(), traps::PICKS)
}

#[test]
fn a_later_candidate_undoes_a_vector(rt: HostRuntime) -> Result<(), Fail> {
    all_are_answered(&rt, rt.alloc(), traps::LATER)
}

#[test]
fn blocks_that_none_touched_are_no_intra_blocks(rt: HostRuntime) -> Result<(), Fail> {
    all_are_answered(&rt, rt.alloc(), traps::UNTOUCHED)
}

#[test]
fn low_bits_that_are_not_coded_are_ones(rt: HostRuntime) -> Result<(), Fail> {
    all_are_answered(&rt, rt.alloc(), traps::LOW_BITS)
}

#[test]
fn the_largest_numbers_are_refused(rt: HostRuntime) -> Result<(), Fail> {
    all_are_answered(&rt, rt.alloc(), traps::LARGE)
}

#[test]
fn a_block_without_a_chroma_size_is_refused(rt: HostRuntime) -> Result<(), Fail> {
    all_are_answered(&rt, rt.alloc(), traps::NO_CHROMA_SIZE)
}

#[test]
fn a_step_of_each_of_the_26_kinds_is_coded(rt: HostRuntime) -> Result<(), Fail> {
    let alloc = rt.alloc();
    let mut kinds: u32 = 0;
    for row in EVERY_KIND.split("\n\n") {
        let (kind, unit) = row.split_once('\n').unwrap_or(("", ""));
        let (input, told) = unit.split_once('\n').unwrap_or(("", ""));
        let step = format!(in alloc; "{{\"op\":\"{kind}\"")?;
        assert!(rt; input.contains(step.as_str()), "{kind}");
        assert!(rt; told.starts_with("0\n"), "{kind}");
        is_answered(&rt, alloc, unit)?;
        kinds = kinds.wrapping_add(1);
    }
    assert_eq!(rt; kinds, 26);
    Ok(())
}

#[test]
fn a_source_that_fails_at_once_is_a_source_fault(rt: HostRuntime) -> Result<(), Fail> {
    let alloc = rt.alloc();
    let fails = MemSource::new(Vec::new(alloc), false, vec![in alloc; 1]?);
    answers(&rt, alloc, fails, 2, "", "source fault\n")
}

#[test]
fn a_sink_that_fails_holds_a_front(rt: HostRuntime) -> Result<(), Fail> {
    let alloc = rt.alloc();
    let mut source = source(alloc, EMPTY)?;
    let mut out = MemSink::new(alloc, 4096, true, vec![in alloc; 2]?)?;
    let mut err = sink(alloc)?;
    let status = run(
        alloc,
        &words(alloc, "write")?,
        &mut source,
        &mut out,
        &mut err,
    );
    assert_eq!(rt; status.number(), 9);
    assert_eq!(rt; out.bytes(), b"1".as_slice());
    assert_eq!(rt; err.bytes(), b"sink fault\n".as_slice());
    Ok(())
}

#[test]
fn a_fault_of_err_changes_no_status(rt: HostRuntime) -> Result<(), Fail> {
    let alloc = rt.alloc();
    let mut source = source(alloc, "[]")?;
    let mut out = sink(alloc)?;
    let mut err = MemSink::new(alloc, 4096, false, vec![in alloc; 1]?)?;
    let status = run(
        alloc,
        &words(alloc, "write")?,
        &mut source,
        &mut out,
        &mut err,
    );
    assert_eq!(rt; status.number(), 5);
    assert!(rt; out.bytes().is_empty());
    assert!(rt; err.bytes().is_empty());
    Ok(())
}

#[test]
fn other_words_are_faulty_usage(rt: HostRuntime) -> Result<(), Fail> {
    let alloc = rt.alloc();
    for text in [
        "",
        "make",
        "make 07",
        "make 00",
        "make +7",
        "make -7",
        "make 7.",
        "make 1000000",
        "make 1 2",
        "make make",
        "makes 7",
        "write 7",
        "write write",
        "raw write",
        "Write",
        "--help",
    ] {
        let mut source = source(alloc, EMPTY)?;
        let mut out = sink(alloc)?;
        let mut err = sink(alloc)?;
        let status = run(alloc, &words(alloc, text)?, &mut source, &mut out, &mut err);
        assert_eq!(rt; status.number(), 1, "{text}");
        assert_eq!(rt;
            err.bytes(),
            b"usage: av1_write write | raw | make N\n".as_slice(),
            "{text}"
        );
    }
    let mut out = sink(alloc)?;
    let mut err = sink(alloc)?;
    let status = run(alloc, &[], &mut source(alloc, EMPTY)?, &mut out, &mut err);
    assert_eq!(rt; status.number(), 1);
    Ok(())
}

// The bytes go to `out` as they are, and the report's line to `err`.
#[test]
fn raw_sends_bytes_and_then_the_report(rt: HostRuntime) -> Result<(), Fail> {
    let alloc = rt.alloc();
    let mut source = source(alloc, EMPTY)?;
    let mut out = sink(alloc)?;
    let mut err = sink(alloc)?;
    let words = words(alloc, "raw")?;
    let status = run(alloc, &words, &mut source, &mut out, &mut err);
    assert_eq!(rt; status.number(), 0);
    let want = [
        0x12, 0x00, 0x0a, 0x05, 0x18, 0x08, 0xbf, 0x01, 0x10, 0x32, 0x06, 0x16, 0x40, 0x00, 0x00,
        0x00, 0x80,
    ];
    assert_eq!(rt; out.bytes(), want.as_slice());
    assert_eq!(rt; err.bytes(), b"tile 0 1 1\n".as_slice());
    Ok(())
}

// The word `make` with a number gives this summary, and reads nothing.
fn makes(rt: &impl Abort, alloc: Global, number: &str, want: &str) -> Result<(), Fail> {
    let text = format!(in alloc; "make {number}")?;
    let mut source = MemSource::new(Vec::new(alloc), false, vec![in alloc; 1]?);
    let mut out = sink(alloc)?;
    let mut err = sink(alloc)?;
    let words = words(alloc, text.as_str())?;
    let status = run(alloc, &words, &mut source, &mut out, &mut err);
    assert_eq!(rt; status.number(), 0, "{text}");
    assert_eq!(rt; out.bytes(), want.as_bytes(), "{text}");
    assert!(rt; err.bytes().is_empty(), "{text}");
    Ok(())
}

#[test]
fn numbers_make_units(rt: HostRuntime) -> Result<(), Fail> {
    let alloc = rt.alloc();
    for row in MADE.split("\n\n") {
        let number = row.split(' ').nth(1).unwrap_or("");
        let want = format!(in alloc; "{row}\n")?;
        makes(&rt, alloc, number, want.as_str())?;
    }
    Ok(())
}

// Nothing of the report is sent where the bytes could not be.
#[test]
fn raw_sends_no_report_after_a_fault(rt: HostRuntime) -> Result<(), Fail> {
    let alloc = rt.alloc();
    let mut source = source(alloc, EMPTY)?;
    let mut out = MemSink::new(alloc, 4096, true, vec![in alloc; 2]?)?;
    let mut err = sink(alloc)?;
    let words = words(alloc, "raw")?;
    let status = run(alloc, &words, &mut source, &mut out, &mut err);
    assert_eq!(rt; status.number(), 9);
    assert_eq!(rt; out.bytes(), [0x12].as_slice());
    assert_eq!(rt; err.bytes(), b"sink fault\n".as_slice());
    Ok(())
}

// One block, and then many flags that are true: each takes less than a bit more than the one before.
#[test]
fn a_long_script_is_sent(rt: HostRuntime) -> Result<(), Fail> {
    let alloc = rt.alloc();
    let mut text = String::from_str(
        alloc,
        r#"{"seq":{"chroma_sampling":3},"frame":{"width":8,"height":8},"tiles":[[{"op":"Block","x":0,"y":0,"size":3}"#,
    )?;
    for _ in 0..FLAGS {
        text.push_str(r#",{"op":"Skip","a":true}"#)?;
    }
    text.push_str("]]}")?;
    let mut source = source(alloc, text.as_str())?;
    let mut out = MemSink::new(alloc, 1 << 20, false, Vec::new(alloc))?;
    let mut err = sink(alloc)?;
    let status = run(
        alloc,
        &words(alloc, "write")?,
        &mut source,
        &mut out,
        &mut err,
    );
    assert_eq!(rt; status.number(), 0);
    assert!(rt; err.bytes().is_empty());
    Ok(())
}

#[test]
fn an_input_may_have_64_mib(rt: HostRuntime) -> Result<(), Fail> {
    let alloc = rt.alloc();
    let most = MemSource::new(vec![in alloc; b' '; SPACES]?, false, Vec::new(alloc));
    answers(&rt, alloc, most, 4, "", "bad text\n")?;
    let more = MemSource::new(vec![in alloc; b' '; SPACES + 1]?, false, Vec::new(alloc));
    answers(&rt, alloc, more, 3, "", "input too large\n")
}
