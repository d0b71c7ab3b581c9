// The calls that change nothing, and are answered with a number.
ghost use Rattle.std.specs.Prelude.{IfOk, IfSome};
ghost use Rattle.av1_script.specs.Allowed.{IsQuestion};

use crate::args::symbol;
use crate::code::{Code, count_code, read_code};
use av1_ec::{StorageBackend, Writer, WriterBase, WriterEncoder};
use av1_geometry::OutOfMemory;
use std::alloc::Global;

/// What a line asks of a writer. What a code would take, in eighths of a bit, is its count.
#[derive(Drop)]
pub enum Question {
    Tell,
    TellFrac,
    StreamBits,
    Range,
    SymbolBits { s: u32, cdf: Vec<u16> },
    Count(Code),
}

/// The question that a line of this name and these numbers asks.
pub fn read_question(
    alloc: Global,
    name: &str,
    numbers: &[i64],
) -> Result<Option<Question>, OutOfMemory>
    ensures { IfOk result (λ read. IfSome read IsQuestion) }
{
    if numbers.is_empty() {
        return Ok(with_no_numbers(name));
    }
    if name == "symbol_bits" {
        let read = symbol(alloc, numbers)?;
        return Ok(read.map(|(s, cdf)| Question::SymbolBits { s, cdf }));
    }
    let Some(name) = name.strip_prefix("count_") else {
        return Ok(None);
    };
    Ok(read_code(name, numbers).map(Question::Count))
}

fn with_no_numbers(name: &str) -> Option<Question>
    ensures { IfSome result IsQuestion }
{
    match name {
        "tell" => Some(Question::Tell),
        "tell_frac" => Some(Question::TellFrac),
        "stream_bits" => Some(Question::StreamBits),
        "range" => Some(Question::Range),
        _ => None,
    }
}

/// The answer.
pub fn answer(w: &WriterBase<WriterEncoder>, question: &Question) -> u32
    requires { IsQuestion question.now }
{
    match question {
        Question::Tell => w.tell(),
        Question::TellFrac => w.tell_frac(),
        Question::StreamBits => w.stream_bits() as u32,
        Question::Range => u32::from(w.tally().rng),
        Question::SymbolBits { s, cdf } => w.symbol_bits(*s, cdf),
        Question::Count(code) => count_code(w, *code),
    }
}
