//! The lines that any command may write, made whole in memory.

ghost use Rattle.std.specs.Prelude.{◌≡◌, IfOk, string_bytes};
ghost use Rattle.stretch_bench.specs.Lines.{rejected_line, usage_line};

use checker::Why;
use std::alloc::{AllocError, Global};
use strategy_text::Text;

/// The line for words that spell no command.
pub(crate) fn line_of_usage(alloc: Global) -> Result<Text, AllocError>
    ensures { IfOk result (λ text. text ≡ usage_line) }
{
    text_of_line(alloc, "usage\n")
}

/// The line for a fault in a line of the input, counted from 1.
pub(crate) fn line_of_rejected(alloc: Global, line: u64, why: Why) -> Result<Text, AllocError>
    ensures { IfOk result (λ text. text ≡ rejected_line line why) }
{
    let line = rejected_words(alloc, line, why)?;
    text_of_line(alloc, line.as_str())
}

fn rejected_words(alloc: Global, line: u64, why: Why) -> Result<String, AllocError>
    ensures { IfOk result (λ text. string_bytes text ≡ rejected_line line why) }
{
    match why {
        Why::Syntax => format!(in alloc; "rejected line {line} syntax\n"),
        Why::Sizes => format!(in alloc; "rejected line {line} rule sizes\n"),
        Why::Rule(rule) => {
            let name = rule.word();
            format!(in alloc; "rejected line {line} rule {name}\n")
        }
    }
}

/// The bytes of a line as a text.
pub(crate) fn text_of_line(alloc: Global, line: &str) -> Result<Text, AllocError>
    ensures { IfOk result (λ text. text ≡ line.now) }
{
    let mut text = Text::new(alloc);
    text.push_all(line.as_bytes())?;
    Ok(text)
}
