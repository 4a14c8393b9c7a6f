//! The line for words that are refused.
ghost use Rattle.std.specs.Prelude.{◌≡◌, ◌++◌, ◌+◌, ◌≤◌, length};
ghost use Rattle.arrayvec.specs.ArrayString.{array_string_len};
ghost use Rattle.assort_core.specs.Lines.{cause_text, place_text, usage_line};

use arrayvec::ArrayString;
use assort_words::{UsageCode, UsageFault};
use itoa::Buffer;

/// A line for standard error. The longest that there is fits.
pub(crate) type ErrorLine = ArrayString<128>;

fn cause_text(code: UsageCode) -> &'static str
    ensures text { result.now ≡ cause_text code }
    ensures short { length result.now ≤ 29 }
{
    match code {
        UsageCode::NoCommand => "no command",
        UsageCode::UnknownCommand => "unknown command",
        UsageCode::UnknownOption => "unknown option",
        UsageCode::RepeatedOption => "repeated option",
        UsageCode::MissingValue => "missing value",
        UsageCode::Nested => "nested logit is not supported",
        UsageCode::BadValue => "bad value",
        UsageCode::MissingOption => "missing option ",
        UsageCode::UnusedOption => "option ",
        UsageCode::ProofIsInput => "proof names an input",
    }
}

/// Puts the place of a fault last.
fn push_place(line: &mut ErrorLine, fault: &UsageFault)
    requires { array_string_len line.old ≤ 64 }
    ensures bytes { line.new.bytes ≡ line.old.bytes ++ place_text fault.now fault.now.code }
    ensures len { array_string_len line.new ≤ array_string_len line.old + 60 }
{
    match fault.code {
        UsageCode::NoCommand | UsageCode::ProofIsInput => {}
        UsageCode::MissingOption => line.push_str(fault.key.text()),
        UsageCode::UnusedOption => {
            line.push_str(fault.key.text());
            line.push_str(" is not for this model");
        }
        _ => {
            line.push_str(" at word ");
            line.push_str(Buffer::new().format(fault.word));
        }
    }
}

/// The line for words that are refused.
pub(crate) fn usage_line(fault: &UsageFault) -> ErrorLine
    ensures { result.bytes ≡ usage_line fault.now }
{
    let mut line = ErrorLine::new();
    line.push_str("assort: usage: ");
    line.push_str(cause_text(fault.code));
    push_place(&mut line, fault);
    line.push_str("\n");
    line
}
