// Texts of records, each on a line.
ghost use Rattle.std.specs.Prelude.{◌≡◌, ◌++◌, ◌∷◌, ◌≤◌, IfOk, OnOk, [], length};
ghost use Rattle.vx_value.specs.Views.{value_of};
ghost use Rattle.vx_records.specs.Chunks.{each_line, line_if_true, true_lines, texts_in, values_in};

use std::alloc::{AllocError, Global};
use vx_value::Value;

/// The texts beside which stands true, each on a line.
pub(crate) fn lines_of(
    alloc: Global,
    texts: &[Vec<u8>],
    values: &[Value],
) -> Result<Vec<u8>, AllocError>
    requires { length texts.now ≤ length values.now }
    ensures { IfOk result (λ lines. lines.items ≡ true_lines (texts_in texts.now) (values_in values.now) (length texts.now)) }
{
    let mut lines = Vec::new(alloc);
    for i in 0..texts.len() {
        push_if_true(texts[i].as_slice(), &values[i], &mut lines)?;
    }
    Ok(lines)
}

/// Each of the texts on a line.
pub(crate) fn all_lines_of(alloc: Global, texts: &[Vec<u8>]) -> Result<Vec<u8>, AllocError>
    ensures { IfOk result (λ lines. lines.items ≡ each_line (texts_in texts.now)) }
{
    let mut lines = Vec::new(alloc);
    for text in texts {
        push_line(text.as_slice(), &mut lines)?;
    }
    Ok(lines)
}

// Adds the text on a line, where the value is true.
fn push_if_true(text: &[u8], value: &Value, lines: &mut Vec<u8>) -> Result<(), AllocError>
    ensures { OnOk result (lines.new.items ≡ lines.old.items ++ line_if_true (value_of value.now) text.now) }
{
    if let Value::Bool(true) = value {
        push_line(text, lines)?;
    }
    Ok(())
}

// Adds the text on a line.
fn push_line(text: &[u8], lines: &mut Vec<u8>) -> Result<(), AllocError>
    ensures { OnOk result (lines.new.items ≡ lines.old.items ++ (text.now ++ 10 ∷ [])) }
{
    lines.extend_from_slice(text)?;
    lines.push(b'\n')?;
    Ok(())
}
