// Whether the lines of a key are such as a sound plan has.
ghost use Rattle.std.specs.Prelude.{◌≡◌, ◌↔◌, IsTrue, All, false};
ghost use Rattle.store_model.specs.Signatures.{is_line_before, is_order, line_cmp};
ghost use Rattle.store_model.specs.Spelled.{Ascends};
ghost use Rattle.target_plan.specs.Checked.{AreSoundLines};

use meta_model::KeyLine;

/// Whether the line has the name of the order line, which no variable has.
fn is_order_line(line: &KeyLine) -> bool
    ensures { result ≡ is_order line.now }
{
    line.name.as_str() == "="
}

/// Whether the first line's name comes before the second's.
fn comes_before(one: &KeyLine, other: &KeyLine) -> bool
    ensures { result ≡ is_line_before one.now other.now }
{
    one.name.as_str() < other.name.as_str()
}

/// Whether the lines ascend strictly by their names.
fn are_ascending(lines: &[KeyLine]) -> bool
    ensures { IsTrue result ↔ Ascends line_cmp lines.now }
{
    let mut rest = lines;
    while rest.len() > 1 {
        if !comes_before(&rest[0], &rest[1]) {
            return false;
        }
        rest = &rest[1..];
    }
    true
}

/// Whether no line has the name of the order line.
fn have_no_order(lines: &[KeyLine]) -> bool
    ensures { IsTrue result ↔ All (λ l. is_order l ≡ false) lines.now }
{
    lines.iter().all(|line| !is_order_line(line))
}

/// Whether the lines ascend strictly by their names, and none has that of the order line.
pub(crate) fn are_sound_lines(lines: &[KeyLine]) -> bool
    ensures { IsTrue result ↔ AreSoundLines lines.now }
{
    are_ascending(lines) && have_no_order(lines)
}
