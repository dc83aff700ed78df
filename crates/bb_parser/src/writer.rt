// A statement as text.
ghost use Rattle.std.specs.Prelude.{◌≡◌, ◌∷◌, [], IfOk, IfErr, true};
ghost use Rattle.meta_model.specs.declared.line.Kind.{Kind as FileKind};
ghost use Rattle.meta_model.specs.declared.line.Kind.TheVariants.{Class};
ghost use Rattle.meta_model.specs.Statements.{AreStatements, is_allowed};
ghost use Rattle.bb_parser.specs.declared.fault.PrintFault.TheVariants.{NoText};
ghost use Rattle.bb_parser.specs.Written.{IsNowhere};

use crate::fault::PrintFault;
use crate::lines_written::written;
use meta_model::Statement;
use std::alloc::Global;
use tree_model::Text;

/// The text of a file that has the statement alone, in line 1: a class always, and a file of another kind where the
/// statement may stand in such a file.
///
/// # Errors
///
/// `NoText` where no file has the statement, of any kind and among any others: its name is none, say. `Memory` where
/// memory ran out.
pub fn print(alloc: Global, statement: &Statement) -> Result<Text, PrintFault>
    ensures text { IfOk result (λ text. (kind : FileKind) → is_allowed kind statement.now ≡ true
        → AreStatements kind text ((1, statement.now) ∷ [])) }
    ensures class { IfOk result (λ text. AreStatements Class text ((1, statement.now) ∷ [])) }
    ensures nowhere { IfErr result (λ e. e ≡ NoText → IsNowhere statement.now) }
{
    let text = written(alloc, statement)?;
    let _is_text = text.as_str();
    Ok(text)
}
