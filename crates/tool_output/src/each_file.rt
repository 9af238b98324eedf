//! Commands over several files, one after another: a file that can't be read is passed over.

ghost use Rattle.std.specs.Prelude.{◌≡◌, map, true, IfOk, IfErr};
ghost use Rattle.tool_arguments.specs.Operands.{operand_view};
ghost use Rattle.tool_output.specs.EachFile.{IsEnding, are_well, file_shown, is_well_in, texts_of};
ghost use Rattle.tool_output.specs.WriteFailures.{failures_ending};
ghost use Rattle.tool_printing.specs.Printing.{Prints};

use crate::fault::Fault;
use crate::stop::Stop;
use std::io::Write;
use tool_arguments::operands::Operand;
use tool_printing::Printer;

/// What is printed of a file.
#[derive(Drop)]
pub struct FileText {
    /// The text.
    pub text: Vec<u8>,
    /// Whether nothing is wrong with the file.
    pub is_well: bool,
}

/// What a command over several files prints of each.
pub trait EachFile {
    ghost use Rattle.std.specs.Prelude.{Bool, Result};
    ghost use Rattle.tool_arguments.specs.Operands.{WordAt};
    ghost use Rattle.tool_output.specs.EachFile.{GivesText, TextOf};
    ghost use Rattle.tool_output.specs.declared.stop.Stop.{Stop};

    // Whether contracts know what is printed.
    ghost is_known: { Self → Bool };

    // What is printed of the file that an argument names, or why nothing is.
    ghost printed: { Self → WordAt → Result TextOf Stop };

    /// What is printed of the file that an argument names, or why nothing is.
    fn text_of(&self, name: Operand<'_>) -> Result<FileText, Stop>
        ensures { is_known self.now ≡ true → GivesText result (printed self.now (operand_view name.entry)) };

    /// Writes why nothing is printed of a file.
    fn pass_over<E: Write>(&self, stop: Stop, name: Operand<'_>, err: &mut E);
}

/// Prints the text of a file. The result is whether nothing is wrong with the file.
fn print_one<F: EachFile, P: Printer, E: Write>(
    files: &F,
    name: Operand<'_>,
    out: &mut P,
    err: &mut E,
) -> Result<bool, Fault>
    ensures well { F.is_known files.now ≡ true → IfOk result (λ well. well ≡ is_well_in (F.printed files.now (operand_view name.entry))) }
    ensures prints { F.is_known files.now ≡ true → Prints (file_shown (F.printed files.now (operand_view name.entry))) (P.state out.old) (P.state out.new) result }
    ensures ends { IfErr result IsEnding }
    ensures failures { (P.state out.new).failures ≡ failures_ending (P.state out.old).failures result }
{
    match files.text_of(name) {
        Ok(printed) => {
            out.print_bytes(&printed.text, false)?;
            Ok(printed.is_well)
        }
        Err(Stop::Memory) => Err(Fault::Stopped(Stop::Memory, name.argument)),
        Err(stop) => {
            files.pass_over(stop, name, err);
            Ok(false)
        }
    }
}

/// Prints the texts of files, one after another. A file of which there is none is passed over. The result is whether
/// there is a text of each file, and nothing is wrong with any.
pub fn print_each_file<F: EachFile, P: Printer, E: Write>(
    files: &F,
    names: &[Operand<'_>],
    out: &mut P,
    err: &mut E,
) -> Result<bool, Fault>
    ensures well { F.is_known files.now ≡ true → IfOk result (λ all. all ≡ are_well (F.printed files.now) (map operand_view names.now)) }
    ensures prints { F.is_known files.now ≡ true → Prints (texts_of (F.printed files.now) (map operand_view names.now)) (P.state out.old) (P.state out.new) result }
    ensures ends { IfErr result IsEnding }
    ensures failures { (P.state out.new).failures ≡ failures_ending (P.state out.old).failures result }
{
    let mut all = true;
    for name in names {
        all &= print_one(files, *name, out, err)?;
    }
    Ok(all)
}
