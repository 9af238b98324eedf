//! Texts of symbol files for people: `pdb_tool COMMAND [OPTION..] FILE [ARGUMENT..]`.
#![tactic(auto)]

mod host;
mod output;

use host::Machine;
use output::Output;
use pdb_text::CountedWriter;
use std::io::{self, IsTerminal};
use std::process::ExitCode;
use tool_arguments::arguments::arguments_of;
use tool_output::fault::Fault;
use tool_output::stop::Stop;
use tool_program::messages::report_fault;
use tool_program::tasks::{StandardStreams, exit_status, run};

fn main(rt: HostRuntime) -> ExitCode {
    let mut err = rt.stderr();
    let Ok(arguments) = arguments_of(&rt) else {
        let fault = Fault::Stopped(Stop::Memory, 0);
        report_fault(&Machine::new(&rt, &[], false), fault, &[], &mut err);
        return ExitCode::from(exit_status(Err(fault)));
    };
    let host = Machine::new(&rt, &arguments.not_text, rt.stdin().is_terminal());
    let mut out = CountedWriter::counting(Output::new(io::writer(&rt)));
    let mut streams = StandardStreams {
        input: &mut rt.reader(),
        out: &mut out,
        err: &mut err,
    };
    let ended = run(&host, &arguments.words, &mut streams);
    if let Err(fault) = ended {
        if !out.inner().is_closed() {
            report_fault(&host, fault, &arguments.words, &mut err);
        }
    }
    ExitCode::from(exit_status(ended))
}
