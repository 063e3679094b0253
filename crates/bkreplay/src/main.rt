//! The program `bkreplay`: reads the command line and runs the job that it names.
#![tactic(auto)]

mod arguments;
mod pipe;
mod program;
mod speaker;

use crate::arguments::Given;
use crate::pipe::{Output, Pipe, Remarks};
use crate::program::{System, program};
use crate::speaker::Speaker;
use bk_frames::Counted;
use bk_jobs::{Access, Inputs};
use bk_progress::Display;
use std::io::IsTerminal;
use std::process::ExitCode;

fn main(rt: HostRuntime) -> ExitCode {
    let pipe = Pipe::new();
    let mut out = Counted::new(Output::new(rt.stdout(), &pipe));
    let terminal = rt.stderr().is_terminal();
    let typed = rt.stdin().is_terminal();
    let mut err = Counted::new(Remarks::new(rt.stderr(), &pipe));
    let given = Given::new(&rt);
    let mut speaker = Speaker::new(&rt);
    let system = System {
        display: Display::new(&rt, terminal),
        typed,
    };
    let input = Counted::new(rt.reader());
    let mut access = Access::new(Inputs::new(&rt), Inputs::new(&rt), input);
    program(
        &rt,
        given,
        &system,
        &mut access,
        &mut speaker,
        &mut out,
        &mut err,
    )
}
