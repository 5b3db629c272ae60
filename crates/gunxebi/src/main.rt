// The program `gunxebi`: shows and checks tasks, judges plans, and shows what their steps do.
// Knows files, standard input and output, and words. Leaves every verdict to the sequencer.
#![tactic(auto)]

mod args;
mod batch;
mod causes;
mod check;
mod ending;
mod excerpt;
mod files;
mod flaw;
mod hex;
mod lines;
mod refused;
mod request;
mod show;
mod tasks;
mod text;
mod verdict;
mod words;

use args::Command;
use batch::answer_all;
use check::{check_task, show_task};
use ending::{Ended, Trouble};
use show::judge;
use std::process::ExitCode;

const USAGE: &str = "gunxebi judges plans for the changeover of a packaging line.

  gunxebi                    explains itself, and plays the tray lift of examples/tray-lift
  gunxebi judge TASK PLAN    judges a joint plan file for a task file, step by step
  gunxebi batch              answers requests from standard input, one a line
  gunxebi help               explains itself

It ends with status 0, or with 1 where a plan is refused or something is wrong.
docs/FORMATS.md describes files and requests, docs/REFUSALS.md what a refusal means.
";

// What the help says beyond that.
const MORE: &str = "
Of a task file alone:

  gunxebi show TASK          shows a task file in words
  gunxebi check TASK         says whether a task file is accepted, or where and why it is not
";

// The example that is played where there is no argument.
const TASK: &str = "examples/tray-lift/tray-lift.task";

const PLAN: &str = "examples/tray-lift/both.plan";

fn run(rt: &HostRuntime) -> Result<Ended, Trouble> {
    match args::read(rt)? {
        Command::Example => {
            println!(rt; "{USAGE}\nThe tray lift: gunxebi judge {TASK} {PLAN}\n")?;
            judge(rt, TASK, PLAN)
        }
        Command::Show { task } => show_task(rt, &task),
        Command::Check { task } => check_task(rt, &task),
        Command::Judge { task, plan } => judge(rt, &task, &plan),
        Command::Batch => {
            answer_all(rt)?;
            Ok(Ended::Well)
        }
        Command::Help => {
            rt.print(USAGE)?;
            rt.print(MORE)?;
            Ok(Ended::Well)
        }
    }
}

// The status 1 says no more than what has been printed.
fn main(rt: HostRuntime) -> ExitCode {
    match run(&rt) {
        Ok(ended) => ExitCode::from(ended),
        Err(trouble) => {
            let _ = eprintln!(rt; "gunxebi: {trouble}");
            ExitCode::FAILURE
        }
    }
}
