//! What the commands of a script do, from before its machine is opened on.

use crate::endings::Fault;
use crate::machine::{Machine, Turn};
use crate::opaque::Opaque;
use crate::peers::Peers;
use crate::planning::Planning;
use crate::print;
use crate::script::{Command, Why};
use resolver_base::Moment;
use std::alloc::Global;
use std::io::Write;
use std::mem;

/// The machine that a script opened, the moment of its next input, and the plan.
#[derive(Drop)]
struct Opened {
    machine: Machine,
    now: Moment,
    planning: Planning,
}

/// A script, from before its machine is opened on.
#[derive(Drop)]
pub struct Session {
    alloc: Global,
    opened: Option<Opened>,
}

impl Session {
    /// No machine is open.
    pub fn new(alloc: Global) -> Session {
        Session {
            alloc,
            opened: None,
        }
    }

    /// The machine, if one is open.
    pub fn machine(&self) -> Option<&Machine> {
        match &self.opened {
            Some(opened) => Some(&opened.machine),
            None => None,
        }
    }

    /// The moment of the next input, in nanoseconds.
    pub fn now(&self) -> u128 {
        match &self.opened {
            Some(opened) => opened.now.nanoseconds,
            None => 0,
        }
    }

    /// Does what a command says, and answers what came of it.
    pub fn take(&mut self, command: Command) -> Result<Turn, Fault> {
        let opened = &mut self.opened;
        match opened {
            None => Ok(start(self.alloc, opened, command)),
            Some(opened) => opened.take(command),
        }
    }

    /// Prints what came of a command that was taken last.
    pub fn print<W: Write>(&self, turn: &Turn, output: &mut W) -> Result<(), Fault> {
        match (turn, self.machine()) {
            (Turn::Show, Some(machine)) => machine.show(output),
            _ => print::turn(output, turn),
        }
    }
}

/// Opens the machine, or says why the line is another command.
fn start(alloc: Global, opened: &mut Option<Opened>, command: Command) -> Turn {
    let machine = match command {
        Command::Opaque { delay } => Machine::Opaque(Opaque::new(alloc, delay)),
        Command::Peers(timing) => Machine::Peers(Peers::new(alloc, timing)),
        _ => return Turn::Wrong(Why::Unopened),
    };
    let new = Opened {
        machine,
        now: Moment { nanoseconds: 0 },
        planning: Planning::new(alloc),
    };
    *opened = Some(new);
    Turn::Quiet
}

impl Opened {
    /// Does what a command says, and answers what came of it.
    fn take(&mut self, command: Command) -> Result<Turn, Fault> {
        match command {
            Command::Opaque { .. } | Command::Peers(_) => Ok(Turn::Wrong(Why::Opened)),
            Command::At(moment) => {
                self.now = moment;
                Ok(Turn::Quiet)
            }
            Command::Show => Ok(Turn::Show),
            Command::Plans(planned) => {
                let Self {
                    machine,
                    now,
                    planning,
                } = self;
                planning.take(machine, *now, planned)
            }
            Command::Happens(said) => self.machine.happens(self.now, said),
            Command::Answers(answer) => Ok(self.machine.answers(answer)),
        }
    }
}
