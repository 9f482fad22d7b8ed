//! The words of a command.
ghost use Rattle.std.specs.Prelude.{◌≡◌, map, string_bytes};
ghost use Rattle.std.specs.Option.{option_map};
ghost use Rattle.flow_top.specs.Asked.{asked_of, worker_count, seed_count};
ghost use Rattle.flow_top.specs.Command.{asked_by};

use crate::number::number_of;

/// A command and what it is given.
#[derive(Clone, Copy)]
pub enum Command<'a> {
    Map(MapCommand<'a>),
    Fmt(FmtCommand<'a>),
    Sim(SimCommand<'a>),
}

/// The files of `fmt`.
#[derive(Clone, Copy)]
pub struct FmtCommand<'a> {
    pub design: &'a str,
    pub out: &'a str,
}

/// The files of `sim`, and how many seeds are simulated.
#[derive(Clone, Copy)]
pub struct SimCommand<'a> {
    pub netlist: &'a str,
    pub library: &'a str,
    pub stimulus: &'a str,
    pub trace: &'a str,
    pub seeds: u64,
}

/// The files of `map`, and how many workers plan.
#[derive(Clone, Copy)]
pub struct MapCommand<'a> {
    pub design: &'a str,
    pub library: &'a str,
    pub inferred: &'a str,
    pub netlist: &'a str,
    pub report: &'a str,
    pub workers: u32,
}

/// How many workers a word asks for: 1 to 64.
fn worker_count(word: &str) -> Option<u32>
    ensures { result ≡ worker_count word.now }
{
    let count = number_of(word.as_bytes())?;
    if count == 0 || count > 64 {
        return None;
    }
    Some(count as u32)
}

/// How many seeds a word asks for: 1 to 16.
fn seed_count(word: &str) -> Option<u64>
    ensures { result ≡ seed_count word.now }
{
    let count = number_of(word.as_bytes())?;
    if count == 0 || count > 16 {
        return None;
    }
    Some(count)
}

/// The command of these words.
pub fn parse(words: &[String]) -> Option<Command<'_>>
    ensures { option_map asked_by result ≡ asked_of (map string_bytes words.now) }
{
    match words {
        [command, design, library, inferred, netlist, report, workers]
            if command.as_str() == "map" => {
            let workers = worker_count(workers.as_str())?;
            Some(Command::Map(MapCommand {
                design: design.as_str(),
                library: library.as_str(),
                inferred: inferred.as_str(),
                netlist: netlist.as_str(),
                report: report.as_str(),
                workers,
            }))
        }
        [command, netlist, library, stimulus, trace, seeds] if command.as_str() == "sim" => {
            let seeds = seed_count(seeds.as_str())?;
            Some(Command::Sim(SimCommand {
                netlist: netlist.as_str(),
                library: library.as_str(),
                stimulus: stimulus.as_str(),
                trace: trace.as_str(),
                seeds,
            }))
        }
        [command, design, out] if command.as_str() == "fmt" => Some(Command::Fmt(FmtCommand {
            design: design.as_str(),
            out: out.as_str(),
        })),
        _ => None,
    }
}
