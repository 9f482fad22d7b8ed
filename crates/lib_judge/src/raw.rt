//! The RAMs of a text and their ports, each with the statements of its block.
ghost use Rattle.std.specs.Prelude.{◌≡◌, ◌≤◌, IfOk, length, take};
ghost use Rattle.lib_judge.specs.Raw.{block, block_length, port_of, ports_of, ram_of, rams_of};
ghost use Rattle.lib_judge.specs.Variants.{axes, mentions};

use crate::variants::{axes, mentions};
use lib_core::{Choice, Duplicate, List, Memory, Name, PortKind, RamClass};
use lib_tree::{Scope, Statement};
use std::alloc::Global;

/// A port as it is written.
#[derive(Debug)]
pub struct RawPort {
    pub kind: PortKind,
    pub names: List<Name>,
    /// What stands in its block.
    pub body: List<Statement>,
    /// The values of each of its own options.
    pub options: List<List<Choice>>,
}

/// By a function of its own, so that whatever holds a port drops it by one call.
impl Drop for RawPort {
    fn drop(self) {
        let RawPort {
            kind: _kind,
            names: _names,
            body: _body,
            options: _options,
        } = self;
    }
}

/// A RAM as it is written.
#[derive(Debug)]
pub struct RawRam {
    /// The line of its word `ram`.
    pub line: u32,
    pub class: RamClass,
    pub name: Name,
    /// What stands in its block, its ports too.
    pub body: List<Statement>,
    pub ports: List<RawPort>,
    /// The values of each of its options.
    pub options: List<List<Choice>>,
}

/// By a function of its own, so that whatever holds a RAM drops it by one call.
impl Drop for RawRam {
    fn drop(self) {
        let RawRam {
            line: _line,
            class: _class,
            name: _name,
            body: _body,
            ports: _ports,
            options: _options,
        } = self;
    }
}

/// How many statements stand before the end of the block that they are in.
#[tactic(auto, unfolding(crate::specs::Raw::block_length))]
fn block_length(statements: &[Statement]) -> usize
    ensures length { result ≡ block_length 0 statements.now }
    ensures within { result ≤ length statements.now }
{
    let mut depth: usize = 0;
    let mut count: usize = 0;
    let mut rest = statements;
    while let [statement, tail @ ..] = rest {
        match statement {
            Statement::End => {
                if depth == 0 {
                    return count;
                }
                depth -= 1;
            }
            Statement::Ram { .. } | Statement::Block { .. } | Statement::Port { .. } => {
                depth += 1;
            }
            Statement::Item(_) | Statement::Setting(_) => {}
        }
        count += 1;
        rest = tail;
    }
    count
}

fn copies(alloc: Global, statements: &[Statement]) -> Result<List<Statement>, Memory>
    ensures { IfOk result (λ copies. copies ≡ statements.now) }
{
    let mut copies = Vec::with_capacity(alloc, statements.len())?;
    for statement in statements {
        copies.push(statement.duplicate(alloc)?)?;
    }
    Ok(List::from_vec(copies))
}

/// What stands before the end of the block that the statements are in.
fn block(alloc: Global, statements: &[Statement]) -> Result<List<Statement>, Memory>
    ensures { IfOk result (λ inside. inside ≡ block statements.now) }
{
    copies(alloc, &statements[..block_length(statements)])
}

/// The values of each option of the scope in a block.
fn options_of(alloc: Global, scope: Scope, body: &[Statement]) -> Result<List<List<Choice>>, Memory>
    ensures { IfOk result (λ options. options ≡ axes (mentions scope body.now)) }
{
    let choices = mentions(alloc, scope, body)?;
    Ok(List::from_vec(axes(alloc, choices.as_slice())?))
}

/// A port with the statements behind its head.
fn port_of(
    alloc: Global,
    kind: PortKind,
    names: &List<Name>,
    behind: &[Statement],
) -> Result<RawPort, Memory>
    ensures { IfOk result (λ port. port ≡ port_of kind names.now behind.now) }
{
    let body = block(alloc, behind)?;
    let options = options_of(alloc, Scope::Port, body.as_slice())?;
    Ok(RawPort {
        kind,
        names: names.duplicate(alloc)?,
        body,
        options,
    })
}

/// The ports of a block.
#[tactic(auto, unfolding(crate::specs::Raw::ports_of))]
fn ports_of(alloc: Global, body: &[Statement]) -> Result<List<RawPort>, Memory>
    ensures { IfOk result (λ ports. ports ≡ ports_of body.now) }
{
    let mut ports = Vec::new(alloc);
    let mut rest = body;
    while let [statement, tail @ ..] = rest {
        if let Statement::Port { kind, names } = statement {
            ports.push(port_of(alloc, *kind, names, tail)?)?;
        }
        rest = tail;
    }
    Ok(List::from_vec(ports))
}

/// A RAM with the statements behind its head.
fn ram_of(
    alloc: Global,
    line: u32,
    class: RamClass,
    name: &Name,
    behind: &[Statement],
) -> Result<RawRam, Memory>
    ensures { IfOk result (λ ram. ram ≡ ram_of line class name.now behind.now) }
{
    let body = block(alloc, behind)?;
    let ports = ports_of(alloc, body.as_slice())?;
    let options = options_of(alloc, Scope::Ram, body.as_slice())?;
    Ok(RawRam {
        line,
        class,
        name: name.copy(alloc)?,
        body,
        ports,
        options,
    })
}

/// The RAMs of a text.
#[tactic(auto, unfolding(crate::specs::Raw::rams_of))]
pub fn rams_of(alloc: Global, statements: &[Statement]) -> Result<List<RawRam>, Memory>
    ensures { IfOk result (λ rams. rams ≡ rams_of statements.now) }
{
    let mut rams = Vec::new(alloc);
    let mut rest = statements;
    while let [statement, tail @ ..] = rest {
        if let Statement::Ram { line, class, name } = statement {
            rams.push(ram_of(alloc, *line, *class, name, tail)?)?;
        }
        rest = tail;
    }
    Ok(List::from_vec(rams))
}
