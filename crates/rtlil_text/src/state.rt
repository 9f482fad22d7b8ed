//! What was read of a text before a line.
ghost use Rattle.std.specs.Prelude.{◌≡◌, [], IfOk, OnOk};
ghost use Rattle.rtlil_text.specs.ReadState.{no_names, start, with_item, with_line, with_attribute, put_item, begin_module, put_wire, put_memory, begin_cell, put_parameter, put_pin, end, advance};

use crate::doc::{CellLine, DocAttr, DocCell, DocMem, DocModule, DocParam, DocWire, Item, Part};
use crate::names::Names;
use crate::place::Statement;
use lib_core::{List, Memory, Name};
use std::alloc::Global;
use std::mem;

/// What is open before a line.
#[derive(Drop)]
pub enum Open {
    File,
    Module(DocModule),
    Cell(DocModule, DocCell),
}

/// The names that a new one has to differ from: those of the file's modules, of the open
/// module's wires, memories and cells, and of the open cell's parameters and pins.
#[derive(Drop)]
pub struct Taken {
    pub modules: Names,
    pub wires: Names,
    pub memories: Names,
    pub cells: Names,
    pub parameters: Names,
    pub pins: Names,
}

/// What was read of a text before a line.
pub struct State {
    /// The modules that ended.
    pub modules: List<DocModule>,
    pub current: Open,
    /// The attributes of the object that comes next.
    pub attrs: List<DocAttr>,
    /// Whether a line `autoidx` was read.
    pub autoidx: bool,
    pub names: Taken,
}

/// By a function of its own, so that whatever holds a state drops it by one call.
impl Drop for State {
    fn drop(self) {
        let State {
            modules: _modules,
            current,
            attrs: _attrs,
            autoidx: _autoidx,
            names: _names,
        } = self;
        drop(current);
    }
}

fn no_attrs(alloc: Global) -> List<DocAttr>
    ensures { result ≡ [] }
{
    List::from_vec(Vec::new(alloc))
}

#[tactic(auto, unfolding(crate::specs::ReadState::no_names))]
fn no_names(alloc: Global) -> Taken
    ensures { result ≡ no_names }
{
    Taken {
        modules: Names::new(alloc),
        wires: Names::new(alloc),
        memories: Names::new(alloc),
        cells: Names::new(alloc),
        parameters: Names::new(alloc),
        pins: Names::new(alloc),
    }
}

impl Taken {
    /// The names without those of a module that ends.
    #[tactic(auto, unfolding(crate::specs::ReadState::no_names))]
    fn end_module(&mut self, alloc: Global)
        ensures { self.new ≡ record no_names { modules = self.old.modules } }
    {
        self.wires = Names::new(alloc);
        self.memories = Names::new(alloc);
        self.cells = Names::new(alloc);
        self.end_cell(alloc);
    }

    /// The names without those of a cell that ends.
    fn end_cell(&mut self, alloc: Global)
        ensures { self.new ≡ record self.old { parameters = []; pins = [] } }
    {
        self.parameters = Names::new(alloc);
        self.pins = Names::new(alloc);
    }
}

/// Before the first line.
#[tactic(auto, unfolding(crate::specs::ReadState::start))]
pub fn start(alloc: Global) -> State
    ensures { result ≡ start }
{
    State {
        modules: List::from_vec(Vec::new(alloc)),
        current: Open::File,
        attrs: no_attrs(alloc),
        autoidx: false,
        names: no_names(alloc),
    }
}

impl Open {
    /// The open module with one item more.
    #[tactic(auto, unfolding(crate::specs::ReadState::with_item))]
    fn put_item(&mut self, item: Item) -> Result<(), Memory>
        ensures { OnOk result (self.new ≡ with_item self.old item) }
    {
        match self {
            Open::Module(within) => within.items.push(item),
            _ => Ok(()),
        }
    }

    /// The open cell with one line more.
    #[tactic(auto, unfolding(crate::specs::ReadState::with_line))]
    fn put_line(&mut self, line: CellLine) -> Result<(), Memory>
        ensures { OnOk result (self.new ≡ with_line self.old line) }
    {
        match self {
            Open::Cell(_, cell) => cell.lines.push(line),
            _ => Ok(()),
        }
    }
}

/// The wire with these attributes.
fn attributed(wire: DocWire, attrs: List<DocAttr>) -> DocWire
    ensures { result ≡ record wire { attrs = attrs } }
{
    DocWire { attrs, ..wire }
}

impl State {
    /// The modules that ended.
    pub fn into_modules(self) -> List<DocModule>
        ensures { result ≡ self.modules }
    {
        let State {
            modules,
            current,
            attrs: _attrs,
            autoidx: _autoidx,
            names: _names,
        } = self;
        drop(current);
        modules
    }

    /// With this open in place of what was.
    fn enter(&mut self, current: Open)
        ensures { self.new ≡ record self.old { current = current } }
    {
        self.current = current;
    }

    /// Takes the attributes of the object that comes next.
    fn take_attrs(&mut self, alloc: Global) -> List<DocAttr>
        ensures taken { result ≡ self.old.attrs }
        ensures left { self.new ≡ record self.old { attrs = [] } }
    {
        mem::replace(&mut self.attrs, no_attrs(alloc))
    }

    #[tactic(auto, unfolding(crate::specs::ReadState::with_attribute))]
    fn put_attribute(&mut self, attr: DocAttr) -> Result<(), Memory>
        ensures { OnOk result (self.new ≡ with_attribute self.old attr) }
    {
        self.attrs.push(attr)
    }

    /// With an item that has neither name nor attributes.
    #[tactic(auto, unfolding(crate::specs::ReadState::put_item))]
    fn put_item(&mut self, item: Item) -> Result<(), Memory>
        ensures { OnOk result (self.new ≡ put_item self.old item) }
    {
        self.current.put_item(item)
    }

    #[tactic(auto, unfolding(crate::specs::ReadState::begin_module))]
    fn begin_module(&mut self, alloc: Global, name: Name) -> Result<(), Memory>
        ensures { OnOk result (self.new ≡ begin_module self.old name) }
    {
        self.names.modules.add(alloc, &name)?;
        let within = DocModule {
            attrs: self.take_attrs(alloc),
            name,
            items: List::from_vec(Vec::new(alloc)),
        };
        self.enter(Open::Module(within));
        Ok(())
    }

    #[tactic(auto, unfolding(crate::specs::ReadState::put_wire))]
    fn put_wire(&mut self, alloc: Global, wire: DocWire) -> Result<(), Memory>
        ensures { OnOk result (self.new ≡ put_wire self.old wire) }
    {
        self.names.wires.add(alloc, &wire.name)?;
        let wire = attributed(wire, self.take_attrs(alloc));
        self.current.put_item(Item::Wire(wire))
    }

    #[tactic(auto, unfolding(crate::specs::ReadState::put_memory))]
    fn put_memory(&mut self, alloc: Global, memory: DocMem) -> Result<(), Memory>
        ensures { OnOk result (self.new ≡ put_memory self.old memory) }
    {
        self.names.memories.add(alloc, &memory.name)?;
        let attrs = self.take_attrs(alloc);
        self.current.put_item(Item::Mem(DocMem { attrs, ..memory }))
    }

    #[tactic(auto, unfolding(crate::specs::ReadState::begin_cell, crate::specs::ReadState::cell_in))]
    fn begin_cell(&mut self, alloc: Global, kind: Name, name: Name) -> Result<(), Memory>
        ensures { OnOk result (self.new ≡ begin_cell self.old kind name) }
    {
        match mem::replace(&mut self.current, Open::File) {
            Open::Module(within) => {
                self.names.cells.add(alloc, &name)?;
                let cell = DocCell {
                    attrs: self.take_attrs(alloc),
                    kind,
                    name,
                    lines: List::from_vec(Vec::new(alloc)),
                };
                self.enter(Open::Cell(within, cell));
            }
            current => self.enter(current),
        }
        Ok(())
    }

    #[tactic(auto, unfolding(crate::specs::ReadState::put_parameter))]
    fn put_parameter(&mut self, alloc: Global, param: DocParam) -> Result<(), Memory>
        ensures { OnOk result (self.new ≡ put_parameter self.old param) }
    {
        self.names.parameters.add(alloc, &param.name)?;
        self.current.put_line(CellLine::Param(param))
    }

    #[tactic(auto, unfolding(crate::specs::ReadState::put_pin))]
    fn put_pin(&mut self, alloc: Global, name: Name, value: List<Part>) -> Result<(), Memory>
        ensures { OnOk result (self.new ≡ put_pin self.old name value) }
    {
        self.names.pins.add(alloc, &name)?;
        self.current.put_line(CellLine::Pin { name, value })
    }

    /// The end of the open cell, or of the open module.
    #[tactic(auto, unfolding(crate::specs::ReadState::end, crate::specs::ReadState::end_of, crate::specs::ReadState::with_item))]
    fn end(&mut self, alloc: Global) -> Result<(), Memory>
        ensures { OnOk result (self.new ≡ end self.old) }
    {
        match mem::replace(&mut self.current, Open::File) {
            Open::File => Ok(()),
            Open::Module(within) => {
                self.names.end_module(alloc);
                self.modules.push(within)
            }
            Open::Cell(within, cell) => {
                self.names.end_cell(alloc);
                self.enter(Open::Module(within));
                self.current.put_item(Item::Cell(cell))
            }
        }
    }

    /// Takes what a line says.
    #[tactic(auto, unfolding(crate::specs::ReadState::advance))]
    fn take(&mut self, alloc: Global, statement: Statement) -> Result<(), Memory>
        ensures { OnOk result (self.new ≡ advance self.old statement) }
    {
        match statement {
            Statement::Blank => Ok(()),
            Statement::Autoidx => {
                self.autoidx = true;
                Ok(())
            }
            Statement::Attribute(attr) => self.put_attribute(attr),
            Statement::Module(name) => self.begin_module(alloc, name),
            Statement::Parameter(param) => self.put_item(Item::Param(param)),
            Statement::Wire(wire) => self.put_wire(alloc, wire),
            Statement::Memory(memory) => self.put_memory(alloc, memory),
            Statement::Cell { kind, name } => self.begin_cell(alloc, kind, name),
            Statement::Connect { left, right } => self.put_item(Item::Connect { left, right }),
            Statement::CellParameter(param) => self.put_parameter(alloc, param),
            Statement::Pin { name, value } => self.put_pin(alloc, name, value),
            Statement::End => self.end(alloc),
        }
    }
}

/// What was read with one more line.
pub fn advance(alloc: Global, mut state: State, statement: Statement) -> Result<State, Memory>
    ensures { IfOk result (λ next. next ≡ advance state statement) }
{
    state.take(alloc, statement)?;
    Ok(state)
}
